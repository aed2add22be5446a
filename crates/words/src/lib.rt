// Lent slices of numbers: filled and cleared, at each width; and the small total operations that definitions and code share: a read past
// the end is 0, a difference below 0 is 0, a store past the end changes nothing.
#![tactic(auto)]

ghost use Rattle.std.specs.Prelude.{◌≡◌, ◌-◌, min, max, length, replicate, get_or, set};

// A number of some width.
pub trait Number: Copy + Drop {
    ghost ZERO: { Self };

    const ZERO: Self;
}

impl Number for u8 {
    ghost ZERO = { 0 };

    const ZERO: u8 = 0;
}

impl Number for u32 {
    ghost ZERO = { 0 };

    const ZERO: u32 = 0;
}

impl Number for u64 {
    ghost ZERO = { 0 };

    const ZERO: u64 = 0;
}

// Every number of w becomes v. Of a few words this is faster than std's `fill`, which stores the last one apart.
fn set_all<T: Number>(w: &mut [T], v: T)
    ensures { w.new ≡ replicate (length w.old) v }
{
    for x in w {
        *x = v;
    }
}

// Every word of w becomes v.
pub fn fill(w: &mut [u32], v: u32)
    ensures { w.new ≡ replicate (length w.old) v }
{
    set_all(w, v);
}

// Every number of w becomes 0.
pub fn clear<T: Number>(w: &mut [T])
    ensures { w.new ≡ replicate (length w.old) T.ZERO }
{
    set_all(w, T::ZERO);
}

// The word at i, and 0 past the end.
pub fn word_at(w: &[u32], i: usize) -> u32
    ensures { result ≡ get_or w.now i 0 }
{
    if i < w.len() { w[i] } else { 0 }
}

// The number at a place becomes v; past the end nothing changes.
pub fn put<T: Number>(w: &mut [T], at: usize, v: T)
    ensures { w.new ≡ set w.old at v }
{
    if at < w.len() {
        w[at] = v;
    }
}

// a less b, and 0 where b is larger.
pub fn minus(a: usize, b: usize) -> usize
    ensures { result ≡ a - b }
{
    a.saturating_sub(b)
}

// The lesser of two words.
pub fn lesser(a: u32, b: u32) -> u32
    ensures { result ≡ min a b }
{
    a.min(b)
}

// The greater of two words.
pub fn greater(a: u32, b: u32) -> u32
    ensures { result ≡ max a b }
{
    a.max(b)
}
