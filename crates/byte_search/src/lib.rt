// The first place of one byte, of one of two, or of two at a distance (the crate memchr of the Rust). A block of places is tested or
// searched without a way out in between: the back end turns both into vector instructions.
#![tactic(auto)]

ghost use Rattle.std.specs.Prelude.{ℕ, ◌+◌, ◌-◌, ◌<◌, ◌≤◌, List, min, length};
ghost use Rattle.byte_search.specs.Steps.{Tested, Lane, Blocks};
ghost use Rattle.byte_search.specs.First.{Either, Both, First};

// What is searched for.
trait Sought: Copy + Drop {
    // Whether a place is of the kind.
    ghost kind: { Self → List ℕ → ℕ → Type 0 };

    // How far after a place its last byte stands.
    ghost reach: { Self → ℕ };

    // `yes` where the place is of the kind, else `no`.
    fn lane(self, s: &[u8], at: usize, yes: u8, no: u8) -> u8
        requires { at + reach self < length s.now }
        ensures { Lane yes no (kind self s.now at) result };
}

// One of two bytes.
#[derive(Clone, Copy)]
struct OneOf {
    a: u8,
    b: u8,
}

impl Sought for OneOf {
    ghost kind = { λ w s k. Either w.a w.b s k };

    ghost reach = { λ _. 0 };

    fn lane(self, s: &[u8], at: usize, yes: u8, no: u8) -> u8 {
        let x = s[at];
        if x == self.a || x == self.b { yes } else { no }
    }
}

// Two bytes at a distance.
#[derive(Clone, Copy)]
struct Apart {
    a: u8,
    b: u8,
    d: usize,
}

impl Sought for Apart {
    ghost kind = { λ w s k. Both w.a w.b w.d s k };

    ghost reach = { λ w. w.d };

    fn lane(self, s: &[u8], at: usize, yes: u8, no: u8) -> u8 {
        // Not `&&`: the back end would branch between the two reads, and make no vector instructions of them.
        if (s[at] == self.a) & (s[at + self.d] == self.b) {
            yes
        } else {
            no
        }
    }
}

// ---- blocks of 16 places

// 0 where none of the 16 places is of the kind.
fn any_in_block<W: Sought>(what: W, s: &[u8], at: usize) -> u8
    requires { at + 16 + W.reach what ≤ length s.now }
    ensures { Tested (W.kind what s.now) at 16 result }
{
    let mut any: u8 = 0;
    for i in 0..16 {
        any |= what.lane(s, at + i, 1, 0);
    }
    any
}

// Over the blocks that have none.
fn skip<W: Sought>(what: W, s: &[u8], from: usize, to: usize) -> usize
    requires { (from ≤ to) × (to + W.reach what ≤ length s.now) }
    ensures { Blocks (W.kind what s.now) from to result }
{
    let mut at = from;
    while 16 <= to - at {
        if any_in_block(what, s, at) != 0 {
            return at;
        }
        at += 16;
    }
    at
}

// The first of n places, or the place after them.
fn first_of<W: Sought>(what: W, s: &[u8], at: usize, n: u8) -> usize
    requires { at + n + W.reach what ≤ length s.now }
    ensures { First (W.kind what s.now) at (at + n) result }
{
    let mut first = n;
    for i in 0..n {
        first = first.min(what.lane(s, at + i as usize, i, n));
    }
    at + first as usize
}

// The first place from `from` up to `to`, or `to`.
fn search<W: Sought>(what: W, s: &[u8], from: usize, to: usize) -> usize
    requires { (from ≤ to) × (to + W.reach what ≤ length s.now) }
    ensures { First (W.kind what s.now) from to result }
{
    let at = skip(what, s, from, to);
    first_of(what, s, at, (to - at).min(16) as u8)
}

// The same, place by place: the quicker way where there is less than a block.
fn plain<W: Sought>(what: W, s: &[u8], from: usize, to: usize) -> usize
    requires { (from ≤ to) × (to + W.reach what ≤ length s.now) }
    ensures { First (W.kind what s.now) from to result }
{
    for at in from..to {
        if what.lane(s, at, 1, 0) != 0 {
            return at;
        }
    }
    to
}

// The first place from `from` on whose byte is a or b, before `end` and the slice's end; the lesser of these two where there is none.
pub fn memchr2(a: u8, b: u8, s: &[u8], from: usize, end: usize) -> usize
    ensures { First (Either a b s.now) from (min end (length s.now)) result }
{
    let what = OneOf { a, b };
    let to = end.min(s.len());
    if to <= from {
        return to;
    }
    if to - from < 16 {
        return plain(what, s, from, to);
    }
    search(what, s, from, to)
}

// The first place from `from` on whose byte is a and has b at the distance d, all before `end` and the slice's end; where there is
// none, the place after the last that leaves room for the distance.
pub fn pair(a: u8, b: u8, d: usize, s: &[u8], from: usize, end: usize) -> usize
    ensures { First (Both a b d s.now) from (min end (length s.now) - d) result }
{
    let to = end.min(s.len()).saturating_sub(d);
    if to <= from {
        return to;
    }
    search(Apart { a, b, d }, s, from, to)
}

// ---- blocks of 64 places

// How many of the 64 places stand from the first of the kind on: 0 where none is. The greatest number is quicker to find than the
// least, since what doesn't count is 0.
fn rest_from<W: Sought>(what: W, s: &[u8], at: usize) -> u8
    requires { at + 64 + W.reach what ≤ length s.now }
    ensures { (result ≤ 64) × First (W.kind what s.now) at (at + 64) (at + 64 - result) }
{
    let mut rest: u8 = 0;
    for i in 0..64 {
        rest = rest.max(what.lane(s, at + i as usize, 64 - i, 0));
    }
    rest
}

// The same as `memchr2` for one byte. A block is searched at once, and is so long that most texts end in the first: a branch at each
// shorter one would cost more than what is read in vain.
pub fn memchr(a: u8, s: &[u8], from: usize, end: usize) -> usize
    ensures { First (Either a a s.now) from (min end (length s.now)) result }
{
    let what = OneOf { a, b: a };
    let to = end.min(s.len());
    if to <= from {
        return to;
    }
    let mut at = from;
    while 64 <= to - at {
        let rest = rest_from(what, s, at);
        at += 64;
        if 0 < rest {
            return at - rest as usize;
        }
    }
    plain(what, s, at, to)
}
