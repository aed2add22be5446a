// Sets of indices as bits of lent words: index x has bit x % 64 of word x / 64. One look tells whether an index is held, and the
// indices held are read off in order, past 64 at a time where a word has none.
#![tactic(auto)]

pub mod marked; // marked.rt: a set that is collected from words in any order

ghost use Rattle.std.specs.Prelude.{◌≡◌, ◌*◌, ◌<◌, length};
ghost use Rattle.word_set.specs.Sets.{Joins};
ghost use Rattle.index_set.specs.Bits.{is_held, Adds, held_from, indices};

// Whether x is held.
pub fn holds(bits: &[u64], x: u32) -> bool
    ensures { result ≡ is_held bits.now x }
{
    let i = (x / 64) as usize;
    if bits.len() <= i {
        return false;
    }
    (bits[i] >> ((x % 64) as u64)) % 2 == 1
}

// x joins the set, if the words have a bit for it.
pub fn add(bits: &mut [u64], x: u32) -> bool
    ensures { Adds x bits.old bits.new result }
{
    let i = (x / 64) as usize;
    if bits.len() <= i {
        return false;
    }
    bits[i] = bits[i] | (1u64 << ((x % 64) as u64));
    true
}

// The indices of one word join the n words held.
fn gather_word(bits: &[u64], i: usize, out: &mut [u32], n: usize) -> Option<usize>
    requires { (i < length bits.now) × (i < 67108864) }
    ensures { Joins (held_from 64 bits.now (64 * i)) n out.old out.new result }
{
    let mut w = bits[i];
    let mut x = 64 * i;
    let mut held = n;
    while w != 0 {
        if w % 2 == 1 {
            held = word_set::insert(out, held, x as u32)?;
        }
        w = w / 2;
        x += 1;
    }
    Some(held)
}

// The indices held join the n words held in `out`, one after another.
pub fn gather(bits: &[u64], out: &mut [u32], n: usize) -> Option<usize>
    ensures { Joins (indices bits.now) n out.old out.new result }
{
    let end = bits.len().min(67108864);
    let mut held = n;
    for i in 0..end {
        if bits[i] != 0 {
            held = gather_word(bits, i, out, held)?;
        }
    }
    Some(held)
}
