// The wanted words as the sets that a scan asks: a byte for each index of two bytes, or a bit for each string index.
ghost use Rattle.std.specs.Prelude.{◌≡◌, [], replicate};
ghost use Rattle.code_item_scan.specs.Scan.{is_in};
ghost use Rattle.code_item_scan.specs.Next.{index_set_of, index_count, listed};
ghost use Rattle.code_item_scan.specs.Steps.{TableOf, NoneHeld, WantedOf};

use super::IndexSet;

// How many indices of two bytes there are (`index_count` of specs/Next.antt).
pub(crate) const INDICES: usize = 65536;

// A table of the indices of two bytes: 1 where the index is wanted, else 0.
pub(crate) fn table_of(wanted: &[u32], table: &mut [u8; INDICES])
    requires { table.old ≡ replicate index_count 0 }
    ensures { TableOf wanted.now table.new }
{
    for &word in wanted {
        let x = word as usize;
        if x < INDICES {
            table[x] = 1;
        }
    }
}

// The wanted words as a set, as far as there are bits for them, and whether there are others.
pub(crate) fn wanted_of(wanted: &[u32], bits: &mut [u64]) -> bool
    requires { NoneHeld bits.old }
    ensures { WantedOf wanted.now bits.new result }
{
    let mut others = false;
    for &word in wanted {
        if !index_set::add(bits, word) {
            others = true;
        }
    }
    others
}

// Whether x is one of the words: from the end, since of a rising list the words that have no bit are the last.
fn is_listed(wanted: &[u32], x: u32) -> bool
    ensures { result ≡ is_in x wanted.now }
{
    wanted.rchunks(16).any(|part| part.contains(&x))
}

// Whether the string index x is in the set: one look, or a walk over the words where x has no bit and some word has none either.
pub(crate) fn is_wanted(set: IndexSet<'_>, x: u32) -> bool
    ensures { result ≡ listed (index_set_of [] set.entry.bits.now set.entry.others set.entry.words.now) x }
{
    if ((x / 64) as usize) < set.bits.len() {
        return index_set::holds(set.bits, x);
    }
    if set.others {
        return is_listed(set.words, x);
    }
    false
}
