// The next hit from a start on, for strings and for the other kinds. Each fast path is a function of its own behind the definition's
// contract: starts that cannot be hits are skipped by a loop that tests one thing a start.
ghost use Rattle.std.specs.Prelude.{◌≡◌, [], false, ◌+◌, ◌≤◌, length};
ghost use Rattle.dalvik.specs.Instructions.Kind.{strings};
ghost use Rattle.kinds.specs.Kinds.{is_strings, meant};
ghost use Rattle.code_item_scan.specs.Scan.{sought};
ghost use Rattle.code_item_scan.specs.Next.{index_count, index_set_of, listed, Finds};
ghost use Rattle.code_item_scan.specs.Steps.{named, EvenHit, Skipped, SkippedEven, FindsEven};

use super::{Found, IndexSet, reads, wanted};
use kinds::Kind;

// A hit of a string index, of two bytes or of four.
fn string_hit(s: &[u8], end: usize, set: IndexSet<'_>, at: usize) -> Option<u32>
    requires { (at + 4 ≤ end) × (end ≤ length s.now) }
    ensures { let held = index_set_of [] set.entry.bits.now set.entry.others set.entry.words.now in
        result ≡ named s.now strings (listed held) end at }
{
    let w = kinds::string_width(s[at]);
    if w == 0 {
        return None;
    }
    if end - at < 2 + w {
        return None;
    }
    let x = if w == 4 {
        reads::u32_inside(s, at + 2)
    } else {
        reads::u16_inside(s, at + 2)
    };
    if wanted::is_wanted(set, x) {
        return Some(x);
    }
    None
}

// The next start from `start` on whose byte opens a string instruction, or the end.
fn skip(s: &[u8], end: usize, start: usize) -> usize
    requires { (start ≤ end) × (end ≤ length s.now) }
    ensures { Skipped s.now end start result }
{
    byte_search::memchr2(0x1a, 0x1b, s, start, end)
}

// The next string hit.
pub(crate) fn next_string(s: &[u8], end: usize, set: IndexSet<'_>, start: usize) -> Option<Found>
    requires { (start ≤ end) × (end ≤ length s.now) }
    ensures { let held = index_set_of [] set.entry.bits.now set.entry.others set.entry.words.now in
        Finds s.now (sought strings (listed held) start end) result }
{
    let mut at = skip(s, end, start);
    while 4 <= end - at {
        if let Some(mark) = string_hit(s, end, set, at) {
            return Some(Found {
                off: at,
                mark,
                next: at + 1,
            });
        }
        at = skip(s, end, at + 1);
    }
    None
}

// A hit of a kind whose indices have two bytes. The index is tested first: few are wanted.
fn even_hit(s: &[u8], kind: Kind, table: &[u8], at: usize) -> Option<u32>
    requires { (at + 4 ≤ length s.now) × (index_count ≤ length table.now) × (is_strings (meant kind) ≡ false) }
    ensures { EvenHit s.now (meant kind) table.now at result }
{
    let x = reads::u16_inside(s, at + 2);
    if table[x as usize] == 0 {
        return None;
    }
    if kinds::width(kind, s[at]) == 0 {
        return None;
    }
    Some(x)
}

// The next of every second start from `start` on at which a wanted index of two bytes stands, or one too near the end for an index.
fn skip_even(s: &[u8], end: usize, table: &[u8], start: usize) -> usize
    requires { (start ≤ end) × (end ≤ length s.now) × (index_count ≤ length table.now) }
    ensures { SkippedEven s.now end table.now start result }
{
    let mut at = start;
    while 4 <= end - at {
        let x = reads::u16_inside(s, at + 2);
        if table[x as usize] != 0 {
            return at;
        }
        at += 2;
    }
    at
}

// The next hit of a kind other than strings.
pub(crate) fn next_even(
    s: &[u8],
    end: usize,
    kind: Kind,
    table: &[u8],
    start: usize,
) -> Option<Found>
    requires { (start ≤ end) × (end ≤ length s.now) × (index_count ≤ length table.now) × (is_strings (meant kind) ≡ false) }
    ensures { FindsEven s.now (meant kind) table.now start end result }
{
    let mut at = skip_even(s, end, table, start);
    while 4 <= end - at {
        if let Some(mark) = even_hit(s, kind, table, at) {
            return Some(Found {
                off: at,
                mark,
                next: at + 2,
            });
        }
        at = skip_even(s, end, table, at + 2);
    }
    None
}
