// String search (`_match_string_offset` of string_locator.rs): the indices of the strings in which the query's bytes are found. The
// text area is read once; the owner of each find is looked up among the sorted keys, and marked.
#![tactic(auto)]

mod keys; // keys.rt: which lent keys a search takes

ghost use Rattle.std.specs.Prelude.{◌≡◌, ◌+◌, ◌≤◌, ◌<◌, length};
ghost use Rattle.words.specs.Rising.{Rising};
ghost use Rattle.word_set.specs.Found.{Found, fault_number};
ghost use Rattle.word_set.specs.Steps.{Decides, Matched};
ghost use Rattle.index_set.specs.Marked.{set_words};
ghost use Rattle.index_set.specs.Steps.{Blank};
ghost use Rattle.byte_search.specs.Occurs.{Stands};
ghost use Rattle.string_search.specs.Search.{area, Owns, search_fault};
ghost use Rattle.string_search.specs.Owner.{owner};
ghost use Rattle.string_search.specs.Steps.{Searched, NextFind, Stepped, ReadyFor, OwnsAsked};

use refusal::Refusal;

// The string in which a find begins: the entry of a key, by its index, or none.
// Kept: an enum of its own, taken apart by `let .. else` (docs/DECISIONS.md, Forms that the request names).
#[derive(Clone, Copy)]
pub enum Owner {
    Entry(u32),
    Absent,
}

// Whether the query's bytes stand at a place of the file.
fn stands_at(file: &[u8], at: usize, query: &[u8]) -> bool
    requires { at + length query.now ≤ length file.now }
    ensures { Decides (Stands file.now query.now at) result }
{
    &file[at..at + query.len()] == query
}

// The first occurrence at or after `from`, whole before `end`. It is looked for where the query's first and last byte stand.
fn next_find(file: &[u8], from: usize, end: usize, query: &[u8]) -> Option<usize>
    requires { Searched file.now query.now end from × (0 < length query.now) }
    ensures { NextFind file.now query.now end from result }
{
    let last = query.len() - 1;
    let a = query[0];
    let b = query[last];
    let mut at = byte_search::pair(a, b, last, file, from, end);
    while at + last < end {
        if stands_at(file, at, query) {
            return Some(at);
        }
        at = byte_search::pair(a, b, last, file, at + 1, end);
    }
    None
}

// The last key whose offset is not past the find.
fn owner_of(keys: &[u64], at: usize) -> Owner
    requires { Rising keys.now × (at < 16777217) }
    ensures { result ≡ owner keys.now at }
{
    let n = word_set::place(keys, (at as u64 + 1) * keys::INDEX_SPAN);
    if n == 0 {
        return Owner::Absent;
    }
    Owner::Entry((keys[n - 1] % keys::INDEX_SPAN) as u32)
}

// One find: the matcher goes on only with an entry, whose index joins the set.
fn match_step(
    keys: &[u64],
    at: usize,
    marks: &mut [u64],
    out: &mut [u32],
    n: usize,
) -> Option<usize>
    requires { Rising keys.now × (at < 16777217) }
    ensures { let before = set_words marks.old out.old in
        let after = set_words marks.new out.new in
        Stepped (owner keys.now at) n before after result }
{
    let Owner::Entry(index) = owner_of(keys, at) else {
        return Some(n);
    };
    index_set::marked::add(marks, out, n, index)
}

// What is asked: the owners, by the keys, of the finds of the query in a file from `start` on and before `end`.
#[derive(Clone, Copy)]
struct Asked<'a> {
    file: &'a [u8],
    keys: &'a [u64],
    start: usize,
    end: usize,
    query: &'a [u8],
}

// The owners of all finds from `start` on. They come in the order of their data, and not of their indices, so they are marked first.
fn match_marked(asked: &Asked, marks: &mut [u64], out: &mut [u32]) -> Option<usize>
    requires { ReadyFor asked.now out.old × Blank marks.old }
    ensures { Matched (OwnsAsked asked.now) out.old out.new result }
{
    // Taken apart once: read through `asked` at each find, a search with many finds took a sixth longer.
    let Asked {
        file,
        keys,
        start,
        end,
        query,
    } = *asked;
    let mut from = start;
    let mut n = 0;
    while let Some(at) = next_find(file, from, end, query) {
        from = at + query.len();
        n = match_step(keys, at, marks, out, n)?;
    }
    index_set::gather(marks, out, n)
}

// With N words of marks, each for the indices of 64 strings.
fn match_with<const N: usize>(asked: &Asked, out: &mut [u32]) -> Option<usize>
    requires ready { ReadyFor asked.now out.old }
    requires few { N ≤ 67108864 }
    ensures { Matched (OwnsAsked asked.now) out.old out.new result }
{
    let mut marks = [0u64; N];
    match_marked(asked, &mut marks, out)
}

// How many words of marks few strings take.
const FEW: usize = 512;

// .. and all that a file can have.
const ALL: usize = 65536;

// Which marks are taken changes the time and not the owners: of n strings' keys the indices are below n.
fn match_string_offset(asked: &Asked, out: &mut [u32]) -> Option<usize>
    requires { ReadyFor asked.now out.old }
    ensures { Matched (OwnsAsked asked.now) out.old out.new result }
{
    if asked.keys.len() <= 64 * FEW {
        match_with::<FEW>(asked, out)
    } else {
        match_with::<ALL>(asked, out)
    }
}

// The faults that the searches share, in order, for a query of `bytes` bytes, of which the operation asks `shortest` at least.
pub fn search_fault(file: &[u8], shortest: usize, bytes: usize, keys: &[u64]) -> Result<(), Refusal>
    ensures { fault_number result ≡ search_fault (length file.now) shortest bytes keys.now }
{
    if refusal::too_large(file.len()) {
        return Err(Refusal::FileTooLarge);
    }
    if bytes < shortest || 255 < bytes {
        return Err(Refusal::BadQuery);
    }
    if !keys::keys_good(keys) {
        return Err(Refusal::LentTable);
    }
    Ok(())
}

// The indices of the strings that own a find of the query in the area from start up to end. An area backward or past the file's end
// has none.
pub fn locate(
    file: &[u8],
    keys: &[u64],
    start: usize,
    end: usize,
    query: &[u8],
    out: &mut [u32],
) -> Result<usize, Refusal>
    ensures gives { let searched = area file.now keys.now start end in
        let fault = search_fault (length file.now) 1 (length query.now) keys.now in
        Found (Owns searched query.now) fault result out.old out.new }
{
    words::clear(out);
    search_fault(file, 1, query.len(), keys)?;
    if end < start || file.len() < end {
        return Ok(0);
    }
    let asked = Asked {
        file,
        keys,
        start,
        end,
        query,
    };
    let Some(n) = match_string_offset(&asked, out) else {
        words::fill(out, 0);
        return Err(Refusal::LentTooShort);
    };
    Ok(n)
}
