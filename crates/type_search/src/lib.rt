// Type search (`TypeLocator::locate` of type_locator.rs): the types that are named by a string in which the query is found.
// Kept, point 5: the slices of a call are parameters of their own, as C lends them and README lists them.
#![tactic(auto)]

ghost use Rattle.std.specs.Prelude.{◌≤◌};
ghost use Rattle.word_set.specs.Steps.{Matched};
ghost use Rattle.index_set.specs.Steps.{Blank};
ghost use Rattle.type_search.specs.Steps.{TypesOf, Ready};
ghost use Rattle.groups.specs.Built.{group_words};
ghost use Rattle.string_search.specs.Search.{area};
ghost use Rattle.type_search.specs.Types.{type_words, Searched};

use refusal::Refusal;

// The types of all strings found. They come string by string, and not in the order of their indices, so they are marked first.
fn collect_marked(
    str_offsets: &[u32],
    type_idxs: &[u32],
    found: &[u32],
    marks: &mut [u64],
    out: &mut [u32],
) -> Option<usize>
    requires { Ready out.old × Blank marks.old }
    ensures { let table = group_words str_offsets.now type_idxs.now in
        Matched (TypesOf table found.now) out.old out.new result }
{
    let mut n = 0;
    for string in found {
        let types = groups::slice::slice(str_offsets, type_idxs, *string);
        n = index_set::marked::extend(marks, out, n, types)?;
    }
    index_set::gather(marks, out, n)
}

// With N words of marks, each for 64 types.
fn collect_with<const N: usize>(
    str_offsets: &[u32],
    type_idxs: &[u32],
    found: &[u32],
    out: &mut [u32],
) -> Option<usize>
    requires ready { Ready out.old }
    requires few { N ≤ 67108864 }
    ensures { let table = group_words str_offsets.now type_idxs.now in
        Matched (TypesOf table found.now) out.old out.new result }
{
    let mut marks = [0u64; N];
    collect_marked(str_offsets, type_idxs, found, &mut marks, out)
}

// How many words of marks the types take that an instruction can name.
const FEW: usize = 1024;

// .. and all that a file can have.
const ALL: usize = 65536;

// The greatest word, 0 of none.
fn greatest(words: &[u32]) -> u32 {
    words.iter().fold(0, |most: u32, word| most.max(*word))
}

// Which marks are taken changes the time and not the types.
fn collect(str_offsets: &[u32], type_idxs: &[u32], found: &[u32], out: &mut [u32]) -> Option<usize>
    requires { Ready out.old }
    ensures { let table = group_words str_offsets.now type_idxs.now in
        Matched (TypesOf table found.now) out.old out.new result }
{
    if (greatest(type_idxs) as usize) < 64 * FEW {
        collect_with::<FEW>(str_offsets, type_idxs, found, out)
    } else {
        collect_with::<ALL>(str_offsets, type_idxs, found, out)
    }
}

// The types whose string owns a find of the query. `strings` is lent for the strings found, and is zero afterwards. The empty query
// finds nothing.
pub fn locate(
    file: &[u8],
    keys: &[u64],
    start: usize,
    end: usize,
    query: &[u8],
    str_offsets: &[u32],
    type_idxs: &[u32],
    strings: &mut [u32],
    out: &mut [u32],
) -> Result<usize, Refusal>
    ensures gives { let searched = area file.now keys.now start end in
        let table = group_words str_offsets.now type_idxs.now in
        let before = type_words strings.old out.old in
        let after = type_words strings.new out.new in
        Searched searched query.now table result before after }
{
    words::clear(strings);
    words::clear(out);
    string_search::search_fault(file, 0, query.len(), keys)?;
    if query.is_empty() {
        return Ok(0);
    }
    let Ok(n) = string_search::locate(file, keys, start, end, query, strings) else {
        return Err(Refusal::LentTooShort);
    };
    let found = collect(str_offsets, type_idxs, &strings[..n], out);
    words::fill(strings, 0);
    let Some(m) = found else {
        words::clear(out);
        return Err(Refusal::LentTooShort);
    };
    Ok(m)
}
