// The name filter (`locate_name_indices` of string_locator.rs): of the given string indices those whose text contains the query,
// ASCII case ignored. The header's own count and table of strings are used. Each string is looked at once: two sets remember which
// were seen and which of them have the name, with as many bits as the file's count of strings asks for.
#![tactic(auto)]

mod matches_name; // matches_name.rt: one text and a query
mod refusals; // refusals.rt: what is refused, of a call and of one text

ghost use Rattle.std.specs.Prelude.{◌≡◌, ◌+◌, ◌*◌, ◌≤◌};
ghost use Rattle.dalvik.specs.Numbers.{le32};
ghost use Rattle.dalvik.specs.Ids.{string_data_off as data_off};
ghost use Rattle.word_set.specs.Found.{Found};
ghost use Rattle.name_filter.specs.Faults.{filter_fault};
ghost use Rattle.name_filter.specs.Names.{Named};
ghost use Rattle.name_filter.specs.Steps.{names_of, Noted, Room, Looking, Looked, Unmarked, AllLooked, Begun};
ghost use Rattle.name_filter.specs.Steps.{most, Counted, SiftedOf, Refuses};

use refusal::Refusal;

// What is asked: which of the given strings have the query in their text. The file has `count` strings, whose ids stand at `table`.
#[derive(Clone, Copy)]
struct Asked<'a> {
    file: &'a [u8],
    count: u32,
    table: u32,
    query: &'a [u8],
    given: &'a [u32],
}

// The data offset of a string.
fn data_offset(file: &[u8], table: u32, index: u32) -> usize
    ensures { result ≡ data_off file.now table index }
{
    structs::u32_at(file, (table as usize) + 4 * (index as usize)) as usize
}

// A string is seen, and has the name or not.
// Kept: `named` is what is noted, and chooses no step but whether a bit is set.
fn note(seen: &mut [u64], has: &mut [u64], index: u32, named: bool)
    requires { Room (index + 1) seen.old has.old }
    ensures { Noted index named seen.old has.old seen.new has.new }
{
    index_set::add(seen, index);
    if named {
        index_set::add(has, index);
    }
}

// One given index: its string is looked at if it is not seen yet.
fn mark_one(asked: &Asked, index: u32, seen: &mut [u64], has: &mut [u64]) -> Result<(), Refusal>
    requires { Looking (names_of asked.now) index seen.old has.old }
    ensures { Looked (names_of asked.now) index seen.old seen.new has.new result }
{
    if index_set::holds(seen, index) {
        return Ok(());
    }
    let offset = data_offset(asked.file, asked.table, index);
    let named = refusals::judge(asked.file, offset, asked.query)?;
    note(seen, has, index, named);
    Ok(())
}

// All given indices, up to the first fault.
fn mark(asked: &Asked, seen: &mut [u64], has: &mut [u64]) -> Result<(), Refusal>
    requires { Unmarked asked.now.count seen.old has.old }
    ensures { AllLooked (names_of asked.now) asked.now.count asked.now.given.now seen.new has.new result }
{
    for index in asked.given {
        if asked.count <= *index {
            return Err(Refusal::StringIndex);
        }
        mark_one(asked, *index, seen, has)?;
    }
    Ok(())
}

// The named strings are read off the set in order.
fn sift(asked: &Asked, seen: &mut [u64], has: &mut [u64], out: &mut [u32]) -> Result<usize, Refusal>
    requires { Begun asked.now.count seen.old has.old out.old }
    ensures { SiftedOf (names_of asked.now) asked.now.count asked.now.given.now out.old out.new result }
{
    mark(asked, seen, has)?;
    index_set::gather(has, out, 0).ok_or(Refusal::LentTooShort)
}

// With sets of N words each, for 64 N strings at most.
fn sift_with<const N: usize>(asked: &Asked, out: &mut [u32]) -> Result<usize, Refusal>
    requires counted { Counted (64 * N) asked.now.count out.old }
    requires few { N ≤ 67108864 }
    ensures { SiftedOf (names_of asked.now) asked.now.count asked.now.given.now out.old out.new result }
{
    let mut seen = [0u64; N];
    let mut has = [0u64; N];
    sift(asked, &mut seen, &mut has, out)
}

// How many words the sets have for few strings.
const FEW: usize = 64;

// .. for more.
const SOME: usize = 2048;

// .. and for as many as a file within the limit can have.
const MOST: usize = 65536;

// Sets as large as the count asks for.
fn sift_all(asked: &Asked, out: &mut [u32]) -> Result<usize, Refusal>
    requires { Counted most asked.now.count out.old }
    ensures { SiftedOf (names_of asked.now) asked.now.count asked.now.given.now out.old out.new result }
{
    let count = asked.count as usize;
    if count <= 64 * FEW {
        sift_with::<FEW>(asked, out)
    } else if count <= 64 * SOME {
        sift_with::<SOME>(asked, out)
    } else {
        sift_with::<MOST>(asked, out)
    }
}

// A refusal leaves zeros.
fn refuse(lent: &mut [u32], why: Refusal) -> Result<usize, Refusal>
    ensures { Refuses why lent.old lent.new result }
{
    words::clear(lent);
    Err(why)
}

// The given indices whose string contains the query, rising and without repeats.
pub fn locate_name_indices(
    file: &[u8],
    given: &[u32],
    query: &[u8],
    out: &mut [u32],
) -> Result<usize, Refusal>
    ensures gives { let named = Named file.now (le32 file.now 0x3c) query.now given.now in
        let fault = filter_fault file.now query.now given.now in
        Found named fault result out.old out.new }
{
    if let Err(why) = refusals::head_fault(file, query) {
        return refuse(out, why);
    }
    words::clear(out);
    let asked = Asked {
        file,
        count: structs::u32_at(file, 0x38),
        table: structs::u32_at(file, 0x3c),
        query,
        given,
    };
    match sift_all(&asked, out) {
        Ok(n) => Ok(n),
        Err(why) => refuse(out, why),
    }
}
