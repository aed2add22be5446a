// The string map (`_build_map` of string_locator.rs): a key of data offset and index for each string, sorted, and the area of the
// file in which all their texts lie.
#![tactic(auto)]

ghost use Rattle.std.specs.Prelude.{◌≡◌, ◌+◌, ◌<◌, length};
ghost use Rattle.dalvik.specs.Ids.{string_data_off};
ghost use Rattle.sort_keys.specs.Sorted.{sorted};
ghost use Rattle.string_locator.specs.LengthBytes.{length_bytes};
ghost use Rattle.string_locator.specs.Map.{keys_of, least, greatest, says, text_area, strings_area, map_outcome, Built};
ghost use Rattle.string_locator.specs.Steps.{Inside};

use refusal::Refusal;
use tinydex::{DexHeader, Table};

// The text area, and how many keys there are.
#[derive(Clone, Copy)]
pub struct StringMap {
    pub start: usize,
    pub end: usize,
    pub count: usize,
}

// The least and the greatest data offset.
#[derive(Clone, Copy)]
struct Bounds {
    least: u32,
    greatest: u32,
}

// The data offset of string i.
fn data_offset(file: &[u8], table: usize, i: usize) -> u32
    requires { Inside file.now table (i + 1) }
    ensures { result ≡ string_data_off file.now table i }
{
    structs::u32_at(file, table + 4 * i)
}

// The bounds of the first n data offsets.
fn offset_bounds(file: &[u8], table: usize, n: usize) -> Bounds
    requires { (0 < n) × Inside file.now table n }
    ensures { (result.least ≡ least file.now table n) × (result.greatest ≡ greatest file.now table n) }
{
    let first = data_offset(file, table, 0);
    let (mut least, mut greatest) = (first, first);
    for i in 0..n {
        let offset = data_offset(file, table, i);
        least = least.min(offset);
        greatest = greatest.max(offset);
    }
    Bounds { least, greatest }
}

// The bytes up to and with the first below 128, however many.
fn length_bytes(file: &[u8], from: usize) -> Option<usize>
    ensures { result ≡ length_bytes file.now from }
{
    for at in from..file.len() {
        if file[at] < 128 {
            return Some(at + 1 - from);
        }
    }
    None
}

// The area, where the string with the greatest data offset has its final zero.
fn text_area(file: &[u8], lo: usize, hi: usize, count: usize) -> Result<StringMap, Refusal>
    ensures { says result ≡ text_area file.now lo hi count }
{
    let len = length_bytes(file, hi).ok_or(Refusal::StringOutside)?;
    let text = hi + len;
    let before = string_data::first_zero(file, text).ok_or(Refusal::StringOutside)?;
    Ok(StringMap {
        start: lo,
        end: text + before + 1,
        count,
    })
}

// The area of n strings, all of whose data begin inside the file.
fn strings_area(file: &[u8], table: usize, n: usize) -> Result<StringMap, Refusal>
    requires { (0 < n) × Inside file.now table n }
    ensures { says result ≡ strings_area file.now table n }
{
    let bounds = offset_bounds(file, table, n);
    let hi = bounds.greatest as usize;
    if file.len() <= hi {
        return Err(Refusal::StringOutside);
    }
    text_area(file, bounds.least as usize, hi, n)
}

// The answer: nothing is written before it is known.
fn answer(file: &[u8], strings: Table, lent: usize) -> Result<StringMap, Refusal>
    ensures { says result ≡ map_outcome file.now strings.off strings.size lent }
{
    if refusal::too_large(file.len()) {
        return Err(Refusal::FileTooLarge);
    }
    let n = strings.size as usize;
    if n == 0 {
        return Ok(StringMap {
            start: 0,
            end: 0,
            count: 0,
        });
    }
    if (file.len() as u64) < strings.end(4) {
        return Err(Refusal::TableOutside);
    }
    if lent < n {
        return Err(Refusal::LentTooShort);
    }
    strings_area(file, strings.off as usize, n)
}

// A key is the data offset times this, 2^32, plus the index.
const INDEX_SPAN: u64 = 4294967296;

// The keys of as many strings as there are words, sorted.
fn put_keys(file: &[u8], table: usize, keys: &mut [u64])
    requires { Inside file.now table (length keys.old) }
    ensures { keys.new ≡ sorted (keys_of file.now table (length keys.old)) }
{
    for i in 0..keys.len() {
        let offset = data_offset(file, table, i);
        keys[i] = (offset as u64) * INDEX_SPAN + (i as u64);
    }
    sort_keys::sort(keys);
}

// The map: the sorted keys in front of the lent words, zeros after them, and only zeros where it refuses.
pub fn build_map(file: &[u8], header: DexHeader, keys: &mut [u64]) -> Result<StringMap, Refusal>
    ensures { Built file.now header.strings.off header.strings.size result keys.old keys.new }
{
    words::clear(keys);
    let strings = header.strings;
    let map = answer(file, strings, keys.len())?;
    put_keys(file, strings.off as usize, &mut keys[..map.count]);
    Ok(map)
}
