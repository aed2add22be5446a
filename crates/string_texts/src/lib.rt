// The texts of a file's strings: where each begins, as sorted keys, and a place that no text reaches past. A string's fault is found
// without a look at its text, so that any number of strings on one text take time by their number alone.
#![tactic(auto)]

ghost use Rattle.std.specs.Prelude.{◌+◌};
ghost use Rattle.string_data.specs.Text.{string_text};
ghost use Rattle.string_texts.specs.Texts.{GivesTexts};
ghost use Rattle.string_texts.specs.Steps.{LastZero, Readable, Ids, Begins, Put, PutAll, Finished};

use refusal::Refusal;
use tinydex::Table;

// How many bytes there are up to and with the last zero; 0 where there is none.
fn last_zero(file: &[u8]) -> usize
    ensures { LastZero file.now result }
{
    for i in (0..file.len()).rev() {
        if file[i] == 0 {
            return i + 1;
        }
    }
    0
}

// Where the text of the string data at an offset begins: it has an end if it begins before the file's last zero.
fn text_begin(file: &[u8], zeros: usize, offset: usize) -> Result<usize, Refusal>
    requires { Readable file.now zeros }
    ensures { Begins (string_text file.now offset) result }
{
    let at = string_data::text_start(file, offset)?;
    if at < zeros {
        Ok(at)
    } else {
        Err(Refusal::StringOutside)
    }
}

// A key is the place where the text begins times this, 2^32, plus the index.
const INDEX_SPAN: u64 = 4294967296;

// The key of string i, or its fault.
fn put_key(
    file: &[u8],
    table: usize,
    zeros: usize,
    i: usize,
    keys: &mut [u64],
) -> Result<usize, Refusal>
    requires { Readable file.now zeros × Ids file.now table (i + 1) }
    ensures { Put file.now table i result keys.old keys.new }
{
    let at = text_begin(file, zeros, structs::u32_at(file, table + 4 * i) as usize)?;
    words::put(keys, i, (at as u64) * INDEX_SPAN + (i as u64));
    Ok(at)
}

// The keys of n strings, as far as the words go, and the greatest place where a text begins; or the fault of the least index.
fn put_keys(
    file: &[u8],
    table: usize,
    zeros: usize,
    n: usize,
    keys: &mut [u64],
) -> Result<usize, Refusal>
    requires { Readable file.now zeros × Ids file.now table n }
    ensures { PutAll file.now table n result keys.old keys.new }
{
    let mut last: usize = 0;
    for i in 0..n {
        let at = put_key(file, table, zeros, i, keys)?;
        last = last.max(at);
    }
    Ok(last)
}

// The keys sorted, if there were words for all of them.
// Kept: the words lent may be fewer than n, which is what is tested here.
fn finish(file: &[u8], last: usize, n: usize, keys: &mut [u64]) -> Result<usize, Refusal>
    ensures { Finished file.now last n result keys.old keys.new }
{
    if keys.len() < n {
        words::clear(keys);
        return Err(Refusal::LentTooShort);
    }
    sort_keys::sort(&mut keys[..n]);
    Ok(byte_search::memchr(0, file, last, file.len()))
}

// The keys in front of the lent words, sorted, and zeros after them; only zeros where it refuses.
pub fn text_keys(file: &[u8], strings: Table, keys: &mut [u64]) -> Result<usize, Refusal>
    ensures gives { GivesTexts file.now strings result keys.old keys.new }
{
    words::clear(keys);
    if refusal::too_large(file.len()) {
        return Err(Refusal::FileTooLarge);
    }
    let n = strings.size as usize;
    if n == 0 {
        return Ok(0);
    }
    if (file.len() as u64) < strings.end(4) {
        return Err(Refusal::TableOutside);
    }
    let put = put_keys(file, strings.off as usize, last_zero(file), n, keys);
    let Ok(last) = put else {
        words::clear(keys);
        return put;
    };
    finish(file, last, n, keys)
}
