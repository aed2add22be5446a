// What speaks against a call of the name filter (`locate_name_indices` of string_locator.rs) before any given index is looked at: the
// file, its header, the query. And one text of the file: its fault, or whether it contains the query.
ghost use Rattle.std.specs.Prelude.{◌≡◌, ◌+◌, ◌<◌, length};
ghost use Rattle.string_data.specs.Text.{string_text, found};
ghost use Rattle.word_set.specs.Found.{fault_number};
ghost use Rattle.name_filter.specs.Steps.{Judged};
ghost use Rattle.name_filter.specs.Faults.{head_fault};

use super::matches_name;
use refusal::Refusal;

// The empty query stands in any text; another is looked for in an ASCII text only.
// Kept: where the text stands in the file is what `Judged` speaks of.
fn judge_text(file: &[u8], start: usize, len: usize, query: &[u8]) -> Result<bool, Refusal>
    requires { start + len < length file.now }
    ensures { Judged file.now query.now (found start len) result }
{
    if query.len() < 1 {
        return Ok(true);
    }
    let text = &file[start..start + len];
    if !matches_name::is_ascii(text) {
        return Err(Refusal::NotAscii);
    }
    Ok(matches_name::matches_name(text, query))
}

// The string data at an offset.
pub(crate) fn judge(file: &[u8], offset: usize, query: &[u8]) -> Result<bool, Refusal>
    ensures { Judged file.now query.now (string_text file.now offset) result }
{
    let text = string_data::string_data(file, offset)?;
    judge_text(file, text.start, text.len, query)
}

// The first fault of the file, its header and the query.
pub(crate) fn head_fault(file: &[u8], query: &[u8]) -> Result<(), Refusal>
    ensures { fault_number result ≡ head_fault file.now query.now }
{
    let len = file.len();
    if refusal::too_large(len) {
        return Err(Refusal::FileTooLarge);
    }
    if len < 0x70 {
        return Err(Refusal::TableOutside);
    }
    if len < (structs::u32_at(file, 0x3c) as usize) + 4 * (structs::u32_at(file, 0x38) as usize) {
        return Err(Refusal::TableOutside);
    }
    if 255 < query.len() || !matches_name::is_ascii(query) {
        return Err(Refusal::BadQuery);
    }
    Ok(())
}
