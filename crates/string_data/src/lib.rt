// The bytes of one string (`string_data_bytes` of string_locator.rs): an answer that says where they stand or why they are
// refused, and beside it the stretch of the file itself.
#![tactic(auto)]

ghost use Rattle.std.specs.Prelude.{◌≡◌};
ghost use Rattle.string_data.specs.Text.{first_zero, says, text_from, text_at, after_length, string_text, stretch_of};

use refusal::Refusal;

// Where the text of a string starts and how many bytes it has.
#[derive(Clone, Copy)]
pub struct Text {
    pub start: usize,
    pub len: usize,
}

// The first zero byte at or after a place.
pub fn first_zero(file: &[u8], from: usize) -> Option<usize>
    ensures { result ≡ first_zero file.now from }
{
    let at = byte_search::memchr(0, file, from, file.len());
    if at < file.len() {
        Some(at - from)
    } else {
        None
    }
}

// Where the text of the string data at an offset starts: after at most five length bytes.
pub fn text_start(file: &[u8], offset: usize) -> Result<usize, Refusal>
    ensures { text_at file.now result ≡ after_length 5 file.now offset }
{
    for i in 0..5 {
        let at = offset + i;
        let b = *file.get(at).ok_or(Refusal::NumberOutside)?;
        if i == 4 && 15 < b {
            return Err(Refusal::LengthOverflow);
        }
        if b < 128 {
            return Ok(at + 1);
        }
    }
    Err(Refusal::LengthOverflow)
}

// The text that starts at a place.
fn text_from(file: &[u8], start: usize) -> Result<Text, Refusal>
    ensures { says result ≡ text_from file.now start }
{
    let len = first_zero(file, start).ok_or(Refusal::StringOutside)?;
    Ok(Text { start, len })
}

// Where the text of the string data at an offset stands, or why it is refused: from its start up to the first zero byte.
pub fn string_data(file: &[u8], offset: usize) -> Result<Text, Refusal>
    ensures { says result ≡ string_text file.now offset }
{
    if refusal::too_large(file.len()) {
        return Err(Refusal::FileTooLarge);
    }
    text_from(file, text_start(file, offset)?)
}

// The text itself: that very stretch of the file, and the empty one where `string_data` refuses.
pub fn string_data_bytes(file: &[u8], offset: usize) -> &[u8]
    ensures { result.now ≡ stretch_of file.now (string_text file.now offset) }
{
    let Ok(Text { start, len }) = string_data(file, offset) else {
        return &file[..0];
    };
    let end = start + len;
    &file[start..end]
}
