// What stands at a place of a text, a slice of bytes: a decimal number, a word, the end of a line.
#![tactic(auto)]

ghost use Rattle.std.specs.Prelude.{◌≡◌};
ghost use Rattle.text_in.specs.Numbers.{leading, value_read, number_at};
ghost use Rattle.text_in.specs.Steps.{Digit};
ghost use Rattle.text_in.specs.Words.{word_at, line_end};

// A number and the place after it.
#[derive(Clone, Copy)]
pub struct Number {
    pub value: u32,
    pub next: usize,
}

// The greatest number that fits a word.
const LARGEST_WORD: u64 = 4294967295;

// How many digits a text begins with.
fn leading(text: &[u8]) -> usize
    ensures { result ≡ leading text.now }
{
    for (i, b) in text.iter().enumerate() {
        if !b.is_ascii_digit() {
            return i;
        }
    }
    text.len()
}

// What a digit stands for.
// Kept: `to_digit` takes a char and answers an Option, whose value would have to be taken out again.
fn digit(b: u8) -> u64
    ensures { Digit b result }
{
    if b'0' <= b { (b - b'0') as u64 } else { 0 }
}

// The value of digits.
fn value(digits: &[u8]) -> Option<u32>
    ensures { result ≡ value_read 0 digits.now }
{
    let mut v: u64 = 0;
    for b in digits {
        v = 10 * v + digit(*b);
        if LARGEST_WORD < v {
            return None;
        }
    }
    Some(v as u32)
}

// The number at a place: one digit or more, and at most 2^32 - 1.
pub fn read_number(text: &[u8], at: usize) -> Option<Number>
    ensures { result ≡ number_at text.now at }
{
    let rest = text.get(at..)?;
    let count = leading(rest);
    if count == 0 {
        return None;
    }
    let v = value(&rest[..count])?;
    Some(Number {
        value: v,
        next: at + count,
    })
}

// Whether a word stands at a place, and where it ends.
pub fn read_word(text: &[u8], at: usize, letters: &[u8]) -> Option<usize>
    ensures { result ≡ word_at letters.now text.now at }
{
    for (k, letter) in letters.iter().enumerate() {
        let b = text.get(at + k)?;
        if *b != *letter {
            return None;
        }
    }
    Some(at + letters.len())
}

// A line ends with a line feed, or with the text.
pub fn read_line_end(text: &[u8], at: usize) -> Option<usize>
    ensures { result ≡ line_end text.now at }
{
    if at == text.len() {
        return Some(at);
    }
    let b = text.get(at)?;
    (*b == b'\n').then_some(at + 1)
}
