// Text written into a lent slice of bytes, piece by piece: bytes and decimal numbers, each at a place, and at last a line feed. Text that
// doesn't fit is refused with 4, and then every lent byte is zero.
#![tactic(auto)]

ghost use Rattle.std.specs.Prelude.{[], ◌∷◌, ◌++◌};
ghost use Rattle.text_out.specs.Text.{decimal};
ghost use Rattle.text_out.specs.Write.{Writes, end_at, Ends};

use refusal::Refusal;

// A byte at a place, and the place after it. Past the end nothing is written, and the place is one after the end.
fn put_byte(out: &mut [u8], at: usize, b: u8) -> usize
    ensures { Writes out.old at (b ∷ []) out.new result }
{
    if at < out.len() {
        out[at] = b;
        return at + 1;
    }
    out.len() + 1
}

// Bytes at a place, and the place after them.
pub fn put(out: &mut [u8], at: usize, bytes: &[u8]) -> usize
    ensures { Writes out.old at bytes.now out.new result }
{
    let mut p = at;
    for b in bytes {
        p = put_byte(out, p, *b);
    }
    p
}

// A number's digits, without leading zeros.
pub fn put_number(out: &mut [u8], at: usize, n: u64) -> usize
    ensures { Writes out.old at (decimal n) out.new result }
{
    let mut text = [0u8; 20];
    let k = io::decimal(n, &mut text);
    put(out, at, &text[..k])
}

// A name, and a number after it.
pub fn put_named(out: &mut [u8], at: usize, name: &[u8], n: u64) -> usize
    ensures { Writes out.old at (name.now ++ decimal n) out.new result }
{
    let a = put(out, at, name);
    put_number(out, a, n)
}

// A line feed at the text's end, and the answer: refused where that lies past the lent bytes.
pub fn end_line(out: &mut [u8], at: usize) -> Result<usize, Refusal>
    ensures { Ends (end_at out.old at) result out.new }
{
    let end = put(out, at, b"\n");
    if out.len() < end {
        words::clear(out);
        return Err(Refusal::LentTooShort);
    }
    Ok(end)
}
