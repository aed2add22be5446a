// Unsigned LEB128 numbers (leb128.rs), at most five bytes that together fit 32 bits: a number's value and length, and its length alone.
#![tactic(auto)]

ghost use Rattle.std.specs.Prelude.{◌≡◌, ◌<◌, length};
ghost use Rattle.structs.specs.Reads.{ByteAt};
ghost use Rattle.leb128.specs.Leb.{uleb_fast, uleb_len, Published, PublishedLen};

use refusal::Refusal;

// A number, and how many bytes it has.
#[derive(Clone, Copy)]
pub struct Uleb {
    pub value: u32,
    pub len: usize,
}

// A byte, as wide as the number.
fn byte_at(buf: &[u8], pos: usize) -> u32
    requires { pos < length buf.now }
    ensures { ByteAt buf.now pos result }
{
    buf[pos] as u32
}

// The number at a place: 7 bits a byte, low first, until a byte below 128; at most five bytes, and a fifth of at most 0x0f.
pub fn read_uleb128_fast(buf: &[u8], pos: usize) -> Result<Uleb, Refusal>
    ensures gives { result ≡ uleb_fast buf.now pos }
    ensures published { Published buf.now pos result }
{
    let n = buf.len();
    if n <= pos {
        return Err(Refusal::NumberOutside);
    }
    let b0 = byte_at(buf, pos);
    if b0 < 128 {
        return Ok(Uleb { value: b0, len: 1 });
    }
    let v0 = b0 - 128;
    let p1 = pos + 1;
    if n <= p1 {
        return Err(Refusal::NumberOutside);
    }
    let b1 = byte_at(buf, p1);
    if b1 < 128 {
        let v = v0 + b1 * 128;
        return Ok(Uleb { value: v, len: 2 });
    }
    let v1 = v0 + (b1 - 128) * 128;
    let p2 = p1 + 1;
    if n <= p2 {
        return Err(Refusal::NumberOutside);
    }
    let b2 = byte_at(buf, p2);
    if b2 < 128 {
        let v = v1 + b2 * 16384;
        return Ok(Uleb { value: v, len: 3 });
    }
    let v2 = v1 + (b2 - 128) * 16384;
    let p3 = p2 + 1;
    if n <= p3 {
        return Err(Refusal::NumberOutside);
    }
    let b3 = byte_at(buf, p3);
    if b3 < 128 {
        let v = v2 + b3 * 2097152;
        return Ok(Uleb { value: v, len: 4 });
    }
    let v3 = v2 + (b3 - 128) * 2097152;
    let p4 = p3 + 1;
    if n <= p4 {
        return Err(Refusal::NumberOutside);
    }
    let b4 = byte_at(buf, p4);
    if 15 < b4 {
        return Err(Refusal::NumberTooLong);
    }
    let v = v3 + b4 * 268435456;
    Ok(Uleb { value: v, len: 5 })
}

// How many bytes the number at a place has.
pub fn read_uleb128_len(buf: &[u8], pos: usize) -> Result<usize, Refusal>
    ensures gives { result ≡ uleb_len buf.now pos }
    ensures published { PublishedLen buf.now pos result }
{
    let number = read_uleb128_fast(buf, pos)?;
    Ok(number.len)
}
