// Reads of 1, 2 and 4 bytes, little endian (structs.rs). Nothing is asked of the caller. Each comes in two forms: the number with zeros
// past the file's end, and an answer that has a case of its own for bytes that are not inside the file.
#![tactic(auto)]

ghost use Rattle.std.specs.Prelude.{◌≡◌, ◌<◌};
ghost use Rattle.dalvik.specs.Numbers.{le32};
ghost use Rattle.structs.specs.Reads.{ByteAt, HalfAt, read16, read32};

// The byte at a place, 0 past the end.
pub fn byte_at(s: &[u8], at: usize) -> u32
    ensures { ByteAt s.now at result }
{
    if at < s.len() { s[at] as u32 } else { 0 }
}

// The number of 2 bytes at a place, zeros past the end.
#[tactic(auto, unfolding(dalvik::specs::Numbers::le16))]
pub fn u16_at(s: &[u8], at: usize) -> u32
    ensures { HalfAt s.now at result }
{
    if s.len() <= at {
        return 0;
    }
    byte_at(s, at) + 256 * byte_at(s, at + 1)
}

// The number of 4 bytes at a place, zeros past the end, a byte at a time.
#[tactic(auto, unfolding(dalvik::specs::Numbers::le32, dalvik::specs::Numbers::le16))]
fn u32_bytewise(s: &[u8], at: usize) -> u32
    ensures { result ≡ le32 s.now at }
{
    let low = u16_at(s, at);
    let n = s.len();
    if n < 2 {
        return low;
    }
    if n - 2 <= at {
        return low;
    }
    low + 65536 * u16_at(s, at + 2)
}

// The number of 2 bytes at a place.
#[tactic(auto, unfolding(crate::specs::Reads::read16))]
pub fn read_u16(s: &[u8], at: usize) -> Option<u16>
    ensures { result ≡ read16 s.now at }
{
    let n = s.len();
    if n < 2 {
        return None;
    }
    if n - 2 < at {
        return None;
    }
    Some(u16_at(s, at) as u16)
}

// The number of 4 bytes at a place.
#[tactic(auto, unfolding(crate::specs::Reads::read32))]
pub fn read_u32(s: &[u8], at: usize) -> Option<u32>
    ensures { result ≡ read32 s.now at }
{
    let n = s.len();
    if n < 4 {
        return None;
    }
    if n - 4 < at {
        return None;
    }
    Some(u32_bytewise(s, at))
}

// The number of 4 bytes at a place, zeros past the end. Where all of them are inside, one test tells.
#[tactic(auto, unfolding(crate::specs::Reads::read32))]
pub fn u32_at(s: &[u8], at: usize) -> u32
    ensures { result ≡ le32 s.now at }
{
    match read_u32(s, at) {
        Some(v) => v,
        None => u32_bytewise(s, at),
    }
}
