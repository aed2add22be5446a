// Reads the table of lengths. An array that is read at a place which only the call knows is written to the stack, all of it, in every call.
// Here each entry is read at a place known beforehand, so that the compiled code holds sixteen constant words of sixteen entries each.
ghost use Rattle.std.specs.Prelude.{◌≡◌, ◌+◌, ◌*◌, ◌≤◌, ◌<◌};
ghost use Rattle.opcodes.specs.Length.{units_of};
ghost use Rattle.opcodes.specs.Steps.{HoldsLengths, packed};

// The entry of an opcode.
pub(crate) fn entry(lengths: &[u8], op: u8) -> usize
    requires { HoldsLengths lengths.now }
    ensures { result ≡ units_of op }
{
    ((line(lengths, op / 16) >> ((4 * (op % 16)) as u64)) % 16) as usize
}

// The entries of the sixteen opcodes with these upper four bits, as one word.
fn line(lengths: &[u8], upper: u8) -> u64
    requires { HoldsLengths lengths.now × upper < 16 }
    ensures { result ≡ packed (16 * upper) 16 }
{
    match upper {
        0x0 => sixteen(lengths, 0x00),
        0x1 => sixteen(lengths, 0x10),
        0x2 => sixteen(lengths, 0x20),
        0x3 => sixteen(lengths, 0x30),
        0x4 => sixteen(lengths, 0x40),
        0x5 => sixteen(lengths, 0x50),
        0x6 => sixteen(lengths, 0x60),
        0x7 => sixteen(lengths, 0x70),
        0x8 => sixteen(lengths, 0x80),
        0x9 => sixteen(lengths, 0x90),
        0xa => sixteen(lengths, 0xa0),
        0xb => sixteen(lengths, 0xb0),
        0xc => sixteen(lengths, 0xc0),
        0xd => sixteen(lengths, 0xd0),
        0xe => sixteen(lengths, 0xe0),
        _ => sixteen(lengths, 0xf0),
    }
}

// Sixteen entries as one word, four bits each, the first one lowest.
fn sixteen(lengths: &[u8], from: usize) -> u64
    requires { HoldsLengths lengths.now × from + 16 ≤ 256 }
    ensures { result ≡ packed from 16 }
{
    let mut word: u64 = 0;
    for i in (0..16).rev() {
        word = 16 * word + (lengths[from + i] as u64);
    }
    word
}
