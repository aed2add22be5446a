// Reads inside a region. The loops of a scan have tested its end once, so that nothing is tested here.
ghost use Rattle.std.specs.Prelude.{◌≡◌, ◌+◌, ◌<◌, ◌≤◌, length};
ghost use Rattle.dalvik.specs.Numbers.{le32};
ghost use Rattle.structs.specs.Reads.{ByteAt, HalfAt};

// A byte as a word.
fn byte_inside(s: &[u8], i: usize) -> u32
    requires { i < length s.now }
    ensures { ByteAt s.now i result }
{
    u32::from(s[i])
}

pub(crate) fn u16_inside(s: &[u8], i: usize) -> u32
    requires { i + 2 ≤ length s.now }
    ensures { HalfAt s.now i result }
{
    byte_inside(s, i) + 256 * byte_inside(s, i + 1)
}

pub(crate) fn u32_inside(s: &[u8], i: usize) -> u32
    requires { i + 4 ≤ length s.now }
    ensures { result ≡ le32 s.now i }
{
    u16_inside(s, i) + 65536 * u16_inside(s, i + 2)
}
