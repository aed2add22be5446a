// The walk over instructions and payloads (`insn_verify` of insn_locator.rs, which knows no payloads), and its step.
#![tactic(auto)]

ghost use Rattle.std.specs.Prelude.{◌≡◌, ◌<◌, length};
ghost use Rattle.insn_walk.specs.Walk.{step};
ghost use Rattle.insn_walk.specs.Answer.{Walks};
ghost use Rattle.insn_walk.specs.Steps.{AtZero, PayloadAt};

// Whether a walk lands on its target, how many steps it took, and where it stands: the last place of it that is not past the target.
// Kept: no Option, since steps and place are told whether it lands or not.
#[derive(Clone, Copy)]
pub struct Walked {
    pub lands: bool,
    pub steps: usize,
    pub at: usize,
}

// The offset after a payload of this length, where all of it is inside.
fn past_payload(buf: &[u8], at: usize, units: usize) -> Option<usize>
    requires { PayloadAt buf.now at units }
    ensures { result ≡ step buf.now at }
{
    let next = at + 2 * units;
    if buf.len() < next {
        return None;
    }
    Some(next)
}

// The offset after what begins with the byte 0: a payload, by the byte after it, or else nop. Bytes past the end read as zeros: a length covers the
// payload's header, so that one which is cut off passes the end all the same.
fn past_zero(buf: &[u8], at: usize) -> Option<usize>
    requires { AtZero buf.now at }
    ensures { result ≡ step buf.now at }
{
    let ident = structs::byte_at(buf, at + 1);
    if ident == 1 {
        let size = structs::u16_at(buf, at + 2) as usize;
        return past_payload(buf, at, size * 2 + 4);
    }
    if ident == 2 {
        let size = structs::u16_at(buf, at + 2) as usize;
        return past_payload(buf, at, size * 4 + 2);
    }
    if ident == 3 {
        let size = structs::read_u32(buf, at + 4)?;
        let width = structs::u16_at(buf, at + 2) as usize;
        return past_payload(buf, at, ((size as usize) * width + 1) / 2 + 4);
    }
    Some(at + 2)
}

// The offset after the payload or instruction at a place in the file.
fn step(buf: &[u8], at: usize) -> Option<usize>
    requires { at < length buf.now }
    ensures { result ≡ step buf.now at }
{
    let op = buf[at];
    if op == 0 {
        return past_zero(buf, at);
    }
    let n = opcodes::oplen(op)?;
    Some(at + 2 * n)
}

// The walk from start to end. One bound, target or file's end, is all that a turn tests besides the opcode.
pub fn walk(buf: &[u8], start: u32, end: u32) -> Walked
    ensures { Walks buf.now start end result }
{
    let to = end as usize;
    let bound = to.min(buf.len());
    let mut at = start as usize;
    let mut pos = start as usize;
    let mut steps: usize = 0;
    while pos < bound {
        let Some(next) = step(buf, pos) else {
            return Walked {
                lands: false,
                steps: steps + 1,
                at: pos,
            };
        };
        at = pos;
        pos = next;
        steps += 1;
    }
    if pos < to {
        return Walked {
            lands: false,
            steps: steps + 1, // outside the file
            at: pos,
        };
    }
    if pos == to {
        return Walked {
            lands: true,
            steps,
            at: pos,
        };
    }
    Walked {
        lands: false,
        steps,
        at,
    }
}
