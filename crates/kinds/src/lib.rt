// What an opcode names for each of the four kinds (SPEC, Scan): the width of the index that stands after it (code_item_scan.rs).
#![tactic(auto)]

ghost use Rattle.std.specs.Prelude.{◌≡◌};
ghost use Rattle.dalvik.specs.Instructions.Kind.{strings, types, fields, methods};
ghost use Rattle.kinds.specs.Kinds.{kind_of, is_strings, meant, kind_read};
ghost use Rattle.kinds.specs.Width.{width_of};

// What the index names: the kinds 1 to 4 (SPEC, Conventions).
#[derive(Clone, Copy, PartialEq, Eq)]
pub enum Kind {
    Strings,
    Types,
    Fields,
    Methods,
}

// The kind of a number.
// Kept: a `TryFrom<u32>` would want an error type, which its one caller drops for a refusal.
#[tactic(auto, unfolding(crate::specs::Kinds::kind_of))]
pub fn kind_of(k: u32) -> Option<Kind>
    ensures { kind_read result ≡ kind_of k }
{
    match k {
        1 => Some(Kind::Strings),
        2 => Some(Kind::Types),
        3 => Some(Kind::Fields),
        4 => Some(Kind::Methods),
        _ => None,
    }
}

pub fn is_strings(kind: Kind) -> bool
    ensures { result ≡ is_strings (meant kind) }
{
    kind == Kind::Strings
}

// The width in bytes of the index that an opcode of the kind names; 0 for another opcode.
#[tactic(auto, unfolding(crate::specs::Width::width_of))]
pub fn string_width(op: u8) -> usize
    ensures { result ≡ width_of strings op }
{
    match op {
        0x1a => 2,
        0x1b => 4,
        _ => 0,
    }
}

#[tactic(auto, unfolding(crate::specs::Width::width_of))]
fn type_width(op: u8) -> usize
    ensures { result ≡ width_of types op }
{
    match op {
        0x1c | 0x1f | 0x20 | 0x22..=0x25 => 2,
        _ => 0,
    }
}

#[tactic(auto, unfolding(crate::specs::Width::width_of))]
fn field_width(op: u8) -> usize
    ensures { result ≡ width_of fields op }
{
    match op {
        0x52..=0x6d => 2,
        _ => 0,
    }
}

#[tactic(auto, unfolding(crate::specs::Width::width_of))]
fn method_width(op: u8) -> usize
    ensures { result ≡ width_of methods op }
{
    match op {
        0x6e..=0x72 | 0x74..=0x78 | 0xfa | 0xfb => 2,
        _ => 0,
    }
}

pub fn width(kind: Kind, op: u8) -> usize
    ensures { result ≡ width_of (meant kind) op }
{
    match kind {
        Kind::Strings => string_width(op),
        Kind::Types => type_width(op),
        Kind::Fields => field_width(op),
        Kind::Methods => method_width(op),
    }
}
