// The lines of a request of the program `refs`, read out of a slice of bytes: a name, then numbers or a kind, then the line's end.
// Kept, point 1: the kind goes on as a number to `find`, which refuses 2 one that names none.
ghost use Rattle.std.specs.Prelude.{◌≡◌};
ghost use Rattle.request.specs.Lines.{ended, pair_line, number_line, kind_named, kind_at, kind_line};

use text_in::Number;
use tinydex::Table;

// The offset and the size of a table, and the place after their line.
#[derive(Clone, Copy)]
pub(crate) struct Pair {
    pub(crate) table: Table,
    pub(crate) next: usize,
}

// A number that was read, and its line's end after it.
#[tactic(auto, unfolding(crate::specs::Lines::ended))]
fn ended(text: &[u8], read: Number) -> Option<Number>
    ensures { result ≡ ended text.now read }
{
    let next = text_in::read_line_end(text, read.next)?;
    Some(Number {
        value: read.value,
        next: next,
    })
}

// A line of a name and a number.
#[tactic(auto, unfolding(crate::specs::Lines::number_line))]
pub(crate) fn number_line(text: &[u8], at: usize, name: &[u8]) -> Option<Number>
    ensures { result ≡ number_line name.now text.now at }
{
    let start = text_in::read_word(text, at, name)?;
    let number = text_in::read_number(text, start)?;
    ended(text, number)
}

// A line of a name, a number, a comma and a number.
#[tactic(auto, unfolding(crate::specs::Lines::pair_line))]
pub(crate) fn pair_line(text: &[u8], at: usize, name: &[u8]) -> Option<Pair>
    ensures { result ≡ pair_line name.now text.now at }
{
    let start = text_in::read_word(text, at, name)?;
    let off = text_in::read_number(text, start)?;
    let size = number_line(text, off.next, b",")?;
    Some(Pair {
        table: Table {
            off: off.value,
            size: size.value,
        },
        next: size.next,
    })
}

// A kind's number, where its name stands.
#[tactic(auto, unfolding(crate::specs::Lines::kind_named))]
fn kind_named(text: &[u8], at: usize, name: &[u8], kind: u32) -> Option<Number>
    ensures { result ≡ kind_named name.now kind text.now at }
{
    let next = text_in::read_word(text, at, name)?;
    Some(Number {
        value: kind,
        next: next,
    })
}

// A kind's number, by its name.
#[tactic(auto, unfolding(crate::specs::Lines::kind_at))]
fn read_kind(text: &[u8], at: usize) -> Option<Number>
    ensures { result ≡ kind_at text.now at }
{
    kind_named(text, at, b"string", 1)
        .or(kind_named(text, at, b"type", 2))
        .or(kind_named(text, at, b"field", 3))
        .or(kind_named(text, at, b"method", 4))
}

// The line of the kind.
#[tactic(auto, unfolding(crate::specs::Lines::kind_line))]
pub(crate) fn kind_line(text: &[u8], at: usize) -> Option<Number>
    ensures { result ≡ kind_line text.now at }
{
    let start = text_in::read_word(text, at, b"kind=")?;
    let kind = read_kind(text, start)?;
    ended(text, kind)
}
