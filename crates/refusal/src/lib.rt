// The refusals (SPEC, Conventions), the answer that most operations give, and the largest file that is read.
#![tactic(auto)]

ghost use Rattle.std.specs.Prelude.{◌≡◌};
ghost use Rattle.refusal.specs.Refusals.{refusal_number, is_too_large};

// Why an operation refused. SPEC, Conventions, gives each a number.
#[derive(Clone, Copy)]
pub enum Refusal {
    // The file has more than 16,777,216 bytes.
    FileTooLarge,
    // The kind asked for is none of the four.
    UnknownKind,
    // A table of ids or a class definition passes the file's end.
    TableOutside,
    // A lent slice is shorter than the result needs.
    LentTooShort,
    // String data begin outside the file, or have no final zero.
    StringOutside,
    // A number runs off the file.
    NumberOutside,
    // A method index passes 32 bits, or one with code is not below the method count or not below 2^24.
    MethodIndex,
    // A code item is not inside the file, or has no instruction.
    CodeOutside,
    // A query is empty, too long or not ASCII.
    BadQuery,
    // A string's length passes 32 bits.
    LengthOverflow,
    // A string that a query is held against is not ASCII.
    NotAscii,
    // A region is backward or passes the file's end.
    RegionOutside,
    // A string index is not below the string count.
    StringIndex,
    // A line of the request is not as it must be.
    BadRequest,
    // A lent table does not hold what is needed of it.
    LentTable,
    // A number does not fit 32 bits.
    NumberTooLong,
}

// The refusal's number.
impl From<Refusal> for u32 {
    ghost from_gives = { λ r n. n ≡ refusal_number r };

    fn from(r: Refusal) -> u32 {
        match r {
            Refusal::FileTooLarge => 1,
            Refusal::UnknownKind => 2,
            Refusal::TableOutside => 3,
            Refusal::LentTooShort => 4,
            Refusal::StringOutside => 5,
            Refusal::NumberOutside => 6,
            Refusal::MethodIndex => 7,
            Refusal::CodeOutside => 8,
            Refusal::BadQuery => 9,
            Refusal::LengthOverflow => 10,
            Refusal::NotAscii => 11,
            Refusal::RegionOutside => 12,
            Refusal::StringIndex => 13,
            Refusal::BadRequest => 14,
            Refusal::LentTable => 15,
            Refusal::NumberTooLong => 16,
        }
    }
}

// The bytes that a file may have (`largest_file` of specs/Refusals.antt).
pub const LARGEST_FILE: usize = 16777216;

// Whether a file of len bytes is refused.
pub fn too_large(len: usize) -> bool
    ensures { result ≡ is_too_large len }
{
    LARGEST_FILE < len
}
