// The replay list: a case read, and the line of a case written. crates/replay/README.md has the form of both.
ghost use Rattle.std.specs.Prelude.{◌≤◌, ◌<◌};

use std::io;

// ---- reading

// An operation, by its number in the list.
#[derive(Clone, Copy)]
pub(crate) enum Operation {
    TypeGroups = 1,
    MethodGroups = 2,
    Group = 3,
    StringMap = 4,
    StringBytes = 5,
    StringSearch = 6,
    TypeSearch = 7,
    MethodSearch = 8,
    NameFilter = 9,
    CodeTable = 10,
    Scan = 11,
    Locate = 12,
    ListSlot = 13,
    StringDataBytes = 14,
    TypesOf = 15,
    ClzSlice = 16,
    NameSlice = 17,
}

impl Operation {
    fn of(number: u32) -> Option<Operation> {
        match number {
            1 => Some(Operation::TypeGroups),
            2 => Some(Operation::MethodGroups),
            3 => Some(Operation::Group),
            4 => Some(Operation::StringMap),
            5 => Some(Operation::StringBytes),
            6 => Some(Operation::StringSearch),
            7 => Some(Operation::TypeSearch),
            8 => Some(Operation::MethodSearch),
            9 => Some(Operation::NameFilter),
            10 => Some(Operation::CodeTable),
            11 => Some(Operation::Scan),
            12 => Some(Operation::Locate),
            13 => Some(Operation::ListSlot),
            14 => Some(Operation::StringDataBytes),
            15 => Some(Operation::TypesOf),
            16 => Some(Operation::ClzSlice),
            17 => Some(Operation::NameSlice),
            _ => None,
        }
    }
}

// A case's parts: all but its operation are stretches of the list.
#[derive(Clone, Copy)]
pub(crate) struct Case<'a> {
    pub(crate) operation: Operation,
    numbers: &'a [u8],
    pub(crate) file: &'a [u8],
    pub(crate) query: &'a [u8],
    pub(crate) second: &'a [u8],
    pub(crate) keys: &'a [u8],
    pub(crate) w1: &'a [u8],
    pub(crate) w2: &'a [u8],
    pub(crate) w3: &'a [u8],
    pub(crate) w4: &'a [u8],
    lengths: &'a [u8],
}

// A list of at most so many items, each of so many bytes, and what stands after it.
fn list(text: &[u8], bytes: usize, most: u32) -> Option<(&[u8], &[u8])> {
    let (count, rest) = text.split_at_checked(4)?;
    let n = structs::u32_at(count, 0);
    if most < n {
        return None;
    }
    rest.split_at_checked((n as usize).checked_mul(bytes)?)
}

impl<'a> Case<'a> {
    // The case that the bytes begin with, and what stands after it.
    pub(crate) fn read(text: &'a [u8]) -> Option<(Case<'a>, &'a [u8])> {
        let (head, rest) = text.split_at_checked(4)?;
        let (numbers, rest) = rest.split_at_checked(64)?;
        let (file, rest) = list(rest, 1, 4096)?;
        let (query, rest) = list(rest, 1, 512)?;
        let (second, rest) = list(rest, 1, 512)?;
        let (keys, rest) = list(rest, 8, 512)?;
        let (w1, rest) = list(rest, 4, 512)?;
        let (w2, rest) = list(rest, 4, 512)?;
        let (w3, rest) = list(rest, 4, 512)?;
        let (w4, rest) = list(rest, 4, 512)?;
        let (lengths, rest) = rest.split_at_checked(16)?;
        if lengths.chunks_exact(4).any(|n| 1024 < word(n)) {
            return None;
        }
        let operation = Operation::of(structs::u32_at(head, 0))?;
        let case = Case {
            operation,
            numbers,
            file,
            query,
            second,
            keys,
            w1,
            w2,
            w3,
            w4,
            lengths,
        };
        Some((case, rest))
    }

    // Number i, from 0 on.
    pub(crate) fn number(&self, i: u8) -> u32 {
        structs::u32_at(self.numbers, usize::from(i) * 4)
    }

    // The same, as a place in the file or a length.
    pub(crate) fn place(&self, i: u8) -> usize {
        self.number(i) as usize
    }

    // The words of the header record.
    pub(crate) fn header(&self) -> [u32; 13] {
        std::array::from_fn(|i| structs::u32_at(self.numbers, i * 4))
    }

    // The length of lent output i.
    pub(crate) fn lent(&self, i: u8) -> usize
        ensures { result ≤ 1024 }
    {
        (structs::u32_at(self.lengths, usize::from(i) * 4) as usize).min(1024)
    }
}

pub(crate) fn word(bytes: &[u8]) -> u32 {
    structs::u32_at(bytes, 0)
}

// Two words, the low one first.
pub(crate) fn key(bytes: &[u8]) -> u64 {
    u64::from(structs::u32_at(bytes, 4)) << 32 | u64::from(word(bytes))
}

// The items of a list, each of so many bytes, in room for the longest.
pub(crate) fn items<T: Copy + Default, F: Fn(&[u8]) -> T>(
    list: &[u8],
    bytes: usize,
    item: F,
) -> [T; 512]
    requires some { 0 < bytes }
    requires any { F.IsAlwaysCallable item }
{
    let mut room = [T::default(); 512];
    for (to, from) in room.iter_mut().zip(list.chunks_exact(bytes)) {
        *to = item(from);
    }
    room
}

// The first n items, or all where there are fewer.
pub(crate) fn first<T>(list: &[T], n: usize) -> &[T] {
    list.get(..n).unwrap_or(list)
}

// ---- writing

// The operation, the refusal's number and the numbers handed out.
pub(crate) fn print_numbers(
    rt: &impl Print,
    operation: Operation,
    refusal: u32,
    numbers: &[usize],
) -> io::Result<()> {
    print!(rt; "{} {refusal}", operation as u8)?;
    for n in numbers {
        print!(rt; " {n}")?;
    }
    Ok(())
}

// A whole list.
pub(crate) fn print_list<T: Copy + Into<u64>>(rt: &impl Print, list: &[T]) -> io::Result<()> {
    print!(rt; " |")?;
    for item in list {
        let n: u64 = (*item).into();
        print!(rt; " {n}")?;
    }
    Ok(())
}

// A lent output: its items up to the last that is not 0.
fn print_output<T: Copy + Into<u64>>(rt: &impl Print, output: &[T]) -> io::Result<()> {
    let used = output
        .iter()
        .rposition(|item| (*item).into() != 0)
        .map_or(0, |i| i + 1);
    print_list(rt, first(output, used))
}

// The lent outputs of a call, and the end of the line.
pub(crate) fn print_outputs<T: Copy + Into<u64>>(
    rt: &impl Print,
    outputs: &[&[T]],
) -> io::Result<()> {
    for output in outputs {
        print_output(rt, output)?;
    }
    println!(rt)
}
