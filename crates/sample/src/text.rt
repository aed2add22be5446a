// What the sections of `sample` share: lines of text, lists of words, and the header record.
ghost use Rattle.std.specs.Prelude.{◌≡◌};
ghost use Rattle.sample.specs.Steps.{counted_up};

use refusal::Refusal;
use std::io;
use tinydex::{DexHeader, Table};

// ---- writing

pub(crate) fn print_refusal(rt: &impl Print, why: Refusal) -> io::Result<()> {
    println!(rt; "refusal={}", u32::from(why))
}

// A whole list, with commas between, and the end of the line.
fn print_list(rt: &impl Print, list: &[u32]) -> io::Result<()> {
    for (i, id) in list.iter().enumerate() {
        if 0 < i {
            print!(rt; ",")?;
        }
        print!(rt; "{id}")?;
    }
    println!(rt)
}

// A line for each key below n whose group is not empty.
pub(crate) fn print_groups<'a, F: Fn(u32) -> &'a [u32]>(
    rt: &impl Print,
    n: u32,
    key: &str,
    ids: &str,
    group_of: F,
) -> io::Result<()>
    requires { F.IsAlwaysCallable group_of }
{
    for k in 0..n {
        let group = group_of(k);
        if !group.is_empty() {
            print!(rt; "{key}={k} {ids}=")?;
            print_list(rt, group)?;
        }
    }
    Ok(())
}

// What a search has found, and the end of the line.
pub(crate) fn print_answer(
    rt: &impl Print,
    ids: &str,
    answer: Result<usize, Refusal>,
    out: &[u32],
) -> io::Result<()> {
    match answer {
        Err(why) => {
            print!(rt; " ")?;
            print_refusal(rt, why)
        }
        Ok(n) => {
            print!(rt; " {ids}=")?;
            print_list(rt, first(out, n))
        }
    }
}

// ---- lists of words

// The first n items, or all where there are fewer.
pub(crate) fn first<T>(list: &[T], n: usize) -> &[T] {
    list.get(..n).unwrap_or(list)
}

// The words 0, 1, .. up to n - 1, as far as there is room.
pub(crate) fn count_up(list: &mut [u32], n: u32)
    ensures { list.new ≡ counted_up list.old n }
{
    for k in 0..n {
        words::put(list, k as usize, k);
    }
}

// ---- the header record

fn table(file: &[u8], off: usize, size: usize) -> Table {
    Table {
        off: structs::u32_at(file, off),
        size: structs::u32_at(file, size),
    }
}

pub(crate) fn header(file: &[u8]) -> DexHeader {
    DexHeader {
        strings: table(file, 0x3c, 0x38),
        types: table(file, 0x44, 0x40),
        prototypes: table(file, 0x4c, 0x48),
        fields: table(file, 0x54, 0x50),
        methods: table(file, 0x5c, 0x58),
        classes: table(file, 0x64, 0x60),
        mapoff: structs::u32_at(file, 0x34),
    }
}
