// Replays a list of calls, `cases`, through the functions that C calls and those that hand back a part of a slice, and writes a line for
// each: the operation, the refusal's number, the numbers handed out, and of each lent output the words up to the last that is not 0.
// README.md has the form of the list.
// Kept, point 2: `types_of`, `clz_slice` and `name_slice` each ask an operation of their own.
#![tactic(auto)]

mod case_list;

ghost use Rattle.std.specs.Prelude.{◌≡◌, length};

use case_list::{Case, Operation};
use std::fs::File;
use std::io;

// What lent outputs hold before a call.
const STALE: u32 = 0xa5a5a5a5;

const STALE_KEY: u64 = 0xa5a5a5a5a5a5a5a5;

// A case, with its keys and its lists of words.
#[derive(Clone, Copy)]
struct Lent<'a> {
    case: Case<'a>,
    keys: &'a [u64],
    w1: &'a [u32],
    w2: &'a [u32],
    w3: &'a [u32],
    w4: &'a [u32],
}

// ---- the operations: each writes the line's numbers, and where it has no lent outputs the whole line

fn group(rt: &impl Print, lent: &Lent) -> io::Result<()> {
    let mut start = 0;
    let mut count = 0;
    let key = lent.case.number(13);
    let refusal = ringlinden::ringlinden_group(lent.w1, lent.w2, key, &mut start, &mut count);
    case_list::print_numbers(rt, Operation::Group, refusal, &[start, count])?;
    println!(rt)
}

fn string_bytes(rt: &impl Print, lent: &Lent) -> io::Result<()> {
    let mut start = 0;
    let mut count = 0;
    let refusal = ringlinden::ringlinden_string_bytes(
        lent.case.file,
        lent.case.place(13),
        &mut start,
        &mut count,
    );
    case_list::print_numbers(rt, Operation::StringBytes, refusal, &[start, count])?;
    println!(rt)
}

fn string_map(rt: &impl Print, lent: &Lent, out: &mut [u64]) -> io::Result<()> {
    let mut count = 0;
    let mut start = 0;
    let mut end = 0;
    let refusal = ringlinden::ringlinden_string_map(
        lent.case.file,
        &lent.case.header(),
        out,
        &mut count,
        &mut start,
        &mut end,
    );
    case_list::print_numbers(rt, Operation::StringMap, refusal, &[count, start, end])
}

fn string_search(rt: &impl Print, lent: &Lent, out: &mut [u32]) -> io::Result<()> {
    let mut count = 0;
    let refusal = ringlinden::ringlinden_string_search(
        lent.case.file,
        lent.keys,
        lent.case.place(13),
        lent.case.place(14),
        lent.case.query,
        out,
        &mut count,
    );
    case_list::print_numbers(rt, Operation::StringSearch, refusal, &[count])
}

fn name_filter(rt: &impl Print, lent: &Lent, out: &mut [u32]) -> io::Result<()> {
    let mut count = 0;
    let refusal = ringlinden::ringlinden_name_filter(
        lent.case.file,
        lent.w1,
        lent.case.query,
        out,
        &mut count,
    );
    case_list::print_numbers(rt, Operation::NameFilter, refusal, &[count])
}

fn list_slot(rt: &impl Print, lent: &Lent, methods: &mut [u32]) -> io::Result<()> {
    let mut count = 0;
    let slot = lent.case.number(13);
    let refusal = ringlinden::ringlinden_list_slot(lent.w1, slot, methods, &mut count);
    case_list::print_numbers(rt, Operation::ListSlot, refusal, &[count])
}

fn type_groups(
    rt: &impl Print,
    lent: &Lent,
    str_offsets: &mut [u32],
    type_idxs: &mut [u32],
) -> io::Result<()> {
    let mut count = 0;
    let refusal = ringlinden::ringlinden_type_groups(
        lent.case.file,
        &lent.case.header(),
        str_offsets,
        type_idxs,
        &mut count,
    );
    case_list::print_numbers(rt, Operation::TypeGroups, refusal, &[count])
}

fn type_search(
    rt: &impl Print,
    lent: &Lent,
    strings: &mut [u32],
    out: &mut [u32],
) -> io::Result<()> {
    let mut count = 0;
    let refusal = ringlinden::ringlinden_type_search(
        lent.case.file,
        lent.keys,
        lent.case.place(13),
        lent.case.place(14),
        lent.case.query,
        lent.w1,
        lent.w2,
        strings,
        out,
        &mut count,
    );
    case_list::print_numbers(rt, Operation::TypeSearch, refusal, &[count])
}

fn scan(rt: &impl Print, lent: &Lent, offs: &mut [u32], marks: &mut [u32]) -> io::Result<()> {
    let mut count = 0;
    let refusal = ringlinden::ringlinden_scan(
        lent.case.file,
        lent.case.number(13),
        lent.case.number(14),
        lent.case.number(15),
        lent.w1,
        offs,
        marks,
        &mut count,
    );
    case_list::print_numbers(rt, Operation::Scan, refusal, &[count])
}

fn locate(
    rt: &impl Print,
    lent: &Lent,
    further: &mut [u32],
    answers: &mut [u32],
) -> io::Result<()> {
    let mut count = 0;
    let refusal = ringlinden::ringlinden_locate(
        lent.case.file,
        lent.case.number(13),
        lent.w1,
        lent.w2,
        lent.w3,
        lent.w4,
        further,
        answers,
        &mut count,
    );
    case_list::print_numbers(rt, Operation::Locate, refusal, &[count])
}

fn method_search(
    rt: &impl Print,
    lent: &Lent,
    strings: &mut [u32],
    types: &mut [u32],
    out: &mut [u32],
) -> io::Result<()> {
    let mut count = 0;
    let refusal = ringlinden::ringlinden_method_search(
        lent.case.file,
        &lent.case.header(),
        lent.keys,
        lent.case.place(13),
        lent.case.place(14),
        lent.case.query,
        lent.case.second,
        lent.w1,
        lent.w2,
        strings,
        types,
        out,
        &mut count,
    );
    case_list::print_numbers(rt, Operation::MethodSearch, refusal, &[count])
}

fn method_groups(
    rt: &impl Print,
    lent: &Lent,
    clz_offsets: &mut [u32],
    clz_mids: &mut [u32],
    name_offsets: &mut [u32],
    name_mids: &mut [u32],
) -> io::Result<()> {
    let mut clz_count = 0;
    let mut name_count = 0;
    let refusal = ringlinden::ringlinden_method_groups(
        lent.case.file,
        &lent.case.header(),
        clz_offsets,
        clz_mids,
        name_offsets,
        name_mids,
        &mut clz_count,
        &mut name_count,
    );
    case_list::print_numbers(
        rt,
        Operation::MethodGroups,
        refusal,
        &[clz_count, name_count],
    )
}

fn code_table(
    rt: &impl Print,
    lent: &Lent,
    starts: &mut [u32],
    triples: &mut [u32],
    slots: &mut [u32],
    shares: &mut [u32],
) -> io::Result<()> {
    let mut region_start = 0;
    let mut region_end = 0;
    let mut codes = 0;
    let mut slot_count = 0;
    let mut share_count = 0;
    let refusal = ringlinden::ringlinden_code_table(
        lent.case.file,
        &lent.case.header(),
        starts,
        triples,
        slots,
        shares,
        &mut region_start,
        &mut region_end,
        &mut codes,
        &mut slot_count,
        &mut share_count,
    );
    let numbers = [region_start, region_end, codes, slot_count, share_count];
    case_list::print_numbers(rt, Operation::CodeTable, refusal, &numbers)
}

// ---- the functions that hand back a part of what they are lent, which C doesn't have: the part's length and the part

fn string_data_bytes(rt: &impl Print, lent: &Lent) -> io::Result<()> {
    let text = string_data::string_data_bytes(lent.case.file, lent.case.place(13));
    case_list::print_numbers(rt, Operation::StringDataBytes, 0, &[text.len()])?;
    case_list::print_list(rt, text)?;
    println!(rt)
}

fn print_part(rt: &impl Print, operation: Operation, part: &[u32]) -> io::Result<()> {
    case_list::print_numbers(rt, operation, 0, &[part.len()])?;
    case_list::print_outputs(rt, &[part])
}

fn types_of(rt: &impl Print, lent: &Lent) -> io::Result<()> {
    let part = type_locator::types_of(lent.w1, lent.w2, lent.case.number(13));
    print_part(rt, Operation::TypesOf, part)
}

fn clz_slice(rt: &impl Print, lent: &Lent) -> io::Result<()> {
    let part = method_locator::clz_slice(lent.w1, lent.w2, lent.case.number(13));
    print_part(rt, Operation::ClzSlice, part)
}

fn name_slice(rt: &impl Print, lent: &Lent) -> io::Result<()> {
    let part = method_locator::name_slice(lent.w1, lent.w2, lent.case.number(13));
    print_part(rt, Operation::NameSlice, part)
}

// ---- outputs that hold stale words are lent to the operation of a case

fn lend_keys(rt: &impl Print, lent: &Lent) -> io::Result<()> {
    let mut r1 = [STALE_KEY; 1024];
    let o1 = &mut r1[..lent.case.lent(0)];
    string_map(rt, lent, o1)?;
    case_list::print_outputs(rt, &[o1])
}

fn lend_one(rt: &impl Print, lent: &Lent) -> io::Result<()> {
    let mut r1 = [STALE; 1024];
    let o1 = &mut r1[..lent.case.lent(0)];
    match lent.case.operation {
        Operation::StringSearch => string_search(rt, lent, o1)?,
        Operation::NameFilter => name_filter(rt, lent, o1)?,
        _ => list_slot(rt, lent, o1)?,
    }
    case_list::print_outputs(rt, &[o1])
}

fn lend_two(rt: &impl Print, lent: &Lent) -> io::Result<()> {
    let mut r1 = [STALE; 1024];
    let mut r2 = [STALE; 1024];
    let o1 = &mut r1[..lent.case.lent(0)];
    let o2 = &mut r2[..lent.case.lent(1)];
    match lent.case.operation {
        Operation::TypeGroups => type_groups(rt, lent, o1, o2)?,
        Operation::TypeSearch => type_search(rt, lent, o1, o2)?,
        Operation::Scan => scan(rt, lent, o1, o2)?,
        _ => locate(rt, lent, o1, o2)?,
    }
    case_list::print_outputs(rt, &[o1, o2])
}

fn lend_three(rt: &impl Print, lent: &Lent) -> io::Result<()> {
    let mut r1 = [STALE; 1024];
    let mut r2 = [STALE; 1024];
    let mut r3 = [STALE; 1024];
    let o1 = &mut r1[..lent.case.lent(0)];
    let o2 = &mut r2[..lent.case.lent(1)];
    let o3 = &mut r3[..lent.case.lent(2)];
    method_search(rt, lent, o1, o2, o3)?;
    case_list::print_outputs(rt, &[o1, o2, o3])
}

fn lend_four(rt: &impl Print, lent: &Lent) -> io::Result<()> {
    let mut r1 = [STALE; 1024];
    let mut r2 = [STALE; 1024];
    let mut r3 = [STALE; 1024];
    let mut r4 = [STALE; 1024];
    let o1 = &mut r1[..lent.case.lent(0)];
    let o2 = &mut r2[..lent.case.lent(1)];
    let o3 = &mut r3[..lent.case.lent(2)];
    let o4 = &mut r4[..lent.case.lent(3)];
    match lent.case.operation {
        Operation::MethodGroups => method_groups(rt, lent, o1, o2, o3, o4)?,
        _ => code_table(rt, lent, o1, o2, o3, o4)?,
    }
    case_list::print_outputs(rt, &[o1, o2, o3, o4])
}

fn call(rt: &impl Print, lent: &Lent) -> io::Result<()> {
    match lent.case.operation {
        Operation::Group => group(rt, lent),
        Operation::StringBytes => string_bytes(rt, lent),
        Operation::StringDataBytes => string_data_bytes(rt, lent),
        Operation::TypesOf => types_of(rt, lent),
        Operation::ClzSlice => clz_slice(rt, lent),
        Operation::NameSlice => name_slice(rt, lent),
        Operation::StringMap => lend_keys(rt, lent),
        Operation::StringSearch | Operation::NameFilter | Operation::ListSlot => lend_one(rt, lent),
        Operation::TypeGroups | Operation::TypeSearch | Operation::Scan | Operation::Locate => {
            lend_two(rt, lent)
        }
        Operation::MethodSearch => lend_three(rt, lent),
        Operation::MethodGroups | Operation::CodeTable => lend_four(rt, lent),
    }
}

// ---- the list

fn run(rt: &impl Print, case: Case) -> io::Result<()> {
    let keys = case_list::items(case.keys, 8, case_list::key);
    let w1 = case_list::items(case.w1, 4, case_list::word);
    let w2 = case_list::items(case.w2, 4, case_list::word);
    let w3 = case_list::items(case.w3, 4, case_list::word);
    let w4 = case_list::items(case.w4, 4, case_list::word);
    let lent = Lent {
        case,
        keys: case_list::first(&keys, case.keys.len() / 8),
        w1: case_list::first(&w1, case.w1.len() / 4),
        w2: case_list::first(&w2, case.w2.len() / 4),
        w3: case_list::first(&w3, case.w3.len() / 4),
        w4: case_list::first(&w4, case.w4.len() / 4),
    };
    call(rt, &lent)
}

// Calls the case that the bytes begin with, and hands back what stands after it.
fn one<'a>(rt: &impl Print, text: &'a [u8]) -> io::Result<Option<&'a [u8]>> {
    let Some((case, rest)) = Case::read(text) else {
        return Ok(None);
    };
    run(rt, case)?;
    Ok(Some(rest))
}

// n cases, one after another, and what stands after them.
fn cases<'a>(rt: &impl Print, text: &'a [u8], n: u32) -> io::Result<Option<&'a [u8]>> {
    let mut rest = text;
    for _ in 0..n {
        let Some(next) = one(rt, rest)? else {
            return Ok(None);
        };
        rest = next;
    }
    Ok(Some(rest))
}

// The whole list: nothing stands after its last case.
fn whole(rt: &impl Print, text: &[u8]) -> io::Result<bool> {
    let Some((count, list)) = text.split_at_checked(4) else {
        return Ok(false);
    };
    let rest = cases(rt, list, case_list::word(count))?;
    Ok(rest.is_some_and(|bytes| bytes.is_empty()))
}

fn replay(rt: &impl Print, text: &[u8]) -> io::Result<()> {
    if whole(rt, text)? {
        return Ok(());
    }
    println!(rt; "bad case")
}

// How many bytes the list may have.
const MOST_BYTES: usize = 1048576;

// Room for the longest list of cases, and a byte more. It stands by itself, since the check lays out an array's literal where its length
// is asked for.
fn buffer() -> [u8; 1048577]
    ensures { 1048577 ≡ length result }
{
    [0; 1048577]
}

fn main(rt: HostRuntime) -> io::Result<()> {
    let path = "cases";
    let mut input = match File::open(&rt, path) {
        Ok(input) => input,
        Err(why) => return eprintln!(rt; "{path}: {why}"),
    };
    let mut text = buffer();
    let n = bytes_in::read_full(&mut input, &mut text);
    drop(input);
    if MOST_BYTES < n {
        return println!(rt; "bad case");
    }
    replay(&rt, &text[..n])
}
