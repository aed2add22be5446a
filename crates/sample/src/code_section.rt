// The section of `sample` on code: the table, and the uses of every index of each kind.
// Kept, points 1 and 5: these are the parameters of the scan and of locate, passed on.
use super::text;
use code_table::Region;
use std::io;
use tinydex::DexHeader;

// The parts of a code table that the searches read.
#[derive(Clone, Copy)]
struct Table<'a> {
    region: Region,
    slots: &'a [u32],
    starts: &'a [u32],
    shares: &'a [u32],
}

// A line for each hit: where it is, its index, and whether a walk confirms it.
fn print_hits(
    rt: &impl Print,
    kind: u32,
    offs: &[u32],
    marks: &[u32],
    answers: &[u32],
) -> io::Result<()> {
    for ((off, idx), answer) in offs.iter().zip(marks).zip(answers) {
        println!(rt;
            "kind={kind} off={off} idx={idx} confirmed={}",
            u8::from(*answer != 0)
        )?;
    }
    Ok(())
}

// How many hits there are.
fn scan_hits(
    rt: &impl Print,
    file: &[u8],
    region: Region,
    kind: u32,
    wanted: &[u32],
    offs: &mut [u32],
    marks: &mut [u32],
) -> io::Result<usize> {
    match code_item_scan::scan(file, region.start, region.end, kind, wanted, offs, marks) {
        Err(why) => {
            text::print_refusal(rt, why)?;
            Ok(0)
        }
        Ok(n) => Ok(n),
    }
}

// A line for each hit, once locate has answered.
fn locate_hits(
    rt: &impl Print,
    file: &[u8],
    table: Table,
    kind: u32,
    offs: &[u32],
    marks: &[u32],
) -> io::Result<()> {
    let mut further = [0u32; 4096];
    let mut answers = [0u32; 4096];
    let located = insn_locator::locate(
        file,
        table.region.start / 16,
        table.slots,
        table.starts,
        table.shares,
        offs,
        &mut further,
        &mut answers,
    );
    match located {
        Err(why) => text::print_refusal(rt, why),
        Ok(_) => print_hits(rt, kind, offs, marks, &answers),
    }
}

// Every index below the pool's size is wanted.
fn scan_kind(rt: &impl Print, file: &[u8], table: Table, kind: u32, pool: u32) -> io::Result<()> {
    let mut wanted = [0u32; 4096];
    let mut offs = [0u32; 4096];
    let mut marks = [0u32; 4096];
    text::count_up(&mut wanted, pool);
    let n = scan_hits(
        rt,
        file,
        table.region,
        kind,
        text::first(&wanted, pool as usize),
        &mut offs,
        &mut marks,
    )?;
    locate_hits(rt, file, table, kind, text::first(&offs, n), &marks)
}

fn code_uses(
    rt: &impl Print,
    file: &[u8],
    header: DexHeader,
    starts: &mut [u32],
    triples: &mut [u32],
    slots: &mut [u32],
    shares: &mut [u32],
) -> io::Result<()> {
    let built = match code_table::parse(file, header, starts, triples, slots, shares) {
        Err(why) => return text::print_refusal(rt, why),
        Ok(built) => built,
    };
    let region = built.region;
    println!(rt;
        "region={},{} codes={}",
        region.start, region.end, built.codes
    )?;
    let table = Table {
        region,
        slots,
        starts,
        shares,
    };
    scan_kind(rt, file, table, 1, header.strings.size)?;
    scan_kind(rt, file, table, 2, header.types.size)?;
    scan_kind(rt, file, table, 3, header.fields.size)?;
    scan_kind(rt, file, table, 4, header.methods.size)
}

pub(crate) fn code(rt: &impl Print, file: &[u8], header: DexHeader) -> io::Result<()> {
    println!(rt; "code")?;
    let mut starts = [0u32; 4096];
    let mut triples = [0u32; 4096];
    let mut slots = [0u32; 4096];
    let mut shares = [0u32; 4096];
    code_uses(
        rt,
        file,
        header,
        &mut starts,
        &mut triples,
        &mut slots,
        &mut shares,
    )
}
