// The codes of a file (insn_locator.rs: `_build_map_bymap`, `_build_map_bydef`): the class data items are found by the map, else by the
// class definitions, and walked.
#![tactic(auto)]

mod item; // item.rt: one class data item as it is read
mod parse; // parse.rt: one class data item walked

ghost use Rattle.std.specs.Prelude.{◌≡◌, ◌+◌, ◌≤◌, length};
ghost use Rattle.dalvik.specs.Numbers.{le32};
ghost use Rattle.refusal.specs.Refusals.{largest_file};
ghost use Rattle.class_data.specs.Codes.{successive, defined, map_entry, codes_of};
ghost use Rattle.class_data.specs.Stored.{code_words};
ghost use Rattle.class_data.specs.Found.{codes_for, GivesCodes};
ghost use Rattle.class_data.specs.Steps.{kept, stored, seen, EntryPre, DefPre, OneDefined, FitCodes};

use parse::Walked;
use refusal::Refusal;
use tinydex::{DexHeader, Table};

// The map's first entry of class data. The search ends at an entry that is not inside the file.
fn map_entry(buf: &[u8], mapoff: u32) -> Option<usize>
    ensures { result ≡ map_entry buf.now mapoff }
{
    if mapoff == 0 {
        return None;
    }
    let size = structs::read_u32(buf, mapoff as usize)?;
    let mut at = mapoff as usize + 4;
    for _ in 0..size {
        if buf.len() < at + 12 {
            return None;
        }
        let kind = structs::read_u16(buf, at)?;
        if kind == 0x2000 {
            return Some(at);
        }
        at = at + 12;
    }
    None
}

// The class data items that a map entry counts, one after another.
fn build_map_bymap(
    buf: &[u8],
    methods: u32,
    entry: usize,
    triples: &mut [u32],
    starts: &mut [u32],
) -> Result<Walked, Refusal>
    requires { EntryPre buf.now entry }
    ensures { let before = code_words triples.old starts.old in
        let after = code_words triples.new starts.new in
        let file = buf.now in
        seen result after ≡ stored (kept 0 before) (successive (le32 file (entry + 4)) file methods (le32 file (entry + 8))) }
{
    let size = structs::u32_at(buf, entry + 4);
    let off = structs::u32_at(buf, entry + 8);
    let mut at = Walked {
        next: off as usize,
        count: 0,
    };
    for _ in 0..size {
        at = parse::class_data_parse(buf, methods, at.next, at.count, triples, starts)?;
    }
    Ok(at)
}

// The class data of the class definition at a place, with count codes found before it. `next` says nothing here.
fn class_def(
    buf: &[u8],
    methods: u32,
    at: usize,
    count: usize,
    triples: &mut [u32],
    starts: &mut [u32],
) -> Result<Walked, Refusal>
    requires { DefPre buf.now at count }
    ensures { let before = code_words triples.old starts.old in
        let after = code_words triples.new starts.new in
        OneDefined buf.now methods at (kept count before) result after }
{
    let off = structs::read_u32(buf, at + 24).ok_or(Refusal::TableOutside)?;
    if off == 0 {
        return Ok(Walked { next: at, count });
    }
    parse::class_data_parse(buf, methods, off as usize, count, triples, starts)
}

// The class data of all class definitions.
fn build_map_bydef(
    buf: &[u8],
    methods: u32,
    classes: Table,
    triples: &mut [u32],
    starts: &mut [u32],
) -> Result<Walked, Refusal>
    requires { length buf.now ≤ largest_file }
    ensures { let before = code_words triples.old starts.old in
        let after = code_words triples.new starts.new in
        seen result after ≡ stored (kept 0 before) (defined classes.size buf.now methods classes.off) }
{
    let mut at = classes.off as usize;
    let mut count = 0;
    for _ in 0..classes.size {
        count = class_def(buf, methods, at, count, triples, starts)?.count;
        at = at + 32;
    }
    Ok(Walked { next: at, count })
}

// By the map alone where it has an entry of class data, else by the class definitions.
fn walk(
    buf: &[u8],
    header: DexHeader,
    triples: &mut [u32],
    starts: &mut [u32],
) -> Result<Walked, Refusal>
    requires { length buf.now ≤ largest_file }
    ensures { let before = code_words triples.old starts.old in
        let after = code_words triples.new starts.new in
        seen result after ≡ stored (kept 0 before) (codes_of buf.now header) }
{
    let methods = header.methods.size;
    match map_entry(buf, header.mapoff) {
        Some(entry) => build_map_bymap(buf, methods, entry, triples, starts),
        None => build_map_bydef(buf, methods, header.classes, triples, starts),
    }
}

// The walk into cleared words, where the file is not too large and the words hold what is found. A walk whose triples do not fit goes
// on, so that what it meets is refused first. A refusal leaves any words.
fn walk_fitting(
    buf: &[u8],
    header: DexHeader,
    triples: &mut [u32],
    starts: &mut [u32],
) -> Result<usize, Refusal>
    ensures { let before = code_words triples.old starts.old in
        let after = code_words triples.new starts.new in
        FitCodes header.methods.size (codes_for buf.now header before) result before after }
{
    if refusal::too_large(buf.len()) {
        return Err(Refusal::FileTooLarge);
    }
    if start_words::count(starts) < header.methods.size as usize {
        return Err(Refusal::LentTooShort);
    }
    words::clear(triples);
    words::clear(starts);
    let found = walk(buf, header, triples, starts)?;
    if triples.len() / 3 < found.count {
        return Err(Refusal::LentTooShort);
    }
    Ok(found.count)
}

// The codes of a file: three words for each in the order found (first bucket, last bucket, method), and each method's start words. The
// answer counts the codes; a refusal leaves cleared words.
pub fn codes(
    buf: &[u8],
    header: DexHeader,
    triples: &mut [u32],
    starts: &mut [u32],
) -> Result<usize, Refusal>
    ensures gives { let before = code_words triples.old starts.old in
        let after = code_words triples.new starts.new in
        GivesCodes header.methods.size (codes_for buf.now header before) result before after }
{
    let count = walk_fitting(buf, header, triples, starts);
    if count.is_err() {
        words::clear(triples);
        words::clear(starts);
    }
    count
}
