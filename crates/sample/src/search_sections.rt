// The sections of `sample` on strings: the map, the searches for phrases, and the name filter.
// Kept, point 5: these are the parameters of the searches, passed on.
use super::text;
use std::io;
use tinydex::DexHeader;

// What is searched: the file, the keys of its strings and the area of their texts.
#[derive(Clone, Copy)]
struct Area<'a> {
    file: &'a [u8],
    keys: &'a [u64],
    start: usize,
    end: usize,
}

// ---- strings: the map, searches for a phrase, and the name filter

fn search(rt: &impl Print, area: Area, phrase: &str) -> io::Result<()> {
    let mut out = [0u32; 4096];
    let answer = string_search::locate(
        area.file,
        area.keys,
        area.start,
        area.end,
        phrase.as_bytes(),
        &mut out,
    );
    print!(rt; "phrase={phrase}")?;
    text::print_answer(rt, "strings", answer, &out)
}

fn string_searches(
    rt: &impl Print,
    file: &[u8],
    header: DexHeader,
    keys: &mut [u64],
) -> io::Result<()> {
    let map = match string_locator::build_map(file, header, keys) {
        Err(why) => return text::print_refusal(rt, why),
        Ok(map) => map,
    };
    println!(rt; "area={},{} strings={}", map.start, map.end, map.count)?;
    let area = Area {
        file,
        keys: text::first(keys, map.count),
        start: map.start,
        end: map.end,
    };
    search(rt, area, "clear")?;
    search(rt, area, "show")
}

fn filter(rt: &impl Print, file: &[u8], given: &[u32], name: &str) -> io::Result<()> {
    let mut out = [0u32; 4096];
    let answer = name_filter::locate_name_indices(file, given, name.as_bytes(), &mut out);
    print!(rt; "name={name}")?;
    text::print_answer(rt, "strings", answer, &out)
}

// The one string of the sample that is not ASCII.
const NOT_ASCII: usize = 9;

// All strings are given, and then all but the one that makes the filter refuse: the first string stands in for it.
fn names(rt: &impl Print, file: &[u8], count: u32, given: &mut [u32]) -> io::Result<()> {
    text::count_up(given, count);
    filter(rt, file, text::first(given, count as usize), "CLEAR")?;
    words::put(given, NOT_ASCII, 0);
    filter(rt, file, text::first(given, count as usize), "CLEAR")
}

pub(crate) fn strings(rt: &impl Print, file: &[u8], header: DexHeader) -> io::Result<()> {
    println!(rt; "strings")?;
    let mut keys = [0u64; 4096];
    string_searches(rt, file, header, &mut keys)?;
    let mut given = [0u32; 4096];
    names(rt, file, header.strings.size, &mut given)
}

// ---- types and methods by phrases

fn search_types(
    rt: &impl Print,
    area: Area,
    query: &str,
    offsets: &[u32],
    ids: &[u32],
) -> io::Result<()> {
    let mut strings = [0u32; 4096];
    let mut out = [0u32; 4096];
    let answer = type_search::locate(
        area.file,
        area.keys,
        area.start,
        area.end,
        query.as_bytes(),
        offsets,
        ids,
        &mut strings,
        &mut out,
    );
    print!(rt; "phrase={query}")?;
    text::print_answer(rt, "types", answer, &out)
}

// The second phrase is found, but in no type's string; the third is not found.
fn type_searches(rt: &impl Print, area: Area, offsets: &[u32], ids: &[u32]) -> io::Result<()> {
    println!(rt; "type search")?;
    search_types(rt, area, "pump", offsets, ids)?;
    search_types(rt, area, "clear", offsets, ids)?;
    search_types(rt, area, "valve", offsets, ids)
}

fn search_methods(
    rt: &impl Print,
    area: Area,
    header: DexHeader,
    class: &str,
    name: &str,
    offsets: &[u32],
    ids: &[u32],
) -> io::Result<()> {
    let mut strings = [0u32; 4096];
    let mut types = [0u32; 4096];
    let mut out = [0u32; 4096];
    let answer = method_search::locate(
        area.file,
        header,
        area.keys,
        area.start,
        area.end,
        class.as_bytes(),
        name.as_bytes(),
        offsets,
        ids,
        &mut strings,
        &mut types,
        &mut out,
    );
    print!(rt; "class={class} name={name}")?;
    text::print_answer(rt, "methods", answer, &out)
}

// A class alone, a name alone, both, a class that is not found, and neither.
fn method_searches(
    rt: &impl Print,
    area: Area,
    header: DexHeader,
    offsets: &[u32],
    ids: &[u32],
) -> io::Result<()> {
    println!(rt; "method search")?;
    search_methods(rt, area, header, "Totals", "", offsets, ids)?;
    search_methods(rt, area, header, "", "show", offsets, ids)?;
    search_methods(rt, area, header, "Totals", "show", offsets, ids)?;
    search_methods(rt, area, header, "valve", "show", offsets, ids)?;
    search_methods(rt, area, header, "", "", offsets, ids)
}

fn mapped_searches(
    rt: &impl Print,
    file: &[u8],
    header: DexHeader,
    keys: &mut [u64],
    offsets: &mut [u32],
    ids: &mut [u32],
) -> io::Result<()> {
    let map = match string_locator::build_map(file, header, keys) {
        Err(why) => return text::print_refusal(rt, why),
        Ok(map) => map,
    };
    if let Err(why) = type_locator::build_map(file, header, offsets, ids) {
        return text::print_refusal(rt, why);
    }
    let area = Area {
        file,
        keys: text::first(keys, map.count),
        start: map.start,
        end: map.end,
    };
    type_searches(rt, area, offsets, ids)?;
    method_searches(rt, area, header, offsets, ids)
}

pub(crate) fn group_searches(rt: &impl Print, file: &[u8], header: DexHeader) -> io::Result<()> {
    let mut keys = [0u64; 4096];
    let mut offsets = [0u32; 4096];
    let mut ids = [0u32; 4096];
    mapped_searches(rt, file, header, &mut keys, &mut offsets, &mut ids)
}
