// Runs the library's operations on `sample.dex`, and writes what they find, a section for each.
#![tactic(auto)]

mod code_section;
mod group_sections;
mod search_sections;
mod text;

use std::fs::File;
use std::io;

fn sections(rt: &impl Print, file: &[u8]) -> io::Result<()> {
    let header = text::header(file);
    group_sections::types(rt, file, header)?;
    group_sections::methods(rt, file, header)?;
    search_sections::strings(rt, file, header)?;
    search_sections::group_searches(rt, file, header)?;
    code_section::code(rt, file, header)
}

fn main(rt: HostRuntime) -> io::Result<()> {
    let path = "sample.dex";
    let mut input = match File::open(&rt, path) {
        Ok(input) => input,
        Err(why) => return eprintln!(rt; "{path}: {why}"),
    };
    let mut file = [0u8; 4096];
    let n = bytes_in::read_full(&mut input, &mut file);
    drop(input);
    sections(&rt, &file[..n])
}
