// The program `refs`: SPEC, The program refs. It reads `input.dex` and the request, finds, lists every entry's slot, and only then prints:
// a refusal of any step prints its line and nothing else. Where `input.dex` cannot be opened, that is said on standard error.
// Kept, point 1: the request's kind goes on as a number to `find` and `head`, which refuse 2 one that names none.
#![tactic(auto)]

use entry_lines::Entries;
use findrefs::Found;
use refusal::Refusal;
use request::Request;
use std::fs::File;
use std::io;
use std::rt::Files;

// ---- printing

// The first n items, or all where there are fewer.
fn first<T>(list: &[T], n: usize) -> &[T] {
    list.get(..n).unwrap_or(list)
}

// A text that was written. One that was refused is empty.
fn print(rt: &impl Print, answer: Result<usize, Refusal>, text: &[u8]) -> io::Result<()> {
    match answer {
        Ok(n) => rt.write_all(first(text, n)),
        Err(_) => Ok(()),
    }
}

fn print_refusal(rt: &impl Print, why: Refusal) -> io::Result<()> {
    let mut room = [0u8; 4096];
    let text: &mut [u8] = &mut room;
    let answer = listing_text::refused(why, text);
    print(rt, answer, text)
}

fn print_head(rt: &impl Print, kind: u32, hits: usize, text: &mut [u8]) -> io::Result<()> {
    let answer = listing_text::head(kind, hits, text);
    print(rt, answer, text)
}

fn print_lines(
    rt: &impl Print,
    lists: Entries,
    mids: &mut [u32],
    text: &mut [u8],
) -> io::Result<()> {
    for i in 0..lists.offs.len() {
        let answer = entry_lines::line_at(lists, i, mids, text);
        print(rt, answer, text)?;
    }
    Ok(())
}

fn print_entries(
    rt: &impl Print,
    kind: u32,
    lists: Entries,
    mids: &mut [u32],
    text: &mut [u8],
) -> io::Result<()> {
    match entry_lines::try_lines(lists, mids, text) {
        Err(why) => print_refusal(rt, why),
        Ok(hits) => {
            print_head(rt, kind, hits, text)?;
            print_lines(rt, lists, mids, text)
        }
    }
}

// A line has at most 45,091 bytes: 4,096 methods of ten digits with commas between them, and what stands around them. So it is refused
// only as its listing is (`line_fits` of entry_lines).
fn print_found(rt: &impl Print, kind: u32, lists: Entries) -> io::Result<()> {
    let mut mids = [0u32; 4096];
    let mut text = [0u8; 65536];
    print_entries(rt, kind, lists, &mut mids, &mut text)
}

// ---- finding

// What was found: the lists hold as many entries as the scan found, and zeros after them.
fn print_answer(
    rt: &impl Print,
    found: Result<Found, Refusal>,
    kind: u32,
    lists: Entries,
) -> io::Result<()> {
    match found {
        Err(why) => print_refusal(rt, why),
        Ok(found) => {
            let entries = Entries {
                offs: first(lists.offs, found.hits),
                marks: first(lists.marks, found.hits),
                answers: first(lists.answers, found.hits),
                shares: lists.shares,
            };
            print_found(rt, kind, entries)
        }
    }
}

// Eight slices are lent, of 4,096 words each: start words for 2,048 methods.
fn search(rt: &impl Print, file: &[u8], request: Request, wanted: &[u32]) -> io::Result<()> {
    let mut starts = [0u32; 4096];
    let mut triples = [0u32; 4096];
    let mut slots = [0u32; 4096];
    let mut shares = [0u32; 4096];
    let mut offs = [0u32; 4096];
    let mut marks = [0u32; 4096];
    let mut further = [0u32; 4096];
    let mut answers = [0u32; 4096];
    let found = findrefs::find(
        file,
        request.header,
        request.kind,
        wanted,
        &mut starts,
        &mut triples,
        &mut slots,
        &mut shares,
        &mut offs,
        &mut marks,
        &mut further,
        &mut answers,
    );
    let lists = Entries {
        offs: &offs,
        marks: &marks,
        answers: &answers,
        shares: &shares,
    };
    print_answer(rt, found, request.kind, lists)
}

fn answer(rt: &impl Print, file: &[u8], text: &[u8], wanted: &mut [u32]) -> io::Result<()> {
    match request::read_request(text, wanted) {
        Err(why) => print_refusal(rt, why),
        Ok(request) => search(rt, file, request, first(wanted, request.count)),
    }
}

// ---- reading

// A request that fills the buffer is longer than any that has no needless zeros.
fn read_request(rt: &(impl Input + Print), file: &[u8]) -> io::Result<()> {
    let mut room = [0u8; 4096];
    let text: &mut [u8] = &mut room;
    let n = bytes_in::read_full(&mut rt.reader(), text);
    if n == text.len() {
        return print_refusal(rt, Refusal::BadRequest);
    }
    let mut wanted = [0u32; 4096];
    answer(rt, file, first(text, n), &mut wanted)
}

// How many bytes of a file the program reads. A longer one is refused.
const MOST_BYTES: usize = 65536;

// One byte more than is allowed is read, and tells.
fn read_file<R: Files + Input + Print>(rt: &R, mut input: R::File) -> io::Result<()> {
    let mut room = [0u8; MOST_BYTES + 1];
    let file: &mut [u8] = &mut room;
    let n = bytes_in::read_full(&mut input, file);
    drop(input);
    if MOST_BYTES < n {
        return print_refusal(rt, Refusal::FileTooLarge);
    }
    read_request(rt, first(file, n))
}

// The whole program.
pub fn run(rt: &(impl Files + Input + Print + Eprint)) -> io::Result<()> {
    let path = "input.dex";
    let input = match File::open(rt, path) {
        Ok(input) => input,
        Err(why) => return eprintln!(rt; "{path}: {why}"),
    };
    read_file(rt, input)
}
