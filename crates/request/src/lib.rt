// The request of the program `refs`, whole: SPEC, The program refs. The header record's seven lines, the kind and the wanted indices.
#![tactic(auto)]

mod lines;

ghost use Rattle.std.specs.Prelude.{◌≡◌, length};
ghost use Rattle.request.specs.Request.{header_lines, rest_lines, indices_at, index_line, most_indices, said_by, request_of, Says};
ghost use Rattle.request.specs.Steps.{stored, view, asked, asked_by, RefusedBy};

use refusal::Refusal;
use tinydex::{DexHeader, Table};

// The record, and the place after its lines.
#[derive(Clone, Copy)]
struct Header {
    header: DexHeader,
    next: usize,
}

// How many indices were read, and the place after them.
#[derive(Clone, Copy)]
struct Indices {
    count: usize,
    next: usize,
}

#[derive(Clone, Copy)]
pub struct Request {
    pub header: DexHeader,
    pub kind: u32,
    pub count: usize,
}

// The lines of the header record, from the text's start.
#[tactic(auto, unfolding(crate::specs::Request::header_lines))]
fn header_lines(text: &[u8]) -> Option<Header>
    ensures { result ≡ header_lines text.now }
{
    let strings = lines::pair_line(text, 0, b"strings=")?;
    let types = lines::pair_line(text, strings.next, b"types=")?;
    let prototypes = lines::pair_line(text, types.next, b"prototypes=")?;
    rest_lines(
        text,
        prototypes.next,
        strings.table,
        types.table,
        prototypes.table,
    )
}

// The record's further lines, after those of the first three tables.
#[tactic(auto, unfolding(crate::specs::Request::rest_lines))]
fn rest_lines(
    text: &[u8],
    at: usize,
    strings: Table,
    types: Table,
    prototypes: Table,
) -> Option<Header>
    ensures { result ≡ rest_lines strings types prototypes text.now at }
{
    let fields = lines::pair_line(text, at, b"fields=")?;
    let methods = lines::pair_line(text, fields.next, b"methods=")?;
    let classes = lines::pair_line(text, methods.next, b"classes=")?;
    let mapoff = lines::number_line(text, classes.next, b"mapoff=")?;
    Some(Header {
        header: DexHeader {
            strings: strings,
            types: types,
            prototypes: prototypes,
            fields: fields.table,
            methods: methods.table,
            classes: classes.table,
            mapoff: mapoff.value,
        },
        next: mapoff.next,
    })
}

// The indices at a place, at most 16, with commas between them.
fn read_indices(text: &[u8], at: usize, wanted: &mut [u32]) -> Option<Indices>
    ensures { view result wanted.new ≡ stored 0 wanted.old (indices_at most_indices text.now at) }
{
    let mut i = at;
    for n in 0..16 {
        let v = text_in::read_number(text, i)?;
        words::put(wanted, n, v.value);
        let Some(next) = text_in::read_word(text, v.next, b",") else {
            return Some(Indices {
                count: n + 1,
                next: v.next,
            });
        };
        i = next;
    }
    None
}

// The line of the indices.
#[tactic(auto, unfolding(crate::specs::Request::index_line))]
fn index_line(text: &[u8], at: usize, wanted: &mut [u32]) -> Option<Indices>
    ensures { view result wanted.new ≡ stored 0 wanted.old (index_line text.now at) }
{
    let start = text_in::read_word(text, at, b"index=")?;
    let indices = read_indices(text, start, wanted)?;
    let next = text_in::read_line_end(text, indices.next)?;
    Some(Indices {
        count: indices.count,
        next: next,
    })
}

// What the text says, with the indices stored as far as there are words. Nothing stands after the last line.
#[tactic(auto, unfolding(crate::specs::Request::said_by, crate::specs::Steps::asked, crate::specs::Steps::asked_by))]
fn read_lines(text: &[u8], wanted: &mut [u32]) -> Option<Request>
    ensures { asked result wanted.new ≡ asked_by wanted.old (said_by text.now) }
{
    let lines = header_lines(text)?;
    let kind = lines::kind_line(text, lines.next)?;
    let indices = index_line(text, kind.next, wanted)?;
    if indices.next != text.len() {
        return None;
    }
    Some(Request {
        header: lines.header,
        kind: kind.value,
        count: indices.count,
    })
}

// A refusal, with every lent word zero.
fn refuse(why: Refusal, wanted: &mut [u32]) -> Result<Request, Refusal>
    ensures { RefusedBy why result wanted.old wanted.new }
{
    words::fill(wanted, 0);
    Err(why)
}

// The request that a text is. A bad line is said first, and words that are too few only once all indices are read. On a refusal all
// lent words are zero.
pub fn read_request(text: &[u8], wanted: &mut [u32]) -> Result<Request, Refusal>
    ensures { Says (request_of text.now (length wanted.old)) result wanted.old wanted.new }
{
    words::clear(wanted);
    let Some(request) = read_lines(text, wanted) else {
        return refuse(Refusal::BadRequest, wanted);
    };
    if wanted.len() < request.count {
        return refuse(Refusal::LentTooShort, wanted);
    }
    Ok(request)
}
