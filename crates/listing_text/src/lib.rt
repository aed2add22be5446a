// What the program `refs` prints, as text in a lent slice of bytes: SPEC, The program refs. The head's two lines, the line of one entry and
// the line of a refusal. Text that doesn't fit is refused with 4, and then every lent byte is zero.
// Kept, point 1: a kind is asked for by its number, and one that names none is refused 2 (`head_out`).
#![tactic(auto)]

ghost use Rattle.std.specs.Prelude.{length};
ghost use Rattle.refusal.specs.Outcomes.{Gives};
ghost use Rattle.text_out.specs.Write.{Writes};
ghost use Rattle.listing_text.specs.Text.{more, mids_text, kind_name, head_out, entry_out, refusal_out};

use refusal::Refusal;

// Further methods, each with its comma.
fn put_rest(out: &mut [u8], at: usize, methods: &[u32]) -> usize
    ensures { Writes out.old at (more methods.now) out.new result }
{
    let mut p = at;
    for method in methods {
        p = text_out::put_named(out, p, b",", *method as u64);
    }
    p
}

// The methods with commas between them, or `-` where there is none.
#[tactic(auto, using(crate::proofs::TextLaws::mids_none))]
fn put_mids(out: &mut [u8], at: usize, mids: &[u32]) -> usize
    ensures { Writes out.old at (mids_text mids.now) out.new result }
{
    let Some((first, rest)) = mids.split_first() else {
        return text_out::put(out, at, b"-");
    };
    let a = text_out::put_number(out, at, *first as u64);
    put_rest(out, a, rest)
}

// The name of a kind; any number but 1, 2 and 3 is taken for 4.
// Kept: the name goes into lent bytes, as all text here; Display would write it to a formatter first.
#[tactic(auto, unfolding(crate::specs::Text::kind_name))]
fn put_kind(out: &mut [u8], at: usize, kind: u32) -> usize
    ensures { Writes out.old at (kind_name kind) out.new result }
{
    match kind {
        1 => text_out::put(out, at, b"string"),
        2 => text_out::put(out, at, b"type"),
        3 => text_out::put(out, at, b"field"),
        _ => text_out::put(out, at, b"method"),
    }
}

// The head: the kind by its name, and how many entries there are.
pub fn head(kind: u32, hits: usize, out: &mut [u8]) -> Result<usize, Refusal>
    ensures { Gives (head_out kind hits (length out.old)) result out.old out.new }
{
    words::clear(out);
    if kind == 0 || 4 < kind {
        return Err(Refusal::UnknownKind);
    }
    let a = text_out::put(out, 0, b"kind=");
    let b = put_kind(out, a, kind);
    let c = text_out::put_named(out, b, b"\nhits=", hits as u64);
    text_out::end_line(out, c)
}

// The line of an entry: its offset, the index that it names and its methods.
pub fn entry(off: u32, idx: u32, mids: &[u32], out: &mut [u8]) -> Result<usize, Refusal>
    ensures { Gives (entry_out off idx mids.now (length out.old)) result out.old out.new }
{
    words::clear(out);
    let a = text_out::put_named(out, 0, b"off=", off as u64);
    let b = text_out::put_named(out, a, b" idx=", idx as u64);
    let c = text_out::put(out, b, b" mids=");
    let d = put_mids(out, c, mids);
    text_out::end_line(out, d)
}

// The line of a refusal.
pub fn refused(why: Refusal, out: &mut [u8]) -> Result<usize, Refusal>
    ensures { Gives (refusal_out why (length out.old)) result out.old out.new }
{
    words::clear(out);
    let a = text_out::put_named(out, 0, b"refusal=", u32::from(why) as u64);
    text_out::end_line(out, a)
}
