// The code table's build (`parse` of insn_locator.rs): from file and record to start words, triples, slots, shares and the code region.
// Kept, point 5: the slices of a call are parameters of their own, as C lends them and README lists them. Clauses name them by `table_words`.
#![tactic(auto)]

ghost use Rattle.std.specs.Prelude.{◌≡◌, List, [], ◌∷◌, ◌+◌, ◌*◌, ◌<◌, ◌≤◌, length};
ghost use Rattle.std.proofs.lemmas.List.Edits.{sets};
ghost use Rattle.dalvik.specs.CodeItem.{Code};
ghost use Rattle.code_table.specs.Slots.{base_of, top_of, joined};
ghost use Rattle.code_table.specs.RegionEnd.{region_end, RegionInside};
ghost use Rattle.code_table.specs.Build.{build_out};
ghost use Rattle.code_table.specs.Answer.{built_region, table_words, room_of, GivesBuild};
ghost use Rattle.code_table.specs.Steps.{most_buckets, Triples, Coded, slot_words, Placeable, PlacedIn};
ghost use Rattle.code_table.specs.Steps.{Cleared, Spanned, AllPlaced, TabledAs, Finished};

use refusal::Refusal;
use tinydex::DexHeader;

// A slot word of a share is this much above the share's number (`shared` of specs/Slots.antt); below it is a method's, plus one.
pub const SHARED: u32 = 2147483648;

// The bytes that hold code: from the first byte of the least bucket up to the end of the greatest, or of the file if that comes first.
#[derive(Clone, Copy)]
pub struct Region {
    pub start: u32,
    pub end: u32,
}

// The region, and how many codes were found and how many slots and words of shares are in use.
#[derive(Clone, Copy)]
pub struct Built {
    pub region: Region,
    pub codes: usize,
    pub slots: usize,
    pub shares: usize,
}

// The slots and shares of all codes: the least bucket, one more than the greatest, and how many words of shares.
#[derive(Clone, Copy)]
struct Tabled {
    base: u32,
    top: u32,
    used: usize,
}

// The least first bucket of n codes, 0 without code.
// Kept: a slice of the codes' words would say n twice, by itself and as a third of its length.
fn least(triples: &[u32], n: usize) -> u32
    requires { 3 * n ≤ length triples.now }
    ensures { (cs : List Code) → Triples triples.now n cs → result ≡ base_of cs }
{
    let mut r = words::word_at(triples, 0);
    for i in 1..n {
        r = r.min(triples[3 * i]);
    }
    r
}

// One more than the greatest last bucket of n codes, 0 without code.
fn greatest(triples: &[u32], n: usize) -> u32
    requires { Coded triples.now n }
    ensures { (cs : List Code) → Triples triples.now n cs → result ≡ top_of cs }
{
    let mut r: u32 = 0;
    for i in 0..n {
        r = r.max(triples[3 * i + 1] + 1);
    }
    r
}

// Three words for each share's number of 31 bits (`most_shares` of specs/Build.antt).
const MOST_SHARES: usize = 6442450944;

// Three words from a place on.
fn put_share(w: &mut [u32], at: usize, a: u32, b: u32, c: u32)
    requires { at + 3 ≤ length w.old }
    ensures { w.new ≡ sets w.old at (a ∷ b ∷ c ∷ []) }
{
    w[at] = a;
    w[at + 1] = b;
    w[at + 2] = c;
}

// The share of the methods that the slot word v stands for, and one more.
fn add_share(shares: &mut [u32], at: usize, v: u32, method: u32)
    requires { (at + 3 ≤ length shares.old) × (0 < v) }
    ensures { shares.new ≡ sets shares.old at (joined v method shares.old) }
{
    if v < SHARED {
        put_share(shares, at, method, v - 1, 0);
    } else {
        let k = v - SHARED;
        let first = words::word_at(shares, 3 * (k as usize));
        put_share(shares, at, first, method, k + 1);
    }
}

// The three words of a code: its first bucket, its last and its method.
#[derive(Clone, Copy)]
struct Triple {
    first: u32,
    last: u32,
    method: u32,
}

// A code in the slots from its first bucket to its last: only the start slot is looked at.
fn place(
    slots: &mut [u32],
    shares: &mut [u32],
    used: usize,
    base: u32,
    code: Triple,
) -> Option<usize>
    requires { Placeable (slot_words slots.old shares.old) used base code }
    ensures { let before = slot_words slots.old shares.old in
        let after = slot_words slots.new shares.new in
        PlacedIn base code used result before after }
{
    let a = (code.first - base) as usize;
    let e = (code.last - base) as usize + 1;
    let v = slots[a];
    if v == 0 {
        slots[a..e].fill(code.method + 1);
        return Some(used);
    }
    if shares.len().min(MOST_SHARES) < used + 3 {
        return None;
    }
    add_share(shares, used, v, code.method);
    slots[a..e].fill(SHARED + (used / 3) as u32);
    Some(used + 3)
}

// The codes placed one after another, up to the first share without room.
fn place_all(
    triples: &[u32],
    n: usize,
    base: u32,
    slots: &mut [u32],
    shares: &mut [u32],
) -> Option<usize>
    requires { Spanned triples.now n base (slot_words slots.old shares.old) }
    ensures { let before = slot_words slots.old shares.old in
        let after = slot_words slots.new shares.new in
        AllPlaced triples.now n base result before after }
{
    let mut used = 0;
    for i in 0..n {
        let at = 3 * i;
        let code = Triple {
            first: triples[at],
            last: triples[at + 1],
            method: triples[at + 2],
        };
        used = place(slots, shares, used, base, code)?;
    }
    Some(used)
}

// The slots and shares of n codes, from their triples.
fn slot_table(triples: &[u32], n: usize, slots: &mut [u32], shares: &mut [u32]) -> Option<Tabled>
    requires { Cleared triples.now n (slot_words slots.old shares.old) }
    ensures { let before = slot_words slots.old shares.old in
        let after = slot_words slots.new shares.new in
        ((cs : List Code) → Triples triples.now n cs → TabledAs cs result before after) }
{
    let base = least(triples, n);
    let top = greatest(triples, n);
    let span = top.saturating_sub(base) as usize;
    if slots.len() < span {
        return None;
    }
    let used = place_all(triples, n, base, slots, shares)?;
    Some(Tabled { base, top, used })
}

// Where the code region of a file of len bytes ends, by one more than the greatest last bucket: with that bucket, or with the file where the
// bucket sticks out.
fn region_end(top: u32, len: usize) -> u32
    requires { top ≤ most_buckets }
    ensures { (cs : List Code) → top ≡ top_of cs → result ≡ region_end len cs }
{
    let end = top * 16;
    len.min(end as usize) as u32
}

// The answer for n codes found in a file of len bytes, whose triples and start words stand in the lent slices.
fn finish(
    len: usize,
    n: usize,
    starts: &mut [u32],
    triples: &mut [u32],
    slots: &mut [u32],
    shares: &mut [u32],
) -> Result<Built, Refusal>
    requires { Cleared triples.old n (slot_words slots.old shares.old) }
    ensures { let before = table_words starts.old triples.old slots.old shares.old in
        let after = table_words starts.new triples.new slots.new shares.new in
        Finished len n result before after }
{
    match slot_table(triples, n, slots, shares) {
        Some(t) => Ok(Built {
            region: Region {
                start: t.base * 16,
                end: region_end(t.top, len),
            },
            codes: n,
            slots: (t.top - t.base) as usize,
            shares: t.used,
        }),
        None => {
            words::clear(starts);
            words::clear(triples);
            words::clear(slots);
            words::clear(shares);
            Err(Refusal::LentTooShort)
        }
    }
}

// The code table of a file. Whatever stood in the lent slices, they hold the table and zeros after it, or zeros alone.
pub fn parse(
    file: &[u8],
    header: DexHeader,
    starts: &mut [u32],
    triples: &mut [u32],
    slots: &mut [u32],
    shares: &mut [u32],
) -> Result<Built, Refusal>
    ensures gives { let before = table_words starts.old triples.old slots.old shares.old in
        let after = table_words starts.new triples.new slots.new shares.new in
        GivesBuild (build_out file.now header (room_of before)) result before after }
    ensures region_inside { RegionInside (length file.now) (built_region result).start (built_region result).end }
{
    words::clear(slots);
    words::clear(shares);
    let n = class_data::codes(file, header, triples, starts)?;
    finish(file.len(), n, starts, triples, slots, shares)
}
