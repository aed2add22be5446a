// The scan of a code region for instructions that name one of the wanted indices (code_item_scan.rs): hits are found one at a time, in a
// set of indices that each call prepares.
// Kept, point 1: a kind is asked for by its number, and one that names none is refused 2 in its place (`scan_out`).
// Kept, point 5: the slices of a call are parameters of their own, as C lends them and README lists them.
// Kept, point 7: `others` belongs to the index set of the clause `finds` of the public `next_hit`, whose signature may not change.
#![tactic(auto)]

mod hits; // hits.rt: the next hit, by fast paths
mod reads; // reads.rt: reads inside a region
mod refusals; // refusals.rt: what is refused, and what a refusal leaves
mod wanted; // wanted.rt: the sets of wanted indices

ghost use Rattle.std.specs.Prelude.{◌≡◌, Bool, false, ℕ, min, length};
ghost use Rattle.dalvik.specs.Instructions.Kind.{strings};
ghost use Rattle.kinds.specs.Kinds.{is_strings, meant};
ghost use Rattle.code_item_scan.specs.Answers.{hit_words, hit_room_of, Gives};
ghost use Rattle.code_item_scan.specs.Scan.{is_in, sought, hits_of, asked, scan_out};
ghost use Rattle.code_item_scan.specs.Next.{index_set_of, Tells, Finds};
ghost use Rattle.code_item_scan.specs.Steps.{Region, Collected};

use kinds::Kind;
use refusal::Refusal;

// A hit, and the start from which to look for the next.
#[derive(Clone, Copy)]
pub struct Found {
    pub off: usize,
    pub mark: u32,
    pub next: usize,
}

// The next hit of a kind in the part of a region that is inside the file, from `start` on. The wanted indices are those of a set: `table`
// has a byte for each index of two bytes, other than 0 where it is wanted, and none is wanted where it has fewer than 65,536 bytes. String
// indices are looked for in `bits`, one bit an index, and past them, where `others` says so, among `words`.
pub fn next_hit(
    file: &[u8],
    kind: Kind,
    table: &[u8],
    bits: &[u64],
    others: bool,
    words: &[u32],
    start: usize,
    end: usize,
) -> Option<Found>
    ensures finds { let s = file.now in
        let set = index_set_of table.now bits.now others words.now in
        ((wants : ℕ → Bool) → Tells set (meant kind) wants → Finds s (sought (meant kind) wants start (min end (length s))) result) }
{
    let to = end.min(file.len());
    if to < start {
        return None;
    }
    if kinds::is_strings(kind) {
        let set = IndexSet {
            table,
            bits,
            others,
            words,
        };
        return hits::next_string(file, to, set, start);
    }
    if table.len() < wanted::INDICES {
        return None;
    }
    hits::next_even(file, to, kind, table, start)
}

// A set of indices, as next_hit is lent it.
#[derive(Clone, Copy)]
struct IndexSet<'a> {
    table: &'a [u8],
    bits: &'a [u64],
    others: bool,
    words: &'a [u32],
}

// A region of a file, and the wanted indices, in any order.
#[derive(Clone, Copy)]
struct Search<'a> {
    file: &'a [u8],
    start: usize,
    end: usize,
    wanted: &'a [u32],
}

// The hits of a region, and how many there are: stored as far as there is room.
fn collect(
    search: Search<'_>,
    kind: Kind,
    set: IndexSet<'_>,
    offs: &mut [u32],
    marks: &mut [u32],
) -> usize
    requires { let held = index_set_of set.table.now set.bits.now set.others set.words.now in
        Region search.file.now search.start search.end × Tells held (meant kind) (λ x. is_in x search.wanted.now) }
    ensures { let before = hit_words offs.old marks.old in
        let after = hit_words offs.new marks.new in
        let q = search.entry in
        Collected (hits_of q.file.now (meant kind) q.wanted.now q.start q.end) before after result }
{
    let mut at = search.start;
    let mut n: usize = 0;
    while let Some(hit) = next_hit(
        search.file,
        kind,
        set.table,
        set.bits,
        set.others,
        set.words,
        at,
        search.end,
    ) {
        words::put(offs, n, hit.off as u32);
        words::put(marks, n, hit.mark);
        n += 1;
        at = hit.next;
    }
    n
}

// The string hits, with a bit for each of 4,194,304 indices: a file within the limit has no more strings.
fn collect_many(search: Search<'_>, offs: &mut [u32], marks: &mut [u32]) -> usize
    requires { Region search.file.now search.start search.end }
    ensures { let before = hit_words offs.old marks.old in
        let after = hit_words offs.new marks.new in
        let q = search.entry in
        Collected (hits_of q.file.now strings q.wanted.now q.start q.end) before after result }
{
    let mut bits = [0u64; 65536];
    let others = wanted::wanted_of(search.wanted, &mut bits);
    let set = IndexSet {
        table: &[0u8; 1],
        bits: &bits,
        others,
        words: search.wanted,
    };
    collect(search, Kind::Strings, set, offs, marks)
}

// The same with a bit for each of 32,768 indices, where these are enough: half a MiB isn't cleared for a small file.
// Kept: the two differ in more than a size, since only the larger set takes wanted words that have no bit.
fn collect_strings(search: Search<'_>, offs: &mut [u32], marks: &mut [u32]) -> usize
    requires { Region search.file.now search.start search.end }
    ensures { let before = hit_words offs.old marks.old in
        let after = hit_words offs.new marks.new in
        let q = search.entry in
        Collected (hits_of q.file.now strings q.wanted.now q.start q.end) before after result }
{
    let mut few = [0u64; 512];
    let others = wanted::wanted_of(search.wanted, &mut few);
    if others {
        return collect_many(search, offs, marks);
    }
    let set = IndexSet {
        table: &[0u8; 1],
        bits: &few,
        others: false,
        words: search.wanted,
    };
    collect(search, Kind::Strings, set, offs, marks)
}

// The hits of a kind other than strings.
fn collect_even(search: Search<'_>, kind: Kind, offs: &mut [u32], marks: &mut [u32]) -> usize
    requires { Region search.file.now search.start search.end × (is_strings (meant kind) ≡ false) }
    ensures { let before = hit_words offs.old marks.old in
        let after = hit_words offs.new marks.new in
        let q = search.entry in
        Collected (hits_of q.file.now (meant kind) q.wanted.now q.start q.end) before after result }
{
    let mut table = [0u8; wanted::INDICES];
    wanted::table_of(search.wanted, &mut table);
    let set = IndexSet {
        table: &table,
        bits: &[0u64; 1],
        others: false,
        words: search.wanted,
    };
    collect(search, kind, set, offs, marks)
}

// The hits of any kind.
fn collect_any(search: Search<'_>, kind: Kind, offs: &mut [u32], marks: &mut [u32]) -> usize
    requires { Region search.file.now search.start search.end }
    ensures { let before = hit_words offs.old marks.old in
        let after = hit_words offs.new marks.new in
        let q = search.entry in
        Collected (hits_of q.file.now (meant kind) q.wanted.now q.start q.end) before after result }
{
    if kinds::is_strings(kind) {
        return collect_strings(search, offs, marks);
    }
    collect_even(search, kind, offs, marks)
}

// The starts in the region from `start` to `end` of a file that look like an instruction of the kind with a wanted index, rising, and
// beside each start the index that stands there. Kinds are 1 to 4 (SPEC, Conventions). `wanted` is in any order and may repeat.
// Refusals 1, 2, 12, 4, in this order.
pub fn scan(
    file: &[u8],
    start: u32,
    end: u32,
    kind: u32,
    wanted: &[u32],
    offs: &mut [u32],
    marks: &mut [u32],
) -> Result<usize, Refusal>
    ensures gives { let before = hit_words offs.old marks.old in
        let after = hit_words offs.new marks.new in
        let for = asked kind wanted.now start end in
        Gives (scan_out file.now for (hit_room_of before)) result before after }
{
    refusals::clear_both(offs, marks);
    let k = refusals::admit(file.len(), start as usize, end as usize, kind)?;
    let search = Search {
        file,
        start: start as usize,
        end: end as usize,
        wanted,
    };
    let n = collect_any(search, k, offs, marks);
    refusals::settle(n, offs, marks)
}
