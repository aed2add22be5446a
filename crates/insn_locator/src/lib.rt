// Confirms entries (`insn_verify` and `locate` of insn_locator.rs): an entry is confirmed where it lies before its method's end and a walk over
// instructions and payloads, from that method's start or its last confirmed entry, lands on it exactly.
// A list that does not fall is taken onward: each method's walk then goes on from where it stands, so that no stretch is walked twice.
// Kept, point 5: the slices of a call are parameters of their own, as C lends them and README lists them.
// Kept, point 7: a const parameter in place of `onward` would make the loop twice.
#![tactic(auto)]

ghost use Rattle.std.specs.Prelude.{◌≡◌, ◌<◌, true, length};
ghost use Rattle.insn_locator.specs.Answers.{tables, entry_of, locate_words, Located};
ghost use Rattle.insn_locator.specs.Alone.{StandsAlone};
ghost use Rattle.insn_locator.specs.Locate.{slot_at, first_of, from_of, tried, answered_at, locate_from, locate_out};
ghost use Rattle.insn_locator.specs.Steps.{Tried, GoesOn, EntryIn, ReadyOn, RunPre, stored, ran_to};

use refusal::Refusal;
use start_words::Pair;

// What a build returned, or any other words.
#[derive(Clone, Copy)]
struct LentTables<'a> {
    base: u32,
    slots: &'a [u32],
    starts: &'a [u32],
    shares: &'a [u32],
}

// The slot of the block that holds an offset; 0 below or past the slots.
fn slot_at(base: u32, slots: &[u32], off: u32) -> u32
    ensures { result ≡ slot_at base slots.now off }
{
    let block = off / 16;
    if block < base {
        return 0;
    }
    words::word_at(slots, (block - base) as usize)
}

// The first method of a slot that is not free.
fn first_of(shares: &[u32], slot: u32) -> Option<u32>
    requires { 0 < slot }
    ensures { result ≡ first_of shares.now slot }
{
    if slot < code_table::SHARED {
        return Some(slot - 1);
    }
    let at = 3 * ((slot - code_table::SHARED) as usize);
    if shares.len() < at + 3 {
        return None;
    }
    Some(shares[at])
}

// Where the walk of a method begins: its last confirmed offset, else its start.
fn from_of(start: u32, confirmed: u32) -> u32
    ensures { result ≡ from_of start confirmed }
{
    if confirmed == 0 { start } else { confirmed }
}

// The answer of an entry whose slot is not free. Past the method nothing is walked. Noted for the method is the offset of a confirmed entry and, onward,
// where the walk to any other stands.
fn confirm(
    buf: &[u8],
    array: Pair,
    slot: u32,
    m: usize,
    off: u32,
    onward: bool,
    last: &mut [u32],
) -> u32
    ensures answers { let goal = tried buf.now array last.old slot m off in
        Tried onward goal (record { answer = result; last = last.new }) }
    ensures goes_on { onward ≡ true → GoesOn buf.now array.start m off last.old last.new }
{
    if array.end <= off {
        return 0;
    }
    let from = from_of(array.start, words::word_at(last, m));
    if from == 0 {
        return 0;
    }
    let walked = insn_walk::walk(buf, from, off);
    if walked.lands {
        words::put(last, m, off);
        return slot;
    }
    if onward {
        let at = walked.at as u32;
        words::put(last, m, at);
    }
    0
}

// The answer of one entry. `last` has for each method its last confirmed offset or, onward, where its walk stands; 0 for none.
fn locate_entry(
    buf: &[u8],
    lent: LentTables<'_>,
    off: u32,
    onward: bool,
    last: &mut [u32],
) -> Option<u32>
    ensures answers { let T = tables lent.entry.base lent.entry.slots.now lent.entry.starts.now lent.entry.shares.now in
        EntryIn onward (answered_at buf.now T last.old off) result last.new }
    ensures goes_on { let T = tables lent.entry.base lent.entry.slots.now lent.entry.starts.now lent.entry.shares.now in
        (onward ≡ true → ReadyOn buf.now T off last.old last.new) }
{
    let slot = slot_at(lent.base, lent.slots, off);
    if slot == 0 {
        return Some(0);
    }
    let m = first_of(lent.shares, slot)? as usize;
    let array = start_words::pair_at(lent.starts, m)?;
    Some(confirm(buf, array, slot, m, off, onward, last))
}

// The answer of one entry: its slot word where it is confirmed, else 0. `last` has the last confirmed offset of each method, 0 for none.
pub fn locate_one(
    buf: &[u8],
    base: u32,
    slots: &[u32],
    starts: &[u32],
    shares: &[u32],
    off: u32,
    last: &mut [u32],
) -> Option<u32>
    ensures answers { let T = tables base slots.now starts.now shares.now in
        entry_of result last.new ≡ answered_at buf.now T last.old off }
{
    let lent = LentTables {
        base,
        slots,
        starts,
        shares,
    };
    locate_entry(buf, lent, off, false, last)
}

// The answers of the entries, one after another; none where a table does not hold what one needs. Entries that do not fall are taken onward.
fn locate_list(
    buf: &[u8],
    lent: LentTables<'_>,
    entries: &[u32],
    onward: bool,
    last: &mut [u32],
    answers: &mut [u32],
) -> Option<()>
    requires { let T = tables lent.base lent.slots.now lent.starts.now lent.shares.now in
        RunPre onward buf.now T last.old entries.now answers.old }
    ensures { let T = tables lent.entry.base lent.entry.slots.now lent.entry.starts.now lent.entry.shares.now in
        let run = locate_from buf.now T last.old entries.now in
        ran_to result answers.new ≡ stored answers.old 0 run }
{
    for (i, &off) in entries.iter().enumerate() {
        answers[i] = locate_entry(buf, lent, off, onward, last)?;
    }
    Some(())
}

// The answer of each entry: its slot word where it is confirmed, else 0. A list that does not fall is linear: the further words then hold where
// each method's walk stands. Its answers are those of lists with each entry alone, and with the tables of a build no list is refused 15.
pub fn locate(
    file: &[u8],
    base: u32,
    slots: &[u32],
    starts: &[u32],
    shares: &[u32],
    entries: &[u32],
    further: &mut [u32],
    answers: &mut [u32],
) -> Result<usize, Refusal>
    ensures gives { let T = tables base slots.now starts.now shares.now in
        let before = locate_words further.old answers.old in
        let after = locate_words further.new answers.new in
        let o = locate_out file.now T entries.now (length before.answers) (length before.further) in
        Located o result before after }
    ensures alone { let T = tables base slots.now starts.now shares.now in
        let before = locate_words further.old answers.old in
        let after = locate_words further.new answers.new in
        StandsAlone file.now T entries.now result before after }
{
    words::clear(further);
    words::clear(answers);
    if refusal::too_large(file.len()) {
        return Err(Refusal::FileTooLarge);
    }
    let n = start_words::count(starts);
    if answers.len() < entries.len() {
        return Err(Refusal::LentTooShort);
    }
    if further.len() < n {
        return Err(Refusal::LentTooShort);
    }
    let onward = entries.is_sorted();
    let lent = LentTables {
        base,
        slots,
        starts,
        shares,
    };
    let run = locate_list(file, lent, entries, onward, &mut further[..n], answers);
    words::clear(further); // what they hold ends with the call
    if run.is_some() {
        return Ok(entries.len());
    }
    words::clear(answers); // those before the fault
    Err(Refusal::LentTable)
}
