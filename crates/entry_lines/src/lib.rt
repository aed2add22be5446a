// The lines of the entries that `refs` lists: SPEC, The program refs. That every line can be made is known before any is printed. Lists of
// unequal length are a fault: an entry without an answer is not one that is unconfirmed.
#![tactic(auto)]

ghost use Rattle.std.specs.Prelude.{◌≡◌, length};
ghost use Rattle.refusal.specs.Outcomes.{Gives};
ghost use Rattle.entry_lines.specs.Line.{line_out, alike, line_at, tried_out};
ghost use Rattle.entry_lines.specs.Gives.{entries, line_words, GivesLine, Tries};
ghost use Rattle.entry_lines.specs.Steps.{RefusedBy};

use refusal::Refusal;

// The lists of the entries, and the shares that their slot words stand for.
#[derive(Clone, Copy)]
pub struct Entries<'a> {
    pub offs: &'a [u32],
    pub marks: &'a [u32],
    pub answers: &'a [u32],
    pub shares: &'a [u32],
}

// The slot's methods listed, and the entry's line with them.
fn line(
    off: u32,
    idx: u32,
    slot: u32,
    shares: &[u32],
    mids: &mut [u32],
    text: &mut [u8],
) -> Result<usize, Refusal>
    ensures gives { let words = length mids.old in
        let bytes = length text.old in
        Gives (line_out off idx slot shares.now words bytes) result text.old text.new }
{
    match slot_listing::list_slot(shares, slot, mids) {
        Err(why) => {
            words::clear(text);
            Err(why)
        }
        Ok(n) => listing_text::entry(off, idx, &mids[..n], text),
    }
}

// Whether each entry has an offset, an index and an answer.
#[tactic(auto, unfolding(crate::specs::Line::alike))]
fn alike(lists: Entries) -> bool
    ensures { result ≡ alike lists.entry.offs.now lists.entry.marks.now lists.entry.answers.now }
{
    let n = lists.offs.len();
    lists.marks.len() == n && lists.answers.len() == n
}

// A refusal, with every lent word and byte zero.
fn refuse(why: Refusal, mids: &mut [u32], text: &mut [u8]) -> Result<usize, Refusal>
    ensures gives { let before = line_words mids.old text.old in
        let after = line_words mids.new text.new in
        RefusedBy why result before after }
{
    words::fill(mids, 0);
    words::clear(text);
    Err(why)
}

// The line of the entry at i.
pub fn line_at(
    lists: Entries,
    i: usize,
    mids: &mut [u32],
    text: &mut [u8],
) -> Result<usize, Refusal>
    ensures gives { let before = line_words mids.old text.old in
        let after = line_words mids.new text.new in
        let listed = entries lists.entry in
        GivesLine (line_at listed (length before.mids) (length before.text) i) result before after }
{
    if !alike(lists) || lists.offs.len() <= i {
        return refuse(Refusal::LentTable, mids, text);
    }
    let answer = line(
        lists.offs[i],
        lists.marks[i],
        lists.answers[i],
        lists.shares,
        mids,
        text,
    );
    words::clear(mids);
    answer
}

// How many entries there are, or the first refusal among their lines: known before anything is printed.
pub fn try_lines(lists: Entries, mids: &mut [u32], text: &mut [u8]) -> Result<usize, Refusal>
    ensures gives { let before = line_words mids.old text.old in
        let after = line_words mids.new text.new in
        let listed = entries lists.entry in
        Tries (tried_out listed (length before.mids) (length before.text)) (length listed.offs) result before after }
{
    if !alike(lists) {
        return refuse(Refusal::LentTable, mids, text);
    }
    for i in 0..lists.offs.len() {
        if let Err(why) = line_at(lists, i, mids, text) {
            return refuse(why, mids, text);
        }
    }
    words::clear(mids);
    words::clear(text);
    Ok(lists.offs.len())
}
