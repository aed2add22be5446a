// The finder's second half: the scan of a build's region and locate of its list, over lent buffers.
// Kept, point 1: a kind is asked for by its number, and one that names none is refused 2 in its place (`scan_out`).
// Kept, point 5: the slices of a call are parameters of their own, as C lends them and README lists them.
#![tactic(auto)]

ghost use Rattle.std.specs.Prelude.{◌/◌, length};
ghost use Rattle.start_words.specs.Starts.{first_starts};
ghost use Rattle.code_item_scan.specs.Scan.{asked};
ghost use Rattle.code_item_scan.specs.Answers.{hit_words, hit_room_of};
ghost use Rattle.insn_locator.specs.Answers.{tables, locate_words};
ghost use Rattle.region_search.specs.Search.{search_out, search_words, GivesSearch};

use code_table::Region;
use refusal::Refusal;

// Scan of a region and locate of its list, over the tables that a build returned or any others. Of the start words those of the
// methods are passed on, so that locate asks for as many further words as there are methods, however many start words were lent.
pub fn search(
    file: &[u8],
    region: Region,
    methods: u32,
    kind: u32,
    wanted: &[u32],
    slots: &[u32],
    starts: &[u32],
    shares: &[u32],
    offs: &mut [u32],
    marks: &mut [u32],
    further: &mut [u32],
    answers: &mut [u32],
) -> Result<usize, Refusal>
    ensures { let before = search_words (hit_words offs.old marks.old) (locate_words further.old answers.old) in
        let after = search_words (hit_words offs.new marks.new) (locate_words further.new answers.new) in
        let A = asked kind wanted.now region.start region.end in
        let T = tables (region.start / 16) slots.now (first_starts methods starts.now) shares.now in
        let room = hit_room_of before.hits in
        let o = search_out file.now A T room (length further.old) (length answers.old) in
        GivesSearch o result before after }
{
    words::clear(further);
    words::clear(answers);
    let n = code_item_scan::scan(file, region.start, region.end, kind, wanted, offs, marks)?;
    let located = insn_locator::locate(
        file,
        region.start / 16,
        slots,
        start_words::first(starts, methods),
        shares,
        &offs[..n],
        further,
        answers,
    );
    if let Err(r) = located {
        words::clear(offs);
        words::clear(marks);
        return Err(r);
    }
    Ok(n)
}
