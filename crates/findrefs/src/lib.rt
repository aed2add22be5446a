// The finder, whole (the source's manager): the code table's build, the scan of its region and locate of the scan's list, over lent
// buffers. What a user is promised, demand 3, is a clause of its contract (crate completeness).
// Kept, point 1: a kind is asked for by its number, and one that names none is refused 2 in its place (`scan_out`).
// Kept, point 5: the slices of a call are parameters of their own, as C lends them and README lists them.
#![tactic(auto)]

ghost use Rattle.code_table.specs.Answer.{table_words};
ghost use Rattle.code_item_scan.specs.Answers.{hit_words};
ghost use Rattle.insn_locator.specs.Answers.{locate_words};
ghost use Rattle.completeness.specs.Completeness.{find_words, call_of, Demand3};
ghost use Rattle.findrefs.specs.Find.{lengths_of, find_out};
ghost use Rattle.findrefs.specs.Gives.{GivesFind, reply_of};
ghost use Rattle.findrefs.specs.Region.{NeverOutside};
ghost use Rattle.findrefs.specs.Alone.{StandAlone};
ghost use Rattle.findrefs.specs.Steps.{four, Cleared};

use code_table::Region;
use refusal::Refusal;
use tinydex::DexHeader;

// The code region and how many entries the scan found.
#[derive(Clone, Copy)]
pub struct Found {
    pub region: Region,
    pub hits: usize,
}

// Four lent slices become zero.
fn clear_four(a: &mut [u32], b: &mut [u32], c: &mut [u32], d: &mut [u32])
    ensures { let before = four a.old b.old c.old d.old in
        let after = four a.new b.new c.new d.new in
        Cleared before after }
{
    words::clear(a);
    words::clear(b);
    words::clear(c);
    words::clear(d);
}

// Every instruction of a kind that names a wanted index. Whatever stood in the lent slices, they hold afterwards: the build's start words,
// triples, slots and shares; the scan's offsets and the indices beside them; for each entry its slot word, or 0 where no walk confirms
// it; and zeros in the further words, of which as many are needed as there are methods. On a refusal every lent word is zero. It never refuses
// 12, since the region that it scans lies in the file, nor 15, since the tables are a build's. An entry's answer is its own, whatever else is
// wanted.
pub fn find(
    file: &[u8],
    header: DexHeader,
    kind: u32,
    wanted: &[u32],
    starts: &mut [u32],
    triples: &mut [u32],
    slots: &mut [u32],
    shares: &mut [u32],
    offs: &mut [u32],
    marks: &mut [u32],
    further: &mut [u32],
    answers: &mut [u32],
) -> Result<Found, Refusal>
    ensures gives { let lent = table_words starts.old triples.old slots.old shares.old in
        let left = table_words starts.new triples.new slots.new shares.new in
        let before = find_words lent (hit_words offs.old marks.old) (locate_words further.old answers.old) in
        let after = find_words left (hit_words offs.new marks.new) (locate_words further.new answers.new) in
        GivesFind (find_out file.now header kind wanted.now (lengths_of before)) result before after }
    ensures demand_3 { let lent = table_words starts.old triples.old slots.old shares.old in
        let left = table_words starts.new triples.new slots.new shares.new in
        let before = find_words lent (hit_words offs.old marks.old) (locate_words further.old answers.old) in
        let after = find_words left (hit_words offs.new marks.new) (locate_words further.new answers.new) in
        Demand3 (call_of file.now header kind wanted.now) before (reply_of result) after }
    ensures never_outside { NeverOutside file.now result }
    ensures alone { let left = table_words starts.new triples.new slots.new shares.new in
        let after = find_words left (hit_words offs.new marks.new) (locate_words further.new answers.new) in
        StandAlone (call_of file.now header kind wanted.now) result after }
{
    let built = match code_table::parse(file, header, starts, triples, slots, shares) {
        Err(r) => {
            clear_four(offs, marks, further, answers);
            return Err(r);
        }
        Ok(built) => built,
    };
    let region = built.region;
    match region_search::search(
        file,
        region,
        header.methods.size,
        kind,
        wanted,
        slots,
        starts,
        shares,
        offs,
        marks,
        further,
        answers,
    ) {
        Ok(hits) => Ok(Found { region, hits }),
        Err(r) => {
            clear_four(starts, triples, slots, shares);
            Err(r)
        }
    }
}
