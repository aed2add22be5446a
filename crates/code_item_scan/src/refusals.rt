// The refusals of a scan: 1, 2 and 12 before it, and 4 after it, where a lent slice cannot hold the hits.
// Kept, point 1: a kind is asked for by its number, and one that names none is refused 2 in its place (`scan_out`).
ghost use Rattle.code_item_scan.specs.Answers.{hit_words};
ghost use Rattle.code_item_scan.specs.Steps.{Admitted, Cleared, Settled};

use kinds::Kind;
use refusal::Refusal;

// The refusals that need no scan: 1, 2, 12.
pub(crate) fn admit(len: usize, start: usize, end: usize, kind: u32) -> Result<Kind, Refusal>
    ensures { Admitted len start end kind result }
{
    if refusal::too_large(len) {
        return Err(Refusal::FileTooLarge);
    }
    let k = kinds::kind_of(kind).ok_or(Refusal::UnknownKind)?;
    if end < start {
        return Err(Refusal::RegionOutside);
    }
    if len < end {
        return Err(Refusal::RegionOutside);
    }
    Ok(k)
}

// Both lent slices, the one of the offsets and the one of the indices.
pub(crate) fn clear_both(offs: &mut [u32], marks: &mut [u32])
    ensures { Cleared (hit_words offs.old marks.old) (hit_words offs.new marks.new) }
{
    words::clear(offs);
    words::clear(marks);
}

// The answer for n hits: 4 where a lent slice cannot hold them, and then both are cleared.
pub(crate) fn settle(n: usize, offs: &mut [u32], marks: &mut [u32]) -> Result<usize, Refusal>
    ensures { let before = hit_words offs.old marks.old in
        Settled n before (hit_words offs.new marks.new) result }
{
    if n <= offs.len() {
        if n <= marks.len() {
            return Ok(n);
        }
    }
    clear_both(offs, marks);
    Err(Refusal::LentTooShort)
}
