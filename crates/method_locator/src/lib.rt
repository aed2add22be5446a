// The method ids by their class and by their name (method_locator.rs). Thin over `groups`.
#![tactic(auto)]

ghost use Rattle.std.specs.Prelude.{◌≡◌};
ghost use Rattle.groups.specs.Stretch.{stretch_of};
ghost use Rattle.groups.specs.Built.{group_words};
ghost use Rattle.method_locator.specs.Built.{method_words, outcome, Gives};
ghost use Rattle.method_locator.specs.Steps.{BothBuilt};

use groups::{Layout, Width};
use refusal::Refusal;
use tinydex::DexHeader;

// How many method ids are grouped by class and how many by name.
#[derive(Clone, Copy)]
pub struct Built {
    pub clz: usize,
    pub name: usize,
}

// The map by class, and then the map by name. A refusal leaves any words.
fn build_both(
    s: &[u8],
    header: DexHeader,
    clz_offsets: &mut [u32],
    clz_mids: &mut [u32],
    name_offsets: &mut [u32],
    name_mids: &mut [u32],
) -> Result<Built, Refusal>
    ensures { let before = method_words (group_words clz_offsets.old clz_mids.old)
        (group_words name_offsets.old name_mids.old) in
        let after = method_words (group_words clz_offsets.new clz_mids.new)
        (group_words name_offsets.new name_mids.new) in
        BothBuilt (outcome s.now header before) result before after }
{
    let clz_layout = Layout {
        stride: 8,
        place: 0,
        width: Width::Two,
    };
    let name_layout = Layout {
        stride: 8,
        place: 4,
        width: Width::Four,
    };
    let clz = groups::build(
        s,
        header.methods,
        clz_layout,
        header.types.size,
        clz_offsets,
        clz_mids,
    )?;
    let name = groups::build(
        s,
        header.methods,
        name_layout,
        header.strings.size,
        name_offsets,
        name_mids,
    )?;
    Ok(Built { clz, name })
}

// The method ids grouped by class_idx, below the number of types, and by name_idx, below the number of strings. Where one of the two
// refuses, nothing is left of the other.
pub fn build_map(
    s: &[u8],
    header: DexHeader,
    clz_offsets: &mut [u32],
    clz_mids: &mut [u32],
    name_offsets: &mut [u32],
    name_mids: &mut [u32],
) -> Result<Built, Refusal>
    ensures gives { let before = method_words (group_words clz_offsets.old clz_mids.old)
        (group_words name_offsets.old name_mids.old) in
        let after = method_words (group_words clz_offsets.new clz_mids.new)
        (group_words name_offsets.new name_mids.new) in
        Gives (outcome s.now header before) result before after }
{
    let built = build_both(s, header, clz_offsets, clz_mids, name_offsets, name_mids);
    if built.is_err() {
        words::clear(clz_offsets);
        words::clear(clz_mids);
        words::clear(name_offsets);
        words::clear(name_mids);
    }
    built
}

// The methods of a class, as a part of the grouped method ids.
// Kept: two requests by their names, as one call of `groups` each; a common one would be that call again.
pub fn clz_slice<'a>(clz_offsets: &[u32], clz_mids: &'a [u32], class_idx: u32) -> &'a [u32]
    ensures { result.now ≡ stretch_of clz_offsets.now clz_mids.now class_idx }
{
    groups::slice::slice(clz_offsets, clz_mids, class_idx)
}

// The methods of a name, as a part of the grouped method ids.
pub fn name_slice<'a>(name_offsets: &[u32], name_mids: &'a [u32], name_idx: u32) -> &'a [u32]
    ensures { result.now ≡ stretch_of name_offsets.now name_mids.now name_idx }
{
    groups::slice::slice(name_offsets, name_mids, name_idx)
}
