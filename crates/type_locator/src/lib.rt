// The type ids by the string that names the type (type_locator.rs). Thin over `groups`.
#![tactic(auto)]

ghost use Rattle.std.specs.Prelude.{◌≡◌};
ghost use Rattle.groups.specs.Stretch.{stretch_of};
ghost use Rattle.groups.specs.Built.{group_words, Gives};
ghost use Rattle.type_locator.specs.Built.{outcome};

use groups::{Layout, Width};
use refusal::Refusal;
use tinydex::DexHeader;

// The type ids grouped by descriptor_idx, below the number of strings. The answer's count is that of the grouped type ids.
pub fn build_map(
    s: &[u8],
    header: DexHeader,
    str_offsets: &mut [u32],
    type_idxs: &mut [u32],
) -> Result<usize, Refusal>
    ensures gives { let before = group_words str_offsets.old type_idxs.old in
        let after = group_words str_offsets.new type_idxs.new in
        Gives (outcome s.now header before) result before after }
{
    let types = header.types;
    let layout = Layout {
        stride: 4,
        place: 0,
        width: Width::Four,
    };
    groups::build(
        s,
        types,
        layout,
        header.strings.size,
        str_offsets,
        type_idxs,
    )
}

// The type ids of a string, as a part of the grouped type ids.
pub fn types_of<'a>(str_offsets: &[u32], type_idxs: &'a [u32], str_idx: u32) -> &'a [u32]
    ensures { result.now ≡ stretch_of str_offsets.now type_idxs.now str_idx }
{
    groups::slice::slice(str_offsets, type_idxs, str_idx)
}
