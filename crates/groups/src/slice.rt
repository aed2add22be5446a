// The request for one group of ids (type_locator.rs, method_locator.rs), over the offsets and ids that `groups` builds or any others.
ghost use Rattle.std.specs.Prelude.{◌≡◌};
ghost use Rattle.groups.specs.Stretch.{stretch_of};

// The group of a key as a part of the grouped ids. A key outside the offsets, or offsets that don't fit, give the empty stretch.
pub fn slice<'a>(offsets: &[u32], ids: &'a [u32], key: u32) -> &'a [u32]
    ensures { result.now ≡ stretch_of offsets.now ids.now key }
{
    let k = key as usize;
    let next = k + 1;
    if offsets.len() <= next {
        return &ids[..0];
    }
    let a = offsets[k] as usize;
    let e = offsets[next] as usize;
    if e < a {
        return &ids[..0];
    }
    if ids.len() < e {
        return &ids[..0];
    }
    &ids[a..e]
}
