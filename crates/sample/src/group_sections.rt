// The sections of `sample` on ids grouped by a key: types by descriptor, methods by class and by name.
// Kept, point 5: these are the parameters of the builds, passed on.
use super::text;
use std::io;
use tinydex::DexHeader;

fn type_groups(
    rt: &impl Print,
    file: &[u8],
    header: DexHeader,
    offsets: &mut [u32],
    ids: &mut [u32],
) -> io::Result<()> {
    match type_locator::build_map(file, header, offsets, ids) {
        Err(why) => text::print_refusal(rt, why),
        Ok(_) => {
            text::print_groups(rt, header.strings.size, "string", "types", |k| {
                type_locator::types_of(offsets, ids, k)
            })
        }
    }
}

pub(crate) fn types(rt: &impl Print, file: &[u8], header: DexHeader) -> io::Result<()> {
    println!(rt; "types by descriptor")?;
    let mut offsets = [0u32; 4096];
    let mut ids = [0u32; 4096];
    type_groups(rt, file, header, &mut offsets, &mut ids)
}

fn method_groups(
    rt: &impl Print,
    file: &[u8],
    header: DexHeader,
    clz_offsets: &mut [u32],
    clz_mids: &mut [u32],
    name_offsets: &mut [u32],
    name_mids: &mut [u32],
) -> io::Result<()> {
    match method_locator::build_map(file, header, clz_offsets, clz_mids, name_offsets, name_mids) {
        Err(why) => text::print_refusal(rt, why),
        Ok(_) => {
            println!(rt; "methods by class")?;
            text::print_groups(rt, header.types.size, "class", "methods", |k| {
                method_locator::clz_slice(clz_offsets, clz_mids, k)
            })?;
            println!(rt; "methods by name")?;
            text::print_groups(rt, header.strings.size, "name", "methods", |k| {
                method_locator::name_slice(name_offsets, name_mids, k)
            })
        }
    }
}

pub(crate) fn methods(rt: &impl Print, file: &[u8], header: DexHeader) -> io::Result<()> {
    let mut clz_offsets = [0u32; 4096];
    let mut clz_mids = [0u32; 4096];
    let mut name_offsets = [0u32; 4096];
    let mut name_mids = [0u32; 4096];
    method_groups(
        rt,
        file,
        header,
        &mut clz_offsets,
        &mut clz_mids,
        &mut name_offsets,
        &mut name_mids,
    )
}
