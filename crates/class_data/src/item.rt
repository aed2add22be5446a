// One class data item as it is read (insn_locator.rs: the reads of `_class_data_parse` and `_encoded_method_parse`): its sizes, the
// numbers of its fields and methods, and the units of a method's code item. Nothing is stored here.
ghost use Rattle.std.specs.Prelude.{◌≡◌};
ghost use Rattle.class_data.specs.Walk.{skipped, two_at, sizes_at, methods_at};
ghost use Rattle.class_data.specs.Steps.{HeadRead, item_at, MethodRead};

use refusal::Refusal;

// The count of field pairs is taken modulo this, and index sums are below it (`word` of specs/Walk.antt).
const WORD: u64 = 4294967296;

// Indices of methods with code are below this (`most_methods` of specs/Walk.antt).
const MOST_METHODS: u32 = 16777216;

// n numbers.
fn skip_numbers(buf: &[u8], pos: usize, n: u64) -> Result<usize, Refusal>
    ensures { result ≡ skipped n buf.now pos }
{
    let mut at = pos;
    for _ in 0..n {
        at = at + leb128::read_uleb128_len(buf, at)?;
    }
    Ok(at)
}

// Two numbers one after another, and the offset after them.
#[derive(Clone, Copy)]
struct Two {
    first: u32,
    second: u32,
    pos: usize,
}

// Read here for class_sizes alone: with a second caller it would stay a call.
#[tactic(auto, using(leb128::proofs::Published::fast_in), unfolding(crate::specs::Walk::two_at))]
fn read_two(buf: &[u8], pos: usize) -> Result<Two, Refusal>
    ensures { result ≡ two_at buf.now pos }
{
    let first = leb128::read_uleb128_fast(buf, pos)?;
    let p = pos + first.len;
    let second = leb128::read_uleb128_fast(buf, p)?;
    let q = p + second.len;
    Ok(Two {
        first: first.value,
        second: second.value,
        pos: q,
    })
}

// The sizes that open a class data item: how many numbers its fields have, its direct and its virtual methods; and the offset after them.
#[derive(Clone, Copy)]
struct Sizes {
    fields: u64,
    direct: u32,
    virt: u32,
    pos: usize,
}

#[tactic(auto, using(leb128::proofs::Published::fast_in), unfolding(crate::specs::Walk::two_at, crate::specs::Walk::sizes_at))]
fn class_sizes(buf: &[u8], pos: usize) -> Result<Sizes, Refusal>
    ensures { result ≡ sizes_at buf.now pos }
{
    let statics = leb128::read_uleb128_fast(buf, pos)?;
    let p = pos + statics.len;
    let instances = leb128::read_uleb128_fast(buf, p)?;
    let fields = 2 * ((statics.value as u64 + instances.value as u64) % WORD);
    let methods = read_two(buf, p + instances.len)?;
    Ok(Sizes {
        fields,
        direct: methods.first,
        virt: methods.second,
        pos: methods.pos,
    })
}

// How many direct and virtual methods a class data item has, and the offset of the first: the sizes read, the fields skipped.
#[derive(Clone, Copy)]
pub(crate) struct Methods {
    pub direct: u32,
    pub virt: u32,
    pub pos: usize,
}

#[tactic(auto, unfolding(crate::specs::Walk::methods_at))]
pub(crate) fn class_methods(buf: &[u8], pos: usize) -> Result<Methods, Refusal>
    ensures { result ≡ methods_at buf.now pos }
{
    let sizes = class_sizes(buf, pos)?;
    let first = skip_numbers(buf, sizes.pos, sizes.fields)?;
    Ok(Methods {
        direct: sizes.direct,
        virt: sizes.virt,
        pos: first,
    })
}

// The three numbers of a method: its index, its code offset, and the offset after them. Read one by one: see read_two.
#[derive(Clone, Copy)]
struct Head {
    pos: usize,
    idx: u32,
    code: u32,
}

fn method_head(buf: &[u8], pos: usize, idx: u32) -> Result<Head, Refusal>
    ensures { HeadRead buf.now pos idx result }
{
    let diff = leb128::read_uleb128_fast(buf, pos)?;
    let sum = idx as u64 + diff.value as u64;
    if WORD <= sum {
        return Err(Refusal::MethodIndex);
    }
    let p = pos + diff.len;
    let flags = leb128::read_uleb128_fast(buf, p)?;
    let q = p + flags.len;
    let off = leb128::read_uleb128_fast(buf, q)?;
    let next = q + off.len;
    Ok(Head {
        pos: next,
        idx: sum as u32,
        code: off.value,
    })
}

// The units of the code item at a place.
fn code_item(buf: &[u8], code: u32) -> Option<u32>
    ensures { result ≡ item_at buf.now code }
{
    let at = code as usize;
    let units = structs::read_u32(buf, at + 12)?;
    if units == 0 {
        return None;
    }
    if buf.len() < at + 16 + 2 * (units as usize) {
        return None;
    }
    Some(units)
}

// A code item's offset and its units.
#[derive(Clone, Copy)]
pub(crate) struct CodeItem {
    pub off: u32,
    pub units: u32,
}

// A method: the offset after it, its index, and its code where it has one.
#[derive(Clone, Copy)]
pub(crate) struct Method {
    pub pos: usize,
    pub idx: u32,
    pub code: Option<CodeItem>,
}

pub(crate) fn method_code(buf: &[u8], methods: u32, pos: usize, idx: u32) -> Result<Method, Refusal>
    ensures { MethodRead buf.now methods pos idx result }
{
    let head = method_head(buf, pos, idx)?;
    if head.code == 0 {
        return Ok(Method {
            pos: head.pos,
            idx: head.idx,
            code: None,
        });
    }
    if methods <= head.idx {
        return Err(Refusal::MethodIndex);
    }
    if MOST_METHODS <= head.idx {
        return Err(Refusal::MethodIndex);
    }
    let units = code_item(buf, head.code).ok_or(Refusal::CodeOutside)?;
    Ok(Method {
        pos: head.pos,
        idx: head.idx,
        code: Some(CodeItem {
            off: head.code,
            units,
        }),
    })
}
