// One class data item walked (insn_locator.rs: `_class_data_parse`): each method with code leaves three words and its start words.
ghost use Rattle.std.specs.Prelude.{◌≡◌, ◌+◌, ◌<◌, ◌^◌, [], ◌∷◌};
ghost use Rattle.std.proofs.lemmas.List.Edits.{sets};
ghost use Rattle.class_data.specs.Walk.{methods_from, class_data_at};
ghost use Rattle.class_data.specs.Stored.{code_words};
ghost use Rattle.class_data.specs.Steps.{kept, stored, seen, StorePre, with_code, StepPre, Onward, MethodsPre, ItemPre};

use super::item;
use refusal::Refusal;

// Three words one after another, each where it fits.
fn put_three(triples: &mut [u32], at: usize, first: u32, last: u32, method: u32)
    requires { at + 2 < 2 ^ 64 }
    ensures { triples.new ≡ sets triples.old at (first ∷ last ∷ method ∷ []) }
{
    words::put(triples, at, first);
    words::put(triples, at + 1, last);
    words::put(triples, at + 2, method);
}

// Keeps code number k: its three words, where they fit, and the method's start words.
fn store(triples: &mut [u32], starts: &mut [u32], k: usize, idx: u32, code: u32, units: u32)
    requires { StorePre k code units }
    ensures { let before = code_words triples.old starts.old in
        let after = code_words triples.new starts.new in
        after ≡ with_code (kept k before) idx code units }
{
    let first = code + 16;
    let end = first + 2 * units;
    put_three(triples, 3 * k, first / 16, (end - 1) / 16, idx);
    start_words::set_array(starts, idx as usize, first, end);
}

// Where a walk over methods stands: the next offset, the index before it, and how many codes were found.
#[derive(Clone, Copy)]
struct At {
    pub pos: usize,
    pub idx: u32,
    pub count: usize,
}

// One method.
fn encoded_method(
    buf: &[u8],
    methods: u32,
    w: At,
    triples: &mut [u32],
    starts: &mut [u32],
) -> Result<At, Refusal>
    requires { StepPre buf.now w }
    ensures { let before = code_words triples.old starts.old in
        let after = code_words triples.new starts.new in
        Onward buf.now methods w result before after }
{
    let method = item::method_code(buf, methods, w.pos, w.idx)?;
    let Some(code) = method.code else {
        return Ok(At {
            pos: method.pos,
            idx: method.idx,
            count: w.count,
        });
    };
    store(triples, starts, w.count, method.idx, code.off, code.units);
    Ok(At {
        pos: method.pos,
        idx: method.idx,
        count: w.count + 1,
    })
}

// The end of a walk: the offset after it, and how many codes were found.
#[derive(Clone, Copy)]
pub(crate) struct Walked {
    pub next: usize,
    pub count: usize,
}

// n methods one after another, with count codes found before them.
// Kept: what it takes stands together at its two calls alone, where a struct would be made and taken apart at once.
fn encoded_methods(
    buf: &[u8],
    methods: u32,
    n: u32,
    pos: usize,
    count: usize,
    triples: &mut [u32],
    starts: &mut [u32],
) -> Result<Walked, Refusal>
    requires { MethodsPre buf.now pos count }
    ensures { let before = code_words triples.old starts.old in
        let after = code_words triples.new starts.new in
        seen result after ≡ stored (kept count before) (methods_from n buf.now methods pos 0) }
{
    let mut at = At { pos, idx: 0, count };
    for _ in 0..n {
        at = encoded_method(buf, methods, at, triples, starts)?;
    }
    Ok(Walked {
        next: at.pos,
        count: at.count,
    })
}

// The class data item at pos, with count codes found before it. A refusal leaves any words.
pub(crate) fn class_data_parse(
    buf: &[u8],
    methods: u32,
    pos: usize,
    count: usize,
    triples: &mut [u32],
    starts: &mut [u32],
) -> Result<Walked, Refusal>
    requires { ItemPre buf.now count }
    ensures { let before = code_words triples.old starts.old in
        let after = code_words triples.new starts.new in
        seen result after ≡ stored (kept count before) (class_data_at buf.now methods pos) }
{
    let found = item::class_methods(buf, pos)?;
    let direct = encoded_methods(
        buf,
        methods,
        found.direct,
        found.pos,
        count,
        triples,
        starts,
    )?;
    encoded_methods(
        buf,
        methods,
        found.virt,
        direct.next,
        direct.count,
        triples,
        starts,
    )
}
