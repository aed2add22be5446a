// What the C interface takes and hands out: the header record as 13 words, the numbers of each kind of answer, and where a group stands.
#![tactic(auto)]

ghost use Rattle.std.specs.Prelude.{◌≡◌, [], ◌∷◌, IfOk, IfErr};
ghost use Rattle.refusal.specs.Refusals.{refusal_number};
ghost use Rattle.c_answers.specs.Header.{header_of};
ghost use Rattle.c_answers.specs.Told.{of_answer, of_method_groups, of_string_map, of_string_text, of_code_table, of_found};
ghost use Rattle.c_answers.specs.Group.{GroupAt};

use code_table::{Built as CodeTable, Region};
use findrefs::Found;
use method_locator::Built as MethodGroups;
use refusal::Refusal;
use string_data::Text;
use string_locator::StringMap;
use tinydex::{DexHeader, Table};

const NO_REGION: Region = Region { start: 0, end: 0 };

// The header record of 13 words.
pub fn header_of(w: &[u32; 13]) -> DexHeader
    ensures { result ≡ header_of w.now }
{
    DexHeader {
        strings: Table {
            off: w[0],
            size: w[1],
        },
        types: Table {
            off: w[2],
            size: w[3],
        },
        prototypes: Table {
            off: w[4],
            size: w[5],
        },
        fields: Table {
            off: w[6],
            size: w[7],
        },
        methods: Table {
            off: w[8],
            size: w[9],
        },
        classes: Table {
            off: w[10],
            size: w[11],
        },
        mapoff: w[12],
    }
}

// ---- the numbers of an answer: the refusal's is returned, 0 for success, and the others go through the references, 0 on a refusal

// The refusal's number, and what is told: the answer, or on a refusal what stands in for it.
fn told<T: Copy>(answer: Result<T, Refusal>, zeros: T) -> (u32, T)
    ensures given { IfOk answer (λ a. (result.0 ≡ 0) × (result.1 ≡ a)) }
    ensures refused { IfErr answer (λ r. (result.0 ≡ refusal_number r) × (result.1 ≡ zeros)) }
{
    match answer {
        Ok(a) => (0, a),
        Err(why) => (u32::from(why), zeros),
    }
}

pub fn tell(answer: Result<usize, Refusal>, count: &mut usize) -> u32
    ensures { (result ∷ count.new ∷ []) ≡ of_answer answer }
{
    let (number, n) = told(answer, 0);
    *count = n;
    number
}

pub fn tell_method_groups(
    answer: Result<MethodGroups, Refusal>,
    clz_count: &mut usize,
    name_count: &mut usize,
) -> u32
    ensures { (result ∷ clz_count.new ∷ name_count.new ∷ []) ≡ of_method_groups answer }
{
    let (number, groups) = told(answer, MethodGroups { clz: 0, name: 0 });
    *clz_count = groups.clz;
    *name_count = groups.name;
    number
}

pub fn tell_string_map(
    answer: Result<StringMap, Refusal>,
    count: &mut usize,
    start: &mut usize,
    end: &mut usize,
) -> u32
    ensures { (result ∷ count.new ∷ start.new ∷ end.new ∷ []) ≡ of_string_map answer }
{
    let (number, map) = told(
        answer,
        StringMap {
            start: 0,
            end: 0,
            count: 0,
        },
    );
    *count = map.count;
    *start = map.start;
    *end = map.end;
    number
}

pub fn tell_string_text(answer: Result<Text, Refusal>, start: &mut usize, count: &mut usize) -> u32
    ensures { (result ∷ start.new ∷ count.new ∷ []) ≡ of_string_text answer }
{
    let (number, text) = told(answer, Text { start: 0, len: 0 });
    *start = text.start;
    *count = text.len;
    number
}

pub fn tell_code_table(
    answer: Result<CodeTable, Refusal>,
    region_start: &mut usize,
    region_end: &mut usize,
    codes: &mut usize,
    slot_count: &mut usize,
    share_count: &mut usize,
) -> u32
    ensures { (result ∷ region_start.new ∷ region_end.new
        ∷ codes.new ∷ slot_count.new ∷ share_count.new ∷ [])
        ≡ of_code_table answer }
{
    let (number, table) = told(
        answer,
        CodeTable {
            region: NO_REGION,
            codes: 0,
            slots: 0,
            shares: 0,
        },
    );
    *region_start = table.region.start as usize;
    *region_end = table.region.end as usize;
    *codes = table.codes;
    *slot_count = table.slots;
    *share_count = table.shares;
    number
}

pub fn tell_found(
    answer: Result<Found, Refusal>,
    region_start: &mut usize,
    region_end: &mut usize,
    hits: &mut usize,
) -> u32
    ensures { (result ∷ region_start.new ∷ region_end.new ∷ hits.new ∷ []) ≡ of_found answer }
{
    let (number, found) = told(
        answer,
        Found {
            region: NO_REGION,
            hits: 0,
        },
    );
    *region_start = found.region.start as usize;
    *region_end = found.region.end as usize;
    *hits = found.hits;
    number
}

// Where a group stands.
#[derive(Clone, Copy)]
pub struct Span {
    pub start: usize,
    pub count: usize,
}

// The group of a key, among the ids of a lent slice.
pub fn group_span(offsets: &[u32], ids: &[u32], key: u32) -> Span
    ensures { GroupAt offsets.now ids.now key result.start result.count }
{
    let k = key as usize;
    let next = k + 1;
    if offsets.len() <= next {
        return Span { start: 0, count: 0 };
    }
    let a = offsets[k] as usize;
    let e = offsets[next] as usize;
    if e < a {
        return Span { start: 0, count: 0 };
    }
    if ids.len() < e {
        return Span { start: 0, count: 0 };
    }
    Span {
        start: a,
        count: e - a,
    }
}
