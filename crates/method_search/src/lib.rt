// Method search (`MethodLocator::locate` of method_locator.rs, substring queries): the methods whose class is among the types found
// and whose name is among the strings found. An empty class or name is absent and asks for nothing.
#![tactic(auto)]

ghost use Rattle.std.specs.Prelude.{◌≡◌, max, length, take};
ghost use Rattle.words.specs.Padded.{zeros};
ghost use Rattle.words.specs.Rising.{Rising};
ghost use Rattle.groups.specs.Built.{group_words};
ghost use Rattle.word_set.specs.Found.{Found, fault_number};
ghost use Rattle.word_set.specs.Steps.{Decides, Matched};
ghost use Rattle.string_search.specs.Search.{area, Owns, search_fault};
ghost use Rattle.method_search.specs.Methods.{query, search_for, search_words, Searched, asked_fault, settles};
ghost use Rattle.method_search.specs.Steps.{asked_of, lent_words, SameLent, Begun, Chosen, Selected};
ghost use Rattle.method_search.specs.Steps.{Among, sieve_of, sieve_for, Fits, Fitting, asked_count, Risen, Stepped};

use refusal::Refusal;
use tinydex::{DexHeader, Table};

// The method ids at `off` of a file, and what they are to have: a class_idx among the types and a name_idx among the names, each if it
// is asked for.
#[derive(Clone, Copy)]
struct Wanted<'a> {
    file: &'a [u8],
    off: u32,
    by_class: bool,
    types: &'a [u32],
    by_name: bool,
    names: &'a [u32],
}

// What is sought, and where: a class and a name, by the keys of a file's strings, in its text from `start` on and before `end`; the types
// by their strings; and the method ids.
#[derive(Clone, Copy)]
struct Sought<'a> {
    file: &'a [u8],
    keys: &'a [u64],
    start: usize,
    end: usize,
    class: &'a [u8],
    name: &'a [u8],
    str_offsets: &'a [u32],
    type_idxs: &'a [u32],
    methods: Table,
}

// The words lent to a search: for the strings and the types found, and for the methods.
#[derive(Drop)]
struct Lent<'a> {
    strings: &'a mut [u32],
    types: &'a mut [u32],
    out: &'a mut [u32],
}

// What speaks against the search before it begins.
fn method_fault(sought: &Sought) -> Result<(), Refusal>
    ensures { fault_number result ≡ asked_fault (asked_of sought.now) }
{
    let file = sought.file;
    string_search::search_fault(
        file,
        0,
        sought.class.len().max(sought.name.len()),
        sought.keys,
    )?;
    if groups::passes_end(file.len(), sought.methods, 8) {
        return Err(Refusal::TableOutside);
    }
    Ok(())
}

// Whether an index is among those found, or nothing was asked.
fn among(asked: bool, found: &[u32], index: u32) -> bool
    requires { Rising found.now }
    ensures { Decides (Among asked found.now index) result }
{
    !asked || word_set::contains(found, index)
}

// Whether the method i fits.
fn method_fits(wanted: &Wanted, i: u32) -> bool
    requires { Risen wanted.now.types.now wanted.now.names.now }
    ensures { Decides (Fits (sieve_of wanted.now) i) result }
{
    let at = (wanted.off as usize) + 8 * (i as usize);
    among(
        wanted.by_class,
        wanted.types,
        structs::u16_at(wanted.file, at),
    ) && among(
        wanted.by_name,
        wanted.names,
        structs::u32_at(wanted.file, at + 4),
    )
}

// One method: it joins the n words held if it fits.
fn method_step(wanted: &Wanted, i: u32, out: &mut [u32], n: usize) -> Option<usize>
    requires { Risen wanted.now.types.now wanted.now.names.now }
    ensures { Stepped (Fits (sieve_of wanted.now) i) i n out.old out.new result }
{
    if method_fits(wanted, i) {
        return word_set::insert(out, n, i);
    }
    Some(n)
}

// How many methods are looked at: none where neither class nor name is given.
fn asked_count(size: u32, by_class: bool, by_name: bool) -> u32
    ensures { result ≡ asked_count size by_class by_name }
{
    if by_class || by_name { size } else { 0 }
}

// All methods that fit, of a table of `size`.
fn collect(wanted: &Wanted, size: u32, out: &mut [u32]) -> Option<usize>
    requires { Risen wanted.now.types.now wanted.now.names.now × (out.old ≡ zeros (length out.old)) }
    ensures { Matched (Fitting (sieve_of wanted.now) (asked_count size wanted.now.by_class wanted.now.by_name)) out.old out.new result }
{
    let count = asked_count(size, wanted.by_class, wanted.by_name);
    let mut n = 0;
    for i in 0..count {
        n = method_step(wanted, i, out, n)?;
    }
    Some(n)
}

// The strings that own a find of the name; the empty name finds nothing.
fn locate_name(sought: &Sought, names: &mut [u32]) -> Result<usize, Refusal>
    ensures { let k = asked_of sought.now in
        let fault = search_fault (length k.area.file) 0 (length k.query.name) k.area.keys in
        Found (Owns k.area k.query.name) fault result names.old names.new }
{
    let name = sought.name;
    if name.is_empty() {
        words::clear(names);
        string_search::search_fault(sought.file, 0, name.len(), sought.keys)?;
        return Ok(0);
    }
    string_search::locate(
        sought.file,
        sought.keys,
        sought.start,
        sought.end,
        name,
        names,
    )
}

// The methods that fit the t types and n strings found. The words lent for these are zero afterwards.
fn select(sought: &Sought, t: usize, n: usize, lent: &mut Lent) -> Result<usize, Refusal>
    requires { Chosen t n (lent_words lent.old) }
    ensures selected { let k = asked_of sought.now in
        let before = lent_words lent.old in
        let fits = sieve_for k (take t before.types) (take n before.strings) in
        Selected fits k.methods.size result before (lent_words lent.new) }
    ensures same_lent { SameLent lent.old lent.new }
{
    let of_class = &mut *lent.types;
    let of_name = &mut *lent.strings;
    let out = &mut *lent.out;
    let wanted = Wanted {
        file: sought.file,
        off: sought.methods.off,
        by_class: 0 < sought.class.len(),
        types: &of_class[..t],
        by_name: 0 < sought.name.len(),
        names: &of_name[..n],
    };
    let found = collect(&wanted, sought.methods.size, out);
    words::clear(of_class);
    words::clear(of_name);
    let Some(m) = found else {
        words::clear(out);
        return Err(Refusal::LentTooShort);
    };
    Ok(m)
}

// Whether a class of `class` bytes whose strings name `types` types settles the result: it is given, and no method fits.
fn settled(class: usize, types: usize) -> bool
    ensures { result ≡ settles class types }
{
    0 < class && types == 0
}

// The search itself, where nothing speaks against it and `out` is zero.
fn search(sought: &Sought, lent: &mut Lent) -> Result<usize, Refusal>
    requires { Begun (asked_of sought.now) lent.old.out.now }
    ensures searched { Searched (asked_of sought.now) result (lent_words lent.old) (lent_words lent.new) }
    ensures same_lent { SameLent lent.old lent.new }
{
    let Ok(t) = type_search::locate(
        sought.file,
        sought.keys,
        sought.start,
        sought.end,
        sought.class,
        sought.str_offsets,
        sought.type_idxs,
        lent.strings,
        lent.types,
    ) else {
        return Err(Refusal::LentTooShort);
    };
    if settled(sought.class.len(), t) {
        return Ok(0);
    }
    let Ok(n) = locate_name(sought, lent.strings) else {
        words::clear(lent.types);
        return Err(Refusal::LentTooShort);
    };
    select(sought, t, n, lent)
}

// The methods that fit. `strings` and `types` are lent for the strings and types found, and are zero afterwards.
// Kept: the slices are parameters of their own, as `ringlinden_method_search` of C lends them.
pub fn locate(
    file: &[u8],
    header: DexHeader,
    keys: &[u64],
    start: usize,
    end: usize,
    class: &[u8],
    name: &[u8],
    str_offsets: &[u32],
    type_idxs: &[u32],
    strings: &mut [u32],
    types: &mut [u32],
    out: &mut [u32],
) -> Result<usize, Refusal>
    ensures gives { let searched = area file.now keys.now start end in
        let table = group_words str_offsets.now type_idxs.now in
        let before = search_words strings.old types.old out.old in
        let after = search_words strings.new types.new out.new in
        Searched (search_for searched (query class.now name.now) table header.methods) result before after }
{
    words::clear(out);
    let sought = Sought {
        file,
        keys,
        start,
        end,
        class,
        name,
        str_offsets,
        type_idxs,
        methods: header.methods,
    };
    if let Err(why) = method_fault(&sought) {
        words::clear(strings);
        words::clear(types);
        return Err(why);
    }
    search(
        &sought,
        &mut Lent {
            strings,
            types,
            out,
        },
    )
}
