// The C interface (include/ringlinden.h), a static library: each export calls the function of its name in the crate `ringlinden`, and
// promises the same. A crate is for Rattle or for C, so these stand apart from the library.
#![tactic(auto)]

ghost use Rattle.std.specs.Prelude.{◌≡◌, [], ◌∷◌, ◌++◌, length};
ghost use Rattle.dalvik.specs.Numbers.{le32};
ghost use Rattle.refusal.specs.Outcomes.{Gives as GivesWords};
ghost use Rattle.groups.specs.Built.{group_words, Gives as GivesGroups};
ghost use Rattle.type_locator.specs.Built.{outcome as types_outcome};
ghost use Rattle.method_locator.specs.Built.{method_words, outcome as methods_outcome, Gives as GivesMethods};
ghost use Rattle.string_locator.specs.Map.{Built as BuiltMap};
ghost use Rattle.string_data.specs.Text.{string_text, says as text_says};
ghost use Rattle.word_set.specs.Found.{Found as FoundWords};
ghost use Rattle.string_search.specs.Search.{area, Owns, search_fault};
ghost use Rattle.type_search.specs.Types.{type_words, Searched as TypesSearched};
ghost use Rattle.method_search.specs.Methods.{query as class_and_name, search_for, search_words, Searched as MethodsSearched};
ghost use Rattle.name_filter.specs.Faults.{filter_fault};
ghost use Rattle.name_filter.specs.Names.{Named};
ghost use Rattle.code_table.specs.Build.{build_out};
ghost use Rattle.code_table.specs.RegionEnd.{RegionInside};
ghost use Rattle.code_table.specs.Answer.{built_region, table_words, room_of, GivesBuild};
ghost use Rattle.code_item_scan.specs.Scan.{asked, scan_out};
ghost use Rattle.code_item_scan.specs.Answers.{hit_words, hit_room_of, Gives as GivesScan};
ghost use Rattle.insn_locator.specs.Locate.{locate_out};
ghost use Rattle.insn_locator.specs.Answers.{tables, locate_words, Located};
ghost use Rattle.insn_locator.specs.Alone.{StandsAlone};
ghost use Rattle.slot_listing.specs.Listing.{list_out};
ghost use Rattle.completeness.specs.Completeness.{find_words, call_of, Demand3};
ghost use Rattle.findrefs.specs.Find.{lengths_of, find_out};
ghost use Rattle.findrefs.specs.Gives.{reply_of, GivesFind};
ghost use Rattle.findrefs.specs.Region.{NeverOutside};
ghost use Rattle.findrefs.specs.Alone.{StandAlone};
ghost use Rattle.c_answers.specs.Header.{header_of};
ghost use Rattle.c_answers.specs.Told.{Told, of_answer, of_method_groups, of_string_map, of_string_text, of_code_table, of_found};
ghost use Rattle.c_answers.specs.Group.{GroupAt};

// ---- groups

// The type ids grouped by the string of their descriptor.
#[unsafe(no_mangle)]
pub extern "C" fn ringlinden_type_groups(
    file: &[u8],
    header: &[u32; 13],
    str_offsets: &mut [u32],
    type_idxs: &mut [u32],
    count: &mut usize,
) -> u32
    ensures gives { let before = group_words str_offsets.old type_idxs.old in
        let after = group_words str_offsets.new type_idxs.new in
        let outcome = types_outcome file.now (header_of header.now) before in
        Told of_answer (λ a. GivesGroups outcome a before after) (result ∷ count.new ∷ []) }
{
    ringlinden::ringlinden_type_groups(file, header, str_offsets, type_idxs, count)
}

// The method ids grouped by class and by name.
#[unsafe(no_mangle)]
pub extern "C" fn ringlinden_method_groups(
    file: &[u8],
    header: &[u32; 13],
    clz_offsets: &mut [u32],
    clz_mids: &mut [u32],
    name_offsets: &mut [u32],
    name_mids: &mut [u32],
    clz_count: &mut usize,
    name_count: &mut usize,
) -> u32
    ensures gives { let before = method_words (group_words clz_offsets.old clz_mids.old)
        (group_words name_offsets.old name_mids.old) in
        let after = method_words (group_words clz_offsets.new clz_mids.new)
        (group_words name_offsets.new name_mids.new) in
        let outcome = methods_outcome file.now (header_of header.now) before in
        let told = result ∷ clz_count.new ∷ name_count.new ∷ [] in
        Told of_method_groups (λ a. GivesMethods outcome a before after) told }
{
    ringlinden::ringlinden_method_groups(
        file,
        header,
        clz_offsets,
        clz_mids,
        name_offsets,
        name_mids,
        clz_count,
        name_count,
    )
}

// The group of a key: `count` ids from `start` on, none where the key or its offsets don't fit. No call is refused.
#[unsafe(no_mangle)]
pub extern "C" fn ringlinden_group(
    offsets: &[u32],
    ids: &[u32],
    key: u32,
    start: &mut usize,
    count: &mut usize,
) -> u32
    ensures value { result ≡ 0 }
    ensures group_at { GroupAt offsets.now ids.now key start.new count.new }
{
    ringlinden::ringlinden_group(offsets, ids, key, start, count)
}

// ---- strings

// The string map: the sorted keys and the text area.
#[unsafe(no_mangle)]
pub extern "C" fn ringlinden_string_map(
    file: &[u8],
    header: &[u32; 13],
    keys: &mut [u64],
    count: &mut usize,
    start: &mut usize,
    end: &mut usize,
) -> u32
    ensures gives { let strings = (header_of header.now).strings in
        Told of_string_map (λ a. BuiltMap file.now strings.off strings.size a keys.old keys.new)
        (result ∷ count.new ∷ start.new ∷ end.new ∷ []) }
{
    ringlinden::ringlinden_string_map(file, header, keys, count, start, end)
}

// The bytes of the string whose data stand at an offset: `count` bytes of the file from `start` on.
#[unsafe(no_mangle)]
pub extern "C" fn ringlinden_string_bytes(
    file: &[u8],
    offset: usize,
    start: &mut usize,
    count: &mut usize,
) -> u32
    ensures gives { Told of_string_text (λ a. text_says a ≡ string_text file.now offset)
        (result ∷ start.new ∷ count.new ∷ []) }
{
    ringlinden::ringlinden_string_bytes(file, offset, start, count)
}

// The strings that own a find of the query.
#[unsafe(no_mangle)]
pub extern "C" fn ringlinden_string_search(
    file: &[u8],
    keys: &[u64],
    start: usize,
    end: usize,
    query: &[u8],
    out: &mut [u32],
    count: &mut usize,
) -> u32
    ensures gives { let searched = area file.now keys.now start end in
        let fault = search_fault (length file.now) 1 (length query.now) keys.now in
        Told of_answer (λ a. FoundWords (Owns searched query.now) fault a out.old out.new)
        (result ∷ count.new ∷ []) }
{
    ringlinden::ringlinden_string_search(file, keys, start, end, query, out, count)
}

// The types whose string owns a find of the query.
#[unsafe(no_mangle)]
pub extern "C" fn ringlinden_type_search(
    file: &[u8],
    keys: &[u64],
    start: usize,
    end: usize,
    query: &[u8],
    str_offsets: &[u32],
    type_idxs: &[u32],
    strings: &mut [u32],
    out: &mut [u32],
    count: &mut usize,
) -> u32
    ensures gives { let searched = area file.now keys.now start end in
        let table = group_words str_offsets.now type_idxs.now in
        let before = type_words strings.old out.old in
        let after = type_words strings.new out.new in
        Told of_answer (λ a. TypesSearched searched query.now table a before after) (result ∷ count.new ∷ []) }
{
    ringlinden::ringlinden_type_search(
        file,
        keys,
        start,
        end,
        query,
        str_offsets,
        type_idxs,
        strings,
        out,
        count,
    )
}

// The methods whose class and name fit the queries.
#[unsafe(no_mangle)]
pub extern "C" fn ringlinden_method_search(
    file: &[u8],
    header: &[u32; 13],
    keys: &[u64],
    start: usize,
    end: usize,
    class: &[u8],
    name: &[u8],
    str_offsets: &[u32],
    type_idxs: &[u32],
    strings: &mut [u32],
    types: &mut [u32],
    out: &mut [u32],
    count: &mut usize,
) -> u32
    ensures gives { let searched = area file.now keys.now start end in
        let table = group_words str_offsets.now type_idxs.now in
        let asked = search_for searched (class_and_name class.now name.now) table (header_of header.now).methods in
        let before = search_words strings.old types.old out.old in
        let after = search_words strings.new types.new out.new in
        Told of_answer (λ a. MethodsSearched asked a before after) (result ∷ count.new ∷ []) }
{
    ringlinden::ringlinden_method_search(
        file,
        header,
        keys,
        start,
        end,
        class,
        name,
        str_offsets,
        type_idxs,
        strings,
        types,
        out,
        count,
    )
}

// The given string indices whose string contains the query.
#[unsafe(no_mangle)]
pub extern "C" fn ringlinden_name_filter(
    file: &[u8],
    given: &[u32],
    query: &[u8],
    out: &mut [u32],
    count: &mut usize,
) -> u32
    ensures gives { let s = file.now in
        let Kept = Named s (le32 s 0x3c) query.now given.now in
        let fault = filter_fault s query.now given.now in
        Told of_answer (λ a. FoundWords Kept fault a out.old out.new) (result ∷ count.new ∷ []) }
{
    ringlinden::ringlinden_name_filter(file, given, query, out, count)
}

// ---- code

// The code table: start words, triples, slots and shares, and the region of the code.
#[unsafe(no_mangle)]
pub extern "C" fn ringlinden_code_table(
    file: &[u8],
    header: &[u32; 13],
    starts: &mut [u32],
    triples: &mut [u32],
    slots: &mut [u32],
    shares: &mut [u32],
    region_start: &mut usize,
    region_end: &mut usize,
    codes: &mut usize,
    slot_count: &mut usize,
    share_count: &mut usize,
) -> u32
    ensures gives { let before = table_words starts.old triples.old slots.old shares.old in
        let after = table_words starts.new triples.new slots.new shares.new in
        let outcome = build_out file.now (header_of header.now) (room_of before) in
        let region = region_start.new ∷ region_end.new ∷ [] in
        let counts = codes.new ∷ slot_count.new ∷ share_count.new ∷ [] in
        Told of_code_table (λ a. GivesBuild outcome a before after) (result ∷ region ++ counts) }
    ensures region_inside { let region = region_start.new ∷ region_end.new ∷ [] in
        let counts = codes.new ∷ slot_count.new ∷ share_count.new ∷ [] in
        let n = length file.now in
        Told of_code_table (λ a. RegionInside n (built_region a).start (built_region a).end) (result ∷ region ++ counts) }
{
    ringlinden::ringlinden_code_table(
        file,
        header,
        starts,
        triples,
        slots,
        shares,
        region_start,
        region_end,
        codes,
        slot_count,
        share_count,
    )
}

// The places of a region that look like an instruction with a wanted index, and the index at each.
#[unsafe(no_mangle)]
pub extern "C" fn ringlinden_scan(
    file: &[u8],
    start: u32,
    end: u32,
    kind: u32,
    wanted: &[u32],
    offs: &mut [u32],
    marks: &mut [u32],
    count: &mut usize,
) -> u32
    ensures gives { let before = hit_words offs.old marks.old in
        let after = hit_words offs.new marks.new in
        let outcome = scan_out file.now (asked kind wanted.now start end) (hit_room_of before) in
        Told of_answer (λ a. GivesScan outcome a before after) (result ∷ count.new ∷ []) }
{
    ringlinden::ringlinden_scan(file, start, end, kind, wanted, offs, marks, count)
}

// The slot word of each entry that a walk of the code confirms, else 0.
#[unsafe(no_mangle)]
pub extern "C" fn ringlinden_locate(
    file: &[u8],
    base: u32,
    slots: &[u32],
    starts: &[u32],
    shares: &[u32],
    entries: &[u32],
    further: &mut [u32],
    answers: &mut [u32],
    count: &mut usize,
) -> u32
    ensures gives { let T = tables base slots.now starts.now shares.now in
        let before = locate_words further.old answers.old in
        let after = locate_words further.new answers.new in
        let outcome = locate_out file.now T entries.now (length before.answers) (length before.further) in
        Told of_answer (λ a. Located outcome a before after) (result ∷ count.new ∷ []) }
    ensures alone { let T = tables base slots.now starts.now shares.now in
        let before = locate_words further.old answers.old in
        let after = locate_words further.new answers.new in
        Told of_answer (λ a. StandsAlone file.now T entries.now a before after)
        (result ∷ count.new ∷ []) }
{
    ringlinden::ringlinden_locate(
        file, base, slots, starts, shares, entries, further, answers, count,
    )
}

// The methods of a slot word.
#[unsafe(no_mangle)]
pub extern "C" fn ringlinden_list_slot(
    shares: &[u32],
    slot: u32,
    methods: &mut [u32],
    count: &mut usize,
) -> u32
    ensures gives { let outcome = list_out shares.now slot (length methods.old) in
        Told of_answer (λ a. GivesWords outcome a methods.old methods.new)
        (result ∷ count.new ∷ []) }
{
    ringlinden::ringlinden_list_slot(shares, slot, methods, count)
}

// Build, scan and locate in one, with demand 3 as `findrefs::find` has it, each entry by itself, and never 12 or 15.
#[unsafe(no_mangle)]
pub extern "C" fn ringlinden_find(
    file: &[u8],
    header: &[u32; 13],
    kind: u32,
    wanted: &[u32],
    starts: &mut [u32],
    triples: &mut [u32],
    slots: &mut [u32],
    shares: &mut [u32],
    offs: &mut [u32],
    marks: &mut [u32],
    further: &mut [u32],
    answers: &mut [u32],
    region_start: &mut usize,
    region_end: &mut usize,
    hits: &mut usize,
) -> u32
    ensures gives { let table = table_words starts.old triples.old slots.old shares.old in
        let left = table_words starts.new triples.new slots.new shares.new in
        let before = find_words table (hit_words offs.old marks.old)
        (locate_words further.old answers.old) in
        let after = find_words left (hit_words offs.new marks.new)
        (locate_words further.new answers.new) in
        let outcome = find_out file.now (header_of header.now) kind wanted.now (lengths_of before) in
        let told = result ∷ region_start.new ∷ region_end.new ∷ hits.new ∷ [] in
        Told of_found (λ a. GivesFind outcome a before after) told }
    ensures demand_3 { let table = table_words starts.old triples.old slots.old shares.old in
        let left = table_words starts.new triples.new slots.new shares.new in
        let before = find_words table (hit_words offs.old marks.old)
        (locate_words further.old answers.old) in
        let after = find_words left (hit_words offs.new marks.new)
        (locate_words further.new answers.new) in
        let call = call_of file.now (header_of header.now) kind wanted.now in
        let told = result ∷ region_start.new ∷ region_end.new ∷ hits.new ∷ [] in
        Told of_found (λ a. Demand3 call before (reply_of a) after) told }
    ensures never_outside { let told = result ∷ region_start.new ∷ region_end.new ∷ hits.new ∷ [] in
        Told of_found (λ a. NeverOutside file.now a) told }
    ensures alone { let left = table_words starts.new triples.new slots.new shares.new in
        let after = find_words left (hit_words offs.new marks.new)
        (locate_words further.new answers.new) in
        let call = call_of file.now (header_of header.now) kind wanted.now in
        let told = result ∷ region_start.new ∷ region_end.new ∷ hits.new ∷ [] in
        Told of_found (λ a. StandAlone call a after) told }
{
    ringlinden::ringlinden_find(
        file,
        header,
        kind,
        wanted,
        starts,
        triples,
        slots,
        shares,
        offs,
        marks,
        further,
        answers,
        region_start,
        region_end,
        hits,
    )
}
