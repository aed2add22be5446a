// A text and a query, ASCII case ignored (`matches_name` of string_locator.rs): whether the text contains the query. And whether
// bytes are ASCII.
ghost use Rattle.std.specs.Prelude.{◌≡◌, map, ◌+◌, ◌≤◌, length};
ghost use Rattle.byte_search.specs.Occurs.{Stands};
ghost use Rattle.word_set.specs.Steps.{Decides};
ghost use Rattle.name_filter.specs.HasName.{lower_case, is_ascii, HasName};

// Whether the query stands at a place of the text, case ignored.
fn stands_at(text: &[u8], at: usize, query: &[u8]) -> bool
    requires { at + length query.now ≤ length text.now }
    ensures { Decides (Stands (map lower_case text.now) (map lower_case query.now) at) result }
{
    text[at..at + query.len()].eq_ignore_ascii_case(query)
}

// Whether the text contains the query, case ignored. It is looked for where its first letter stands, small or capital.
pub(crate) fn matches_name(text: &[u8], query: &[u8]) -> bool
    ensures { Decides (HasName text.now query.now) result }
{
    let n = query.len();
    if n == 0 {
        return true;
    }
    if text.len() < n {
        return false;
    }
    let end = text.len() - n + 1;
    let a = query[0].to_ascii_lowercase();
    let b = a.to_ascii_uppercase();
    let mut at = byte_search::memchr2(a, b, text, 0, end);
    while at < end {
        if stands_at(text, at, query) {
            return true;
        }
        at = byte_search::memchr2(a, b, text, at + 1, end);
    }
    false
}

// Whether every byte is below 128. No way out before the end: so the back end makes vector instructions of it.
pub(crate) fn is_ascii(bytes: &[u8]) -> bool
    ensures { result ≡ is_ascii bytes.now }
{
    let mut all: u8 = 0;
    for byte in bytes {
        all = all | *byte;
    }
    all < 128
}
