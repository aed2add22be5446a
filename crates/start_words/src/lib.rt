// The start words of methods in a lent slice, a pair for each method: where its array starts and where it ends, 0 and 0 without code. Who
// stores or reads them does so through this crate, so that it alone says how they lie.
#![tactic(auto)]

ghost use Rattle.std.specs.Prelude.{◌≡◌};
ghost use Rattle.start_words.specs.Starts.{pair_count, pair_of, first_starts, with_array};

// Where a method's array starts, and the first offset after it.
#[derive(Clone, Copy)]
pub struct Pair {
    pub start: u32,
    pub end: u32,
}

// How many pairs there are, one for each method; an odd last word counts for nothing.
pub fn count(starts: &[u32]) -> usize
    ensures { result ≡ pair_count starts.now }
{
    starts.len() / 2
}

// The pair of method m; none without both words.
#[tactic(auto, unfolding(crate::specs::Starts::pair_of))]
pub fn pair_at(starts: &[u32], m: usize) -> Option<Pair>
    ensures { result ≡ pair_of starts.now m }
{
    if m < count(starts) {
        return Some(Pair {
            start: starts[2 * m],
            end: starts[2 * m + 1],
        });
    }
    None
}

// The start words of the first n methods; all of them where there are no more.
#[tactic(auto, unfolding(crate::specs::Starts::first_starts))]
pub fn first(starts: &[u32], n: u32) -> &[u32]
    ensures { result.now ≡ first_starts n starts.now }
{
    let k = 2 * (n as usize);
    if starts.len() < k {
        return starts;
    }
    &starts[..k]
}

// The array of method m starts at a place and ends at another. Nothing changes without both words.
#[tactic(auto, unfolding(crate::specs::Starts::with_array))]
pub fn set_array(starts: &mut [u32], m: usize, at: u32, end: u32)
    ensures { starts.new ≡ with_array starts.old m at end }
{
    if m < count(starts) {
        starts[2 * m] = at;
        starts[2 * m + 1] = end;
    }
}
