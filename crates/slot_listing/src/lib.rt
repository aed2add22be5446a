// Lists the methods that a slot word stands for (the `Vec<Vec<u32>>` of insn_locator.rs, kept as three words a share).
#![tactic(auto)]

ghost use Rattle.std.specs.Prelude.{◌≡◌, ◌≤◌, ◌++◌, length, drop, Some};
ghost use Rattle.refusal.specs.Outcomes.{Gives};
ghost use Rattle.slot_listing.specs.Listing.{list_out};
ghost use Rattle.slot_listing.specs.Steps.{methods_of, count_of, list_by};

use refusal::Refusal;

// The length of the list of share k.
fn chain_count(shares: &[u32], k: u32) -> Option<usize>
    ensures { result ≡ count_of (methods_of shares.now k) }
{
    let room = shares.len() / 3;
    let mut n = 0;
    let mut at = k as usize;
    while at < room {
        let earlier = shares[3 * at + 2] as usize;
        if earlier == 0 {
            return Some(n + 2);
        }
        if at < earlier {
            return None;
        }
        at = earlier - 1;
        n += 1;
    }
    None
}

// The list of share k, of n methods: written from its end, since a share knows its last method and the share before.
// Kept: the words after the n stay as they are, which the clause says of the slice as it is lent.
fn fill_chain(shares: &[u32], k: u32, n: usize, methods: &mut [u32])
    requires k_value { count_of (methods_of shares.now k) ≡ Some n }
    requires n_in_bounds { n ≤ length methods.old }
    ensures { methods.new ≡ list_by (methods_of shares.now k) ++ drop n methods.old }
{
    let mut at = k as usize;
    for i in (2..n).rev() {
        methods[i] = shares[3 * at + 1];
        at = (shares[3 * at + 2] as usize) - 1;
    }
    methods[0] = shares[3 * at];
    methods[1] = shares[3 * at + 1];
}

// The methods of a slot word: none for a free slot.
pub fn list_slot(shares: &[u32], slot: u32, methods: &mut [u32]) -> Result<usize, Refusal>
    ensures gives { let before = methods.old in
        Gives (list_out shares.now slot (length before)) result before methods.new }
{
    words::clear(methods);
    if slot == 0 {
        return Ok(0);
    }
    if slot < code_table::SHARED {
        if methods.len() == 0 {
            return Err(Refusal::LentTooShort);
        }
        methods[0] = slot - 1;
        return Ok(1);
    }
    let k = slot - code_table::SHARED;
    let n = chain_count(shares, k).ok_or(Refusal::LentTable)?;
    if methods.len() < n {
        return Err(Refusal::LentTooShort);
    }
    fill_chain(shares, k, n, methods);
    Ok(n)
}
