// ASCII case: the small and the capital letter of a byte, and a byte as it is compared where case is ignored or not.
#![tactic(auto)]

ghost use Rattle.std.specs.Prelude.{◌≡◌};
ghost use Rattle.ascii_case.specs.Case.{lower_case, Capital, folded};

// A letter A to Z becomes its small letter.
#[tactic(auto, using(crate::proofs::Case::lower_same))]
pub fn lower(b: u8) -> u8
    ensures { result ≡ lower_case b }
{
    b.to_ascii_lowercase()
}

// A letter a to z becomes its capital letter.
#[tactic(auto, using(crate::proofs::Case::capital_same))]
pub fn upper(b: u8) -> u8
    ensures { Capital b result }
{
    b.to_ascii_uppercase()
}

// A byte as it is compared: as it stands, or as its small letter where case is ignored.
// Kept: whether case counts is asked by each call; a closure would be made for these two cases alone.
#[tactic(auto, unfolding(crate::specs::Case::folded))]
pub fn fold(any_case: bool, b: u8) -> u8
    ensures { result ≡ folded any_case b }
{
    if any_case { lower(b) } else { b }
}
