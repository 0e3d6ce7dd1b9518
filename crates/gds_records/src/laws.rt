//! What holds of records and of reals, for callers.
ghost use Rattle.std.specs.Prelude.{◌≡◌, ℕ, ◌<◌, ℤ, List, All};
ghost use Rattle.gds_records.specs.Framing.{BeginWithOne};
ghost use Rattle.gds_records.specs.Reals.{IsReal};

/// Law: bytes begin with exactly one record or one fault, wherever they stand. (GDSII Release 6.)
pub fn framing_decides()
    ensures { (at : ℕ) (bytes : List ℕ) → All (λ b. b < 256) bytes → BeginWithOne at bytes }
{}

/// Law: a real has one value at most.
pub fn one_value()
    ensures { (bytes : List ℕ) (v w : ℤ) → IsReal bytes v → IsReal bytes w → v ≡ w }
{}
