// What holds of the definitions alone.
ghost use Rattle.std.specs.Prelude.{◌≡◌, ◌<◌, ◌^◌, ℕ, List, ℤ, unsigned_abs};
ghost use Rattle.rail_mileage.specs.Metres.{MetresParts, IsMetres, mileage_told};
ghost use Rattle.rail_mileage.specs.MetresText.{metres_text};

/// A text is a number of metres in at most one way.
pub fn one_reading()
    ensures { (text : List ℕ) (a b : MetresParts) → IsMetres text a → IsMetres text b → a ≡ b }
{}

/// The text of a mileage above -10^15 and below 10^15 micrometres is a number of metres, and it is
/// that mileage.
pub fn written_is_read()
    ensures { (z : ℤ) → unsigned_abs z < 10 ^ 15 → (parts : MetresParts) × IsMetres (metres_text z) parts
        × (mileage_told parts ≡ record { 0 = z }) }
{}
