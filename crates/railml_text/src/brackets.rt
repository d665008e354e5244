// Up to the first closing.
ghost use Rattle.std.specs.Prelude.{◌≡◌, [], ◌∷◌, option_map};
ghost use Rattle.railml_text.specs.Reading.{past_first};

/// What follows the first of these two bytes in a row.
pub(crate) fn past_two(bytes: &[u8], a: u8, b: u8) -> Option<&[u8]>
    ensures { option_map (λ rest. rest.now) result ≡ past_first (a ∷ b ∷ []) bytes.now }
{
    let mut rest = bytes;
    while let [x, tail @ ..] = rest {
        if let [y, after @ ..] = tail {
            if *x == a && *y == b {
                return Some(after);
            }
        }
        rest = tail;
    }
    None
}

/// What follows the first of these three bytes in a row.
pub(crate) fn past_three(bytes: &[u8], a: u8, b: u8, c: u8) -> Option<&[u8]>
    ensures { option_map (λ rest. rest.now) result ≡ past_first (a ∷ b ∷ c ∷ []) bytes.now }
{
    let mut rest = bytes;
    while let [x, tail @ ..] = rest {
        if let [y, z, after @ ..] = tail {
            if *x == a && *y == b && *z == c {
                return Some(after);
            }
        }
        rest = tail;
    }
    None
}
