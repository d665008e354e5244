// A line's text, cut behind its literals.
ghost use Rattle.std.specs.Prelude.{◌≡◌, ◌↔◌, ℕ, List, IsTrue, MatchOption};
ghost use Rattle.hint_log.specs.Parts.{LacksZero, IsCutBehindZero, BeginsHinted};

use outside_io::behind;

/// The text up to its first field `0` that another field follows, and what comes behind the space that follows it.
pub(crate) fn cut_literals(text: &[u8]) -> Option<(&[u8], &[u8])>
    ensures { MatchOption result (LacksZero text.now) (λ p. IsCutBehindZero text.now p.0.now p.1.now) }
{
    for place in 0..text.len() {
        if let Some(rest) = behind(&text[place..], b" 0 ") {
            return Some((&text[..place + 2], rest));
        }
    }
    None
}

/// Whether the text begins as a Learnt or a Refuted line does.
pub(crate) fn begins_hinted(text: &[u8]) -> bool
    ensures { IsTrue result ↔ BeginsHinted text.now }
{
    matches!(text, [b'l', b' ', ..] | [b'r', b' ', ..])
}
