// What an id is, as a test.
ghost use Rattle.std.specs.Prelude.{◌≡◌, IsTrue, ◌↔◌, chars};
ghost use Rattle.std.specs.List.{list_all};
ghost use Rattle.plan_core.specs.Topology.{IsId, is_id_character as id_character};

use crate::MAX_ID_BYTES;

/// Whether a character is no control character, no space and no no-break space.
fn is_id_character(c: char) -> bool
    ensures { result ≡ id_character c }
{
    c > ' ' && (c < '\u{7f}' || c > '\u{a0}')
}

/// Whether each character of a text may be in an id.
fn has_id_characters(text: &str) -> bool
    ensures { result ≡ list_all id_character (chars text.now) }
{
    text.chars().all(|c| is_id_character(c))
}

/// Whether a text is an id as a file may have it: 1 to 64 bytes of characters that may be in one.
#[tactic(auto, using(crate::proofs::CharacterLemmas::characters_told, crate::proofs::CharacterLemmas::characters_tell))]
pub fn is_id(text: &str) -> bool
    ensures { IsTrue result ↔ IsId text.now }
{
    !text.is_empty() && text.len() <= MAX_ID_BYTES && has_id_characters(text)
}
