// Bytes, cut into lines and fields.
ghost use Rattle.std.specs.Prelude.{◌≡◌, ◌≢◌, ◌↔◌, ◌++◌, ℕ, List, IsTrue, MatchOption};
ghost use Rattle.outside_io.specs.Fields.{LacksByte, IsCutAt, EndsField, IsFrontField};

/// What is before the first of these bytes, and what follows it, if there is one.
fn cut_at(text: &[u8], mark: u8) -> Option<(&[u8], &[u8])>
    ensures { MatchOption result (LacksByte mark text.now) (λ p. IsCutAt mark text.now p.0.now p.1.now) }
{
    for (end, b) in text.iter().enumerate() {
        if *b == mark {
            return Some((&text[..end], &text[end + 1..]));
        }
    }
    None
}

/// The line at the front, without its line feed, and what follows that, if there is a line feed.
pub fn cut_line(text: &[u8]) -> Option<(&[u8], &[u8])>
    ensures { MatchOption result (LacksByte 10 text.now) (λ p. IsCutAt 10 text.now p.0.now p.1.now) }
{
    cut_at(text, b'\n')
}

/// The field at the front of a line, and what follows the space behind it, if there is a space.
pub fn cut_field(line: &[u8]) -> Option<(&[u8], &[u8])>
    ensures { MatchOption result (LacksByte 32 line.now) (λ p. IsCutAt 32 line.now p.0.now p.1.now) }
{
    cut_at(line, b' ')
}

fn ends_field(b: u8) -> bool
    ensures { IsTrue result ↔ EndsField b }
{
    b == b' ' || b == b'\n'
}

/// The field at the front of a text that may have several lines, and what follows it. The space or the line feed that
/// ends it is part of what follows.
pub fn front_field(text: &[u8]) -> (&[u8], &[u8])
    ensures { IsFrontField text.now result.0.now result.1.now }
{
    for (end, b) in text.iter().enumerate() {
        if ends_field(*b) {
            return text.split_at(end);
        }
    }
    (text, b"")
}

/// What follows this front of the text, if it has it.
pub fn behind<'a>(text: &'a [u8], front: &[u8]) -> Option<&'a [u8]>
    ensures { MatchOption result ((rest : List ℕ) → text.now ≢ front.now ++ rest)
        (λ rest. text.now ≡ front.now ++ rest.now) }
{
    text.strip_prefix(front)
}
