// Runs of a class of bytes.
ghost use Rattle.std.specs.Prelude.{◌≡◌, ◌≤◌, length};
ghost use Rattle.railml_text.specs.Bytes.{is_blank as blank, begins_name as begins, goes_on_name as goes_on};
ghost use Rattle.railml_text.specs.Bytes.{is_in_value as in_value, is_in_text as in_text, front, past};
ghost use Rattle.railml_text.specs.Reading.{begins_blank as first_blank};

/// Whether a byte is white space: a space, a tab, a line feed or a carriage return.
pub fn is_blank(b: u8) -> bool
    ensures { result ≡ blank b }
{
    b == b' ' || b == b'\t' || b == b'\n' || b == b'\r'
}

pub(crate) fn begins_name(b: u8) -> bool
    ensures { result ≡ begins b }
{
    b.is_ascii_alphabetic() || b == b'_' || b == b':' || 128 <= b
}

/// Most bytes of names are small letters, which one test finds.
fn goes_on_name(b: u8) -> bool
    ensures { result ≡ goes_on b }
{
    b.is_ascii_lowercase() || begins_name(b) || b.is_ascii_digit() || b == b'-' || b == b'.'
}

pub(crate) fn begins_blank(bytes: &[u8]) -> bool
    ensures { result ≡ first_blank bytes.now }
{
    match bytes {
        [] => false,
        [b, ..] => is_blank(*b),
    }
}

/// What follows the white space at the front.
pub fn past_blanks(bytes: &[u8]) -> &[u8]
    ensures { result.now ≡ past blank bytes.now }
{
    let mut rest = bytes;
    while let [b, tail @ ..] = rest {
        if !is_blank(*b) {
            return rest;
        }
        rest = tail;
    }
    rest
}

fn past_name(bytes: &[u8]) -> &[u8]
    ensures { result.now ≡ past goes_on bytes.now }
{
    let mut rest = bytes;
    while let [b, tail @ ..] = rest {
        if !goes_on_name(*b) {
            return rest;
        }
        rest = tail;
    }
    rest
}

fn past_value(bytes: &[u8], quote: u8) -> &[u8]
    ensures { result.now ≡ past (in_value quote) bytes.now }
{
    let mut rest = bytes;
    while let [b, tail @ ..] = rest {
        if *b == quote || *b == b'<' {
            return rest;
        }
        rest = tail;
    }
    rest
}

/// What follows the characters other than `<` and `&` at the front.
pub(crate) fn past_text(bytes: &[u8]) -> &[u8]
    ensures past { result.now ≡ past in_text bytes.now }
    ensures shorter { length result.now ≤ length bytes.now }
{
    let mut rest = bytes;
    while let [b, tail @ ..] = rest {
        if *b == b'<' || *b == b'&' {
            return rest;
        }
        rest = tail;
    }
    rest
}

/// The characters of a name at the front, and what follows them.
#[tactic(auto, using(crate::proofs::RunLemmas::take_front, crate::proofs::RunLemmas::past_no_longer))]
pub(crate) fn split_name(bytes: &[u8]) -> (&[u8], &[u8])
    ensures front { result.0.now ≡ front goes_on bytes.now }
    ensures past { result.1.now ≡ past goes_on bytes.now }
{
    let rest = past_name(bytes);
    (&bytes[..bytes.len() - rest.len()], rest)
}

/// The characters of a value at the front, up to its quote or a `<`, and what follows them.
#[tactic(auto, using(crate::proofs::RunLemmas::take_front, crate::proofs::RunLemmas::past_no_longer))]
pub(crate) fn split_value(bytes: &[u8], quote: u8) -> (&[u8], &[u8])
    ensures front { result.0.now ≡ front (in_value quote) bytes.now }
    ensures past { result.1.now ≡ past (in_value quote) bytes.now }
{
    let rest = past_value(bytes, quote);
    (&bytes[..bytes.len() - rest.len()], rest)
}
