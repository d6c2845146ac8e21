//! The lines of a text.

ghost use Rattle.std.specs.Prelude.{◌≡◌, ◌<◌, ◌∷◌, [], IfSome, length, position, MatchOption};
ghost use Rattle.gsd_files.specs.Files.{is_lf, lines_of, last_row};

/// Returns whether the octet ends a line.
fn is_lf(octet: u8) -> bool
    ensures { result ≡ is_lf octet }
{
    octet == b'\n'
}

/// Returns the index of the first LF.
fn lf_in(text: &[u8]) -> Option<usize>
    ensures index { result ≡ position is_lf text.now }
    ensures bound { IfSome result (λ index. index < length text.now) }
{
    text.iter().position(|octet| is_lf(*octet))
}

/// Returns the first line of a text, and the text after its LF, if it has one.
pub(crate) fn first_line(text: &[u8]) -> (&[u8], Option<&[u8]>)
    ensures lines { MatchOption result.1 (lines_of text.now ≡ result.0.now ∷ [])
        (λ rest. lines_of text.now ≡ result.0.now ∷ lines_of rest.now) }
    ensures shorter { IfSome result.1 (λ rest. length rest.now < length text.now) }
{
    match lf_in(text) {
        Some(index) => (&text[..index], Some(&text[index + 1..])),
        None => (text, None),
    }
}

/// Returns the number of the last line, from 1. An LF at the end begins no further one.
pub(crate) fn last_row(text: &[u8]) -> usize
    ensures { result ≡ last_row text.now }
{
    let before = &text[..text.len().saturating_sub(1)];
    before.iter().filter(|octet| is_lf(**octet)).count() + 1
}
