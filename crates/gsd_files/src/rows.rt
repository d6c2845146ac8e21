//! What a line of a GSD file consists of: its code, its key and its value.

ghost use Rattle.std.specs.Prelude.{◌≡◌, ◌≤◌, ◌<◌, length};
ghost use Rattle.std.specs.Option.{option_map};
ghost use Rattle.gsd_files.specs.Rows.{is_blank, quoted_after, ends_quoted, begins_comment, code_length, skip_blanks, trimmed, code_of, goes_on, body_of, is_key_octet, key_length, key_of, behind_key, place_of, behind_first, argument_in, behind_argument, argument_of, rest_of, behind_equals, value_of};
ghost use Rattle.gsd_files.specs.Steps.{seen};

use crate::cause::Cause;

/// The most octets of a line.
pub const LONGEST_LINE: usize = 2_048;

/// Returns whether the octet is a space, a tab, CR, or the octet that ended files of old systems.
pub(crate) fn is_blank(octet: u8) -> bool
    ensures { result ≡ is_blank octet }
{
    octet == b' ' || octet == b'\t' || octet == b'\r' || octet == 26
}

/// Returns whether a text is open behind an octet.
fn quoted_after(quoted: bool, octet: u8) -> bool
    ensures { result ≡ quoted_after quoted octet }
{
    if octet == b'"' { !quoted } else { quoted }
}

/// Returns whether a text is open at the end of the line.
pub(crate) fn ends_quoted(quoted: bool, line: &[u8]) -> bool
    ensures { result ≡ ends_quoted quoted line.now }
{
    match line {
        [] => quoted,
        [octet, octets @ ..] => ends_quoted(quoted_after(quoted, *octet), octets),
    }
}

/// Returns whether a comment begins with this octet.
fn begins_comment(quoted: bool, octet: u8) -> bool
    ensures { result ≡ begins_comment quoted octet }
{
    !quoted && octet == b';'
}

/// Returns the number of octets of a line before its comment and the blanks before that or before its end.
fn code_length(quoted: bool, line: &[u8]) -> usize
    ensures length { result ≡ code_length quoted line.now }
    ensures most { result ≤ length line.now }
{
    match line {
        [] => 0,
        [octet, octets @ ..] => {
            if begins_comment(quoted, *octet) {
                return 0;
            }
            let count = code_length(quoted_after(quoted, *octet), octets);
            if count == 0 && is_blank(*octet) {
                0
            } else {
                count + 1
            }
        }
    }
}

/// Returns what follows the blanks.
pub(crate) fn skip_blanks(text: &[u8]) -> &[u8]
    ensures text { result.now ≡ skip_blanks text.now }
    ensures most { length result.now ≤ length text.now }
{
    match text {
        [] => text,
        [octet, octets @ ..] => {
            if is_blank(*octet) {
                skip_blanks(octets)
            } else {
                text
            }
        }
    }
}

/// Returns a line without its comment and the blanks around it. `quoted` is whether a text is open before the line.
pub(crate) fn trimmed(quoted: bool, line: &[u8]) -> &[u8]
    ensures { result.now ≡ trimmed quoted line.now }
{
    let (code, _comment) = line.split_at(code_length(quoted, line));
    skip_blanks(code)
}

/// Returns the code of a line: what stands before its comment, without the blanks around it. `quoted` is whether a text
/// is open before the line. `LongLine` for a line of more than 2,048 octets.
pub(crate) fn code_of(quoted: bool, line: &[u8]) -> Result<&[u8], Cause>
    ensures { seen (λ code. code.now) result ≡ code_of quoted line.now }
{
    if line.len() > LONGEST_LINE {
        return Err(Cause::LongLine);
    }
    Ok(trimmed(quoted, line))
}

/// Returns whether the row goes on in the next line.
pub(crate) fn goes_on(code: &[u8]) -> bool
    ensures { result ≡ goes_on code.now }
{
    match code {
        [] => false,
        [octet] => *octet == b'\\',
        [_octet, octets @ ..] => goes_on(octets),
    }
}

/// Returns the code without the `\` at its end.
pub(crate) fn body_of(code: &[u8]) -> &[u8]
    ensures { result.now ≡ body_of code.now }
{
    if goes_on(code) {
        let (body, _mark) = code.split_at(code.len() - 1);
        body
    } else {
        code
    }
}

/// Returns whether the octet may stand in a key.
fn is_key_octet(octet: u8) -> bool
    ensures { result ≡ is_key_octet octet }
{
    !is_blank(octet) && octet != b'=' && octet != b'"' && octet != b'('
}

/// Returns the number of octets of the key.
fn key_length(body: &[u8]) -> usize
    ensures length { result ≡ key_length body.now }
    ensures most { result ≤ length body.now }
{
    match body {
        [] => 0,
        [octet, octets @ ..] => {
            if is_key_octet(*octet) {
                key_length(octets) + 1
            } else {
                0
            }
        }
    }
}

/// Returns the key of a row.
pub(crate) fn key_of(body: &[u8]) -> &[u8]
    ensures { result.now ≡ key_of body.now }
{
    let (key, _value) = body.split_at(key_length(body));
    key
}

/// Returns what follows the key of a row and the blanks behind it.
fn behind_key(body: &[u8]) -> &[u8]
    ensures { result.now ≡ behind_key body.now }
{
    let (_key, rest) = body.split_at(key_length(body));
    skip_blanks(rest)
}

/// Returns the number of octets before the first one that is this mark.
pub(crate) fn place_of(mark: u8, text: &[u8]) -> usize
    ensures place { result ≡ place_of mark text.now }
    ensures most { result ≤ length text.now }
{
    match text {
        [] => 0,
        [octet, octets @ ..] => {
            if *octet == mark {
                0
            } else {
                place_of(mark, octets) + 1
            }
        }
    }
}

/// Returns a text without its first octet and the blanks behind it.
fn behind_first(text: &[u8]) -> &[u8]
    ensures { result.now ≡ behind_first text.now }
{
    match text {
        [] => text,
        [_octet, octets @ ..] => skip_blanks(octets),
    }
}

/// Returns the word between `(` and `)` at the front of a text.
fn argument_in(text: &[u8]) -> &[u8]
    ensures { result.now ≡ argument_in text.now }
{
    match text {
        [] => text,
        [octet, octets @ ..] => {
            if *octet == b'(' {
                let (argument, _rest) = octets.split_at(place_of(b')', octets));
                key_of(skip_blanks(argument))
            } else {
                &[]
            }
        }
    }
}

/// Returns what follows `(`, `)` and what stands between them at the front of a text.
fn behind_argument(text: &[u8]) -> &[u8]
    ensures { result.now ≡ behind_argument text.now }
{
    match text {
        [] => text,
        [octet, octets @ ..] => {
            if *octet == b'(' {
                let (_argument, rest) = octets.split_at(place_of(b')', octets));
                behind_first(rest)
            } else {
                text
            }
        }
    }
}

/// Returns the argument of the key of a row, as `0` of `Text(0)`.
pub(crate) fn argument_of(body: &[u8]) -> &[u8]
    ensures { result.now ≡ argument_of body.now }
{
    argument_in(behind_key(body))
}

/// Returns what follows the key of a row and its argument.
pub(crate) fn rest_of(body: &[u8]) -> &[u8]
    ensures { result.now ≡ rest_of body.now }
{
    behind_argument(behind_key(body))
}

/// Returns what follows `=`; None if there is no `=`.
fn behind_equals(text: &[u8]) -> Option<&[u8]>
    ensures { option_map (λ value. value.now) result ≡ behind_equals text.now }
{
    match text {
        [] => None,
        [octet, octets @ ..] => {
            if *octet == b'=' {
                Some(skip_blanks(octets))
            } else {
                None
            }
        }
    }
}

/// Returns the value of a row, what follows its key, the argument and `=`; None if there is no `=`.
pub(crate) fn value_of(body: &[u8]) -> Option<&[u8]>
    ensures { option_map (λ value. value.now) result ≡ value_of body.now }
{
    behind_equals(rest_of(body))
}
