//! The names of vendors and models, in ISO 8859-1.

ghost use Rattle.std.specs.Prelude.{◌≡◌, Some, ◌<◌};
ghost use Rattle.gsd_files.specs.Steps.{seen};
ghost use Rattle.gsd_slaves.specs.Names.{name_fault_of, with_character, two_octets, latin_from, latin_of};

use crate::fault::NameFault;
use arrayvec::ArrayVec;

/// The most characters of a name.
const MOST_CHARACTERS: usize = 32;

/// A name in ISO 8859-1.
pub(crate) type LatinName = ArrayVec<u8, MOST_CHARACTERS>;

/// Returns why a character of ISO 8859-1 can't stand in a name; None if it can.
fn name_fault_of(character: u8) -> Option<NameFault>
    ensures { result ≡ name_fault_of character }
{
    if character == b'"' {
        return Some(NameFault::Quote);
    }
    if character < 32 || 126 < character && character < 160 {
        return Some(NameFault::NoCharacter);
    }
    None
}

/// Returns the name and one more character.
fn with_character(name: LatinName, character: u8) -> Result<LatinName, NameFault>
    ensures { seen (λ more. more.items) result ≡ with_character name.items character }
{
    match name_fault_of(character) {
        Some(fault) => Err(fault),
        None => {
            let mut more = name;
            if more.is_full() {
                return Err(NameFault::LongName);
            }
            more.push(character);
            Ok(more)
        }
    }
}

/// Returns the character of ISO 8859-1 that these two octets are in UTF-8.
fn two_octets(first: u8, second: u8) -> Result<u8, NameFault>
    ensures { result ≡ two_octets first second }
{
    if first < 194 || 195 < first || second < 128 || 191 < second {
        return Err(NameFault::NoCharacter);
    }
    Ok((first - 194) * 64 + second)
}

/// Returns the name and the characters of a text in UTF-8, behind the first octet of a character if there is one.
fn latin_from(name: LatinName, first: Option<u8>, text: &[u8]) -> Result<LatinName, NameFault>
    ensures { seen (λ more. more.items) result ≡ latin_from name.items first text.now }
{
    match text {
        [] => match first {
            None => Ok(name),
            Some(_first) => Err(NameFault::NoCharacter),
        },
        [octet, octets @ ..] => match first {
            None => {
                if *octet < 128 {
                    latin_from(with_character(name, *octet)?, None, octets)
                } else {
                    latin_from(name, Some(*octet), octets)
                }
            }
            Some(first) => {
                let character = two_octets(first, *octet)?;
                latin_from(with_character(name, character)?, None, octets)
            }
        },
    }
}

/// Returns a text in ISO 8859-1. `LongName` for more than 32 characters, `Quote` for a `"`, `NoCharacter` for one that
/// isn't a printable character of ISO 8859-1; the first character that isn't accepted decides.
#[tactic(auto, unfolding(crate::specs::Names::latin_of))]
pub(crate) fn latin_of(text: &str) -> Result<LatinName, NameFault>
    ensures { seen (λ name. name.items) result ≡ latin_of text.now }
{
    latin_from(ArrayVec::new(), None, text.as_bytes())
}
