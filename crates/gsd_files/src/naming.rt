//! The modules that a name stands for.

ghost use Rattle.std.specs.Prelude.{◌≡◌};
ghost use Rattle.std.specs.Option.{option_map};
ghost use Rattle.gsd_files.specs.Naming.{is_word_octet, ends_word, has_words, begins_with_words, some_begins, only_one_with, same_named, module_named};

use crate::facts::Module;

/// Returns whether an octet is a letter, a digit or not ASCII.
fn is_word_octet(octet: u8) -> bool
    ensures { result ≡ is_word_octet octet }
{
    b'0' <= octet && octet <= b'9'
        || b'A' <= octet && octet <= b'Z'
        || b'a' <= octet && octet <= b'z'
        || 128 <= octet
}

/// Returns whether no word goes on in this text.
fn ends_word(text: &[u8]) -> bool
    ensures { result ≡ ends_word text.now }
{
    match text {
        [] => true,
        [octet, ..] => !is_word_octet(*octet),
    }
}

/// Returns whether a name begins with these words.
fn has_words(name: &[u8], words: &[u8]) -> bool
    ensures { result ≡ has_words name.now words.now }
{
    match words {
        [] => ends_word(name),
        [letter, letters @ ..] => match name {
            [] => false,
            [octet, octets @ ..] => *octet == *letter && has_words(octets, letters),
        },
    }
}

/// Returns whether the name of a module begins with these words, of which there is one at least. A word ends before an octet
/// that is no letter and no digit.
pub fn begins_with_words(words: &str, module: &Module) -> bool
    ensures { result ≡ begins_with_words words.now module.now }
{
    words.len() > 0 && has_words(module.name.as_slice(), words.as_bytes())
}

/// Returns whether the name of one of the modules begins with these words.
fn some_begins(words: &str, modules: &[Module]) -> bool
    ensures { result ≡ some_begins words.now modules.now }
{
    match modules {
        [] => false,
        [module, others @ ..] => begins_with_words(words, module) || some_begins(words, others),
    }
}

/// Returns the only module whose name begins with these words; None if there is none, or more than one.
fn only_one_with<'a>(words: &str, modules: &'a [Module]) -> Option<&'a Module>
    ensures { option_map (λ part. part.now) result ≡ only_one_with words.now modules.entry.now }
{
    match modules {
        [] => None,
        [module, others @ ..] => {
            if !begins_with_words(words, module) {
                return only_one_with(words, others);
            }
            if some_begins(words, others) {
                None
            } else {
                Some(module)
            }
        }
    }
}

/// Returns the first module with exactly this name; None if there is none.
fn same_named<'a>(modules: &'a [Module], name: &str) -> Option<&'a Module>
    ensures { option_map (λ part. part.now) result ≡ same_named modules.entry.now name.now }
{
    match modules {
        [] => None,
        [module, others @ ..] => {
            if module.name.as_slice() == name.as_bytes() {
                Some(module)
            } else {
                same_named(others, name)
            }
        }
    }
}

/// Returns the first module with this name, or else the only one whose name begins with these words; None if there is none,
/// or more than one that begins so.
pub fn module_named<'a>(modules: &'a [Module], name: &str) -> Option<&'a Module>
    ensures { option_map (λ part. part.now) result ≡ module_named modules.entry.now name.now }
{
    match same_named(modules, name) {
        Some(module) => Some(module),
        None => only_one_with(name, modules),
    }
}
