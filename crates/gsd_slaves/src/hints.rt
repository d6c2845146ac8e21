//! The faults for modules that can't be plugged, with the names that may help.

ghost use Rattle.std.specs.Prelude.{◌≡◌, ◌++◌, ◌∷◌, [], map, IfOk, OnOk, Err, string_bytes};
ghost use Rattle.std.specs.Option.{option_map};
ghost use Rattle.gsd_files.specs.Naming.{some_begins};
ghost use Rattle.gsd_slaves.specs.SlaveRuns.{first_unknown, first_near, nearest, refused, quoted_names, AppendsNames, no_hint, near_name, several_front, unknown_text, IsUnknownText, wrong_front, IsWrongText, of_modules, IsFault};
ghost use Rattle.gsd_files.specs.declared.plugged.PlugFault.TheVariants.{WrongModule};

use crate::fault::SlaveFault;
use gsd_files::{
    Gsd, Module, PlugFault, Slot, begins_with_words, module_named, slot_numbered, takes,
};
use std::alloc::{AllocError, Global};
use std::str;
use strsim::generic_levenshtein;

/// The fewest octets of a name that may stand for one that is two octets away.
const LONG_NAME: usize = 6;

/// Returns the first of the names that doesn't stand for one module.
fn first_unknown<'a>(modules: &[Module], names: &[&'a str]) -> &'a str
    ensures { result.now ≡ first_unknown modules.now (map (λ name. name.now) names.now) }
{
    match names {
        [] => "",
        [name, others @ ..] => match module_named(modules, name) {
            None => name,
            Some(_found) => first_unknown(modules, others),
        },
    }
}

/// Returns the first name of a module that is at most `most` octets away from a name.
fn first_near<'a>(
    alloc: Global,
    most: usize,
    name: &str,
    modules: &'a [Module],
) -> Result<Option<&'a [u8]>, AllocError>
    ensures { IfOk result (λ found. option_map (λ near. near.now) found ≡ first_near most name.now modules.entry.now) }
{
    match modules {
        [] => Ok(None),
        [first, others @ ..] => {
            let other = first.name.as_slice();
            if generic_levenshtein(alloc, name.as_bytes(), other)? <= most {
                return Ok(Some(other));
            }
            first_near(alloc, most, name, others)
        }
    }
}

/// Returns the first name of a module that is one octet away from a name, or else, for a name of at least six octets,
/// the first that is two octets away.
fn nearest<'a>(
    alloc: Global,
    name: &str,
    modules: &'a [Module],
) -> Result<Option<&'a [u8]>, AllocError>
    ensures { IfOk result (λ found. option_map (λ near. near.now) found ≡ nearest name.now modules.entry.now) }
{
    match first_near(alloc, 1, name, modules)? {
        Some(near) => Ok(Some(near)),
        None => {
            if name.len() < LONG_NAME {
                return Ok(None);
            }
            first_near(alloc, 2, name, modules)
        }
    }
}

/// Returns the text for a name that stands for no module.
fn plain_text(alloc: Global, name: &str) -> Result<String, AllocError>
    ensures { IfOk result (λ text. string_bytes text ≡ unknown_text name.now no_hint) }
{
    format!(in alloc; "no module \"{name}\"")
}

/// Returns the text for a name that stands for no module, with a name that is near.
fn near_text(alloc: Global, name: &str, near: &str) -> Result<String, AllocError>
    ensures { IfOk result (λ text. string_bytes text ≡ unknown_text name.now (near_name near.now)) }
{
    format!(in alloc; "no module \"{name}\", perhaps \"{near}\"")
}

/// Returns octets as a text; an empty one if they aren't UTF-8, which names of modules and slots are.
fn text_in(octets: &[u8]) -> &str {
    str::from_utf8(octets).unwrap_or("")
}

/// Appends a name in quotes, behind a space.
fn push_name(text: &mut String, name: &str) -> Result<(), AllocError>
    ensures { OnOk result (string_bytes text.new ≡ string_bytes text.old ++ quoted_names (name.now ∷ [])) }
{
    text.push_str(" \"")?;
    text.push_str(name)?;
    text.push_str("\"")
}

/// Appends the names of those modules that begin with these words.
fn push_beginning(text: &mut String, words: &str, modules: &[Module]) -> Result<(), AllocError>
    ensures { OnOk result (AppendsNames (string_bytes text.old) (string_bytes text.new)) }
{
    match modules {
        [] => Ok(()),
        [module, others @ ..] => {
            if !begins_with_words(words, module) {
                return push_beginning(text, words, others);
            }
            push_name(text, text_in(module.name.as_slice()))?;
            push_beginning(text, words, others)
        }
    }
}

/// Appends the names of those modules that a slot takes.
fn push_taken(text: &mut String, slot: &Slot, modules: &[Module]) -> Result<(), AllocError>
    ensures { OnOk result (AppendsNames (string_bytes text.old) (string_bytes text.new)) }
{
    match modules {
        [] => Ok(()),
        [module, others @ ..] => {
            if !takes(slot, module.reference) {
                return push_taken(text, slot, others);
            }
            push_name(text, text_in(module.name.as_slice()))?;
            push_taken(text, slot, others)
        }
    }
}

/// Returns the front of the text for a name with which the names of several modules begin.
fn several_front(alloc: Global, name: &str) -> Result<String, AllocError>
    ensures { IfOk result (λ text. string_bytes text ≡ several_front name.now) }
{
    format!(in alloc; "several modules begin with \"{name}\":")
}

/// Returns the text for a name with which the names of several modules begin.
fn several_text(alloc: Global, name: &str, modules: &[Module]) -> Result<String, AllocError>
    ensures { IfOk result (λ text. IsUnknownText name.now (string_bytes text)) }
{
    let mut text = several_front(alloc, name)?;
    push_beginning(&mut text, name, modules)?;
    Ok(text)
}

/// Returns whether the name of one of the modules begins with these words.
fn some_begins(words: &str, modules: &[Module]) -> bool
    ensures { result ≡ some_begins words.now modules.now }
{
    match modules {
        [] => false,
        [module, others @ ..] => begins_with_words(words, module) || some_begins(words, others),
    }
}

/// Returns the text for a name that doesn't stand for one module. It has the names of those that begin with it, or else the
/// nearest name if there is one.
fn unknown_text(alloc: Global, name: &str, modules: &[Module]) -> Result<String, AllocError>
    ensures { IfOk result (λ text. IsUnknownText name.now (string_bytes text)) }
{
    if some_begins(name, modules) {
        return several_text(alloc, name, modules);
    }
    match nearest(alloc, name, modules)? {
        None => plain_text(alloc, name),
        Some(near) => near_text(alloc, name, text_in(near)),
    }
}

/// Returns the name that is given for the module at a place, from 1; a `?` if the file has fixed modules or none is named.
fn name_at<'a>(gsd: &Gsd, names: &[&'a str], place: u32) -> &'a str {
    if gsd.facts.fixed {
        return "?";
    }
    match names.get(place.saturating_sub(1) as usize) {
        Some(name) => name,
        None => "?",
    }
}

/// Returns the front of the text for a slot that doesn't take its module.
fn wrong_front(alloc: Global, number: u32, slot: &str, part: &str) -> Result<String, AllocError>
    ensures { IfOk result (λ text. string_bytes text ≡ wrong_front number slot.now part.now) }
{
    format!(in alloc; "slot {number} \"{slot}\" does not take \"{part}\", but:")
}

/// Returns the text for a slot with this number that doesn't take this module.
fn wrong_text(
    alloc: Global,
    number: u32,
    slot: &Slot,
    part: &str,
    modules: &[Module],
) -> Result<String, AllocError>
    ensures { IfOk result (λ text. IsWrongText number (string_bytes text)) }
{
    let mut text = wrong_front(alloc, number, text_in(slot.name.as_slice()), part)?;
    push_taken(&mut text, slot, modules)?;
    Ok(text)
}

/// Returns the fault for a slot with this number that doesn't take its module.
fn wrong_module(alloc: Global, gsd: &Gsd, names: &[&str], number: u32) -> SlaveFault
    ensures { IsFault (Err (of_modules (WrongModule number))) result }
{
    let part = name_at(gsd, names, number);
    match slot_numbered(number, gsd.slots.as_slice()) {
        None => SlaveFault::Modules(PlugFault::WrongModule(number)),
        Some(slot) => match wrong_text(alloc, number, slot, part, gsd.modules.as_slice()) {
            Ok(text) => SlaveFault::WrongModule(number, text),
            Err(_) => SlaveFault::OutOfMemory,
        },
    }
}

/// Returns the fault for modules that can't be plugged.
pub(crate) fn refused(alloc: Global, gsd: &Gsd, names: &[&str], fault: PlugFault) -> SlaveFault
    ensures { IsFault (Err (refused gsd.now.modules.items (map (λ name. name.now) names.now) fault)) result }
{
    let modules = gsd.modules.as_slice();
    match fault {
        PlugFault::UnknownModule => match unknown_text(
            alloc,
            first_unknown(modules, names),
            modules,
        ) {
            Ok(text) => SlaveFault::UnknownModule(text),
            Err(_) => SlaveFault::OutOfMemory,
        },
        PlugFault::WrongModule(number) => wrong_module(alloc, gsd, names, number),
        PlugFault::ChooseModules => SlaveFault::Modules(fault),
        PlugFault::NoModules => SlaveFault::Modules(fault),
        PlugFault::ManyModules(_) => SlaveFault::Modules(fault),
        PlugFault::NoDefault(_) => SlaveFault::Modules(fault),
        PlugFault::ManyOctets => SlaveFault::Modules(fault),
        PlugFault::ManyParameters => SlaveFault::Modules(fault),
        PlugFault::NoConfiguration(_) => SlaveFault::Modules(fault),
        PlugFault::ManyInputs(_, _) => SlaveFault::Modules(fault),
        PlugFault::ManyOutputs(_, _) => SlaveFault::Modules(fault),
        PlugFault::ManyData(_, _) => SlaveFault::Modules(fault),
    }
}
