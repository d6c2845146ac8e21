//! Lists the modules and slots of a GSD file.

ghost use Rattle.std.specs.Prelude.{◌≡◌, ◌++◌, OnOk, IfOk, IfErr, Ok};
ghost use Rattle.gsd_slaves.specs.ModuleLists.{row_end, module_row, module_rows, default_end, taken_row, taken_rows, slot_row, slot_rows, list_outcome};
ghost use Rattle.gsd_slaves.specs.SlaveRuns.{IsFault, Leaves};

use crate::fault::SlaveFault;
use dp_text::{Text, write_whole};
use gsd_files::{GsdReadFault, Module, Slot, is_default, read_gsd, takes};
use std::alloc::{AllocError, Global};
use std::io::Write;

/// Appends octets.
fn push(out: &mut Vec<u8>, octets: &[u8]) -> Result<(), AllocError>
    ensures { OnOk result (out.new.items ≡ out.old.items ++ octets.now) }
{
    out.extend_from_slice(octets)
}

/// Returns the end of the row of a module, by whether it is plugged from the start.
fn row_end(preset: bool) -> &'static [u8]
    ensures { result.now ≡ row_end preset }
{
    if preset { b" preset\n" } else { b"\n" }
}

/// Appends the row of a module.
#[tactic(auto, unfolding(crate::specs::ModuleLists::module_row))]
fn push_row(out: &mut Vec<u8>, part: &Module) -> Result<(), AllocError>
    ensures { OnOk result (out.new.items ≡ out.old.items ++ module_row part.now) }
{
    let mut hex = Text::new();
    hex.push_hex(part.octets.as_slice());
    push(out, b"\"")?;
    push(out, part.name.as_slice())?;
    push(out, b"\" ")?;
    push(out, hex.as_bytes())?;
    push(out, row_end(part.preset))?;
    Ok(())
}

/// Appends a row for each module.
fn push_rows(out: &mut Vec<u8>, modules: &[Module]) -> Result<(), AllocError>
    ensures { OnOk result (out.new.items ≡ out.old.items ++ module_rows modules.now) }
{
    match modules {
        [] => Ok(()),
        [first, others @ ..] => {
            push_row(out, first)?;
            push_rows(out, others)
        }
    }
}

/// Returns the end of the row of a module with this reference that a slot takes, by whether it is the slot's default.
fn default_end(slot: &Slot, reference: Option<u32>) -> &'static [u8]
    ensures { result.now ≡ default_end slot.now reference }
{
    match reference {
        None => b"\n",
        Some(reference) => {
            if is_default(reference, slot.default) {
                b" default\n"
            } else {
                b"\n"
            }
        }
    }
}

/// Appends the row of a module that a slot takes.
#[tactic(auto, unfolding(crate::specs::ModuleLists::taken_row))]
fn push_taken_row(out: &mut Vec<u8>, slot: &Slot, part: &Module) -> Result<(), AllocError>
    ensures { OnOk result (out.new.items ≡ out.old.items ++ taken_row slot.now part.now) }
{
    push(out, b"  \"")?;
    push(out, part.name.as_slice())?;
    push(out, b"\"")?;
    push(out, default_end(slot, part.reference))?;
    Ok(())
}

/// Appends a row for each module that a slot takes.
fn push_taken_rows(out: &mut Vec<u8>, slot: &Slot, modules: &[Module]) -> Result<(), AllocError>
    ensures { OnOk result (out.new.items ≡ out.old.items ++ taken_rows slot.now modules.now) }
{
    match modules {
        [] => Ok(()),
        [first, others @ ..] => {
            if !takes(slot, first.reference) {
                return push_taken_rows(out, slot, others);
            }
            push_taken_row(out, slot, first)?;
            push_taken_rows(out, slot, others)
        }
    }
}

/// Appends the row of a slot.
#[tactic(auto, unfolding(crate::specs::ModuleLists::slot_row))]
fn push_slot(out: &mut Vec<u8>, slot: &Slot) -> Result<(), AllocError>
    ensures { OnOk result (out.new.items ≡ out.old.items ++ slot_row slot.now) }
{
    let mut number = Text::new();
    number.push_number(slot.number);
    push(out, b"slot ")?;
    push(out, number.as_bytes())?;
    push(out, b" \"")?;
    push(out, slot.name.as_slice())?;
    push(out, b"\"\n")?;
    Ok(())
}

/// Appends a row for each slot, with those of the modules that it takes behind it.
fn push_slots(out: &mut Vec<u8>, modules: &[Module], slots: &[Slot]) -> Result<(), AllocError>
    ensures { OnOk result (out.new.items ≡ out.old.items ++ slot_rows modules.now slots.now) }
{
    match slots {
        [] => Ok(()),
        [first, others @ ..] => {
            push_slot(out, first)?;
            push_taken_rows(out, first, modules)?;
            push_slots(out, modules, others)
        }
    }
}

/// Appends the rows of modules and slots.
fn push_list(out: &mut Vec<u8>, modules: &[Module], slots: &[Slot]) -> Result<(), AllocError>
    ensures { OnOk result (out.new.items ≡ out.old.items ++ (module_rows modules.now ++ slot_rows modules.now slots.now)) }
{
    push_rows(out, modules)?;
    push_slots(out, modules, slots)
}

/// Returns the rows of the modules and slots of a GSD file.
fn list_of(alloc: Global, gsd: &[u8]) -> Result<Vec<u8>, SlaveFault>
    ensures ok { IfOk result (λ text. list_outcome gsd.now ≡ Ok text.items) }
    ensures err { IfErr result (IsFault (list_outcome gsd.now)) }
{
    let file = match read_gsd(alloc, gsd) {
        Ok(file) => file,
        Err(GsdReadFault::OutOfMemory) => return Err(SlaveFault::OutOfMemory),
        Err(GsdReadFault::Row(fault)) => return Err(SlaveFault::Row(fault)),
    };
    let mut text = Vec::new(alloc);
    match push_list(&mut text, file.modules.as_slice(), file.slots.as_slice()) {
        Ok(()) => Ok(text),
        Err(_) => Err(SlaveFault::OutOfMemory),
    }
}

/// Writes a row for each module of a GSD file, in the order of the file: its name in quotes, its configuration octets in hex,
/// and `preset` if it is plugged from the start. A row for each slot follows, with its number and its name in quotes, and below
/// it a row for each module that the slot takes, with `default` behind that which is plugged if none is named.
///
/// Returns `Row` for a line that isn't accepted, and writes nothing then. `OutOfMemory` may come instead, and writes nothing
/// either. `WriteFault` if a write fails: a prefix of the rows may be written then.
pub fn list_modules<W: Write>(alloc: Global, gsd: &[u8], writer: &mut W) -> Result<(), SlaveFault>
    ensures { Leaves (list_outcome gsd.now) (W.contents writer.old) (W.contents writer.new) result }
{
    let text = match list_of(alloc, gsd) {
        Ok(text) => text,
        Err(fault) => return Err(fault),
    };
    match write_whole(writer, text.as_slice()) {
        Ok(()) => Ok(()),
        Err(_) => Err(SlaveFault::WriteFault),
    }
}
