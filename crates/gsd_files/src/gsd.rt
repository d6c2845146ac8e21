//! Reads a GSD file.

ghost use Rattle.std.specs.Prelude.{◌≡◌, ◌+◌, Ok, IfOk, IfErr};
ghost use Rattle.gsd_files.specs.Defaults.{defaults_of};
ghost use Rattle.gsd_files.specs.Files.{lines_of, gsd_of, file_in, file_of, with_module, with_slot, Fails};
ghost use Rattle.gsd_files.specs.Steps.{seen};
ghost use Rattle.gsd_files.specs.declared.cause.GsdReadFault.TheVariants.{Row, OutOfMemory};

use crate::cause::{Cause, GsdReadFault, RowFault};
use crate::defaults::defaults_of;
use crate::facts::{Ended, Facts, Module, Next, Slot, State};
use crate::lines::{first_line, last_row};
use crate::state::after_line;
use crate::user::UserDefault;
use std::alloc::Global;

/// What a GSD file says.
#[derive(Drop)]
pub struct Gsd {
    /// What the rows say that aren't those of a module.
    pub facts: Facts,
    /// `Ident_Number`, 0 to 65,535.
    pub ident: u32,
    /// The modules, in the order of the file.
    pub modules: Vec<Module>,
    /// The slots, in the order of the file.
    pub slots: Vec<Slot>,
}

/// Returns the fault of the line with this number.
fn at_row(row: usize, cause: Cause) -> GsdReadFault
    ensures { result ≡ Row (record { row = row; cause = cause }) }
{
    GsdReadFault::Row(RowFault { row, cause })
}

/// Returns what a file says whose lines have been read, or the fault of the whole file.
fn finished(state: State, modules: Vec<Module>, slots: Vec<Slot>) -> Result<Gsd, Cause>
    ensures { seen file_in result ≡ file_of (record { state = state; modules = modules.items; slots = slots.items }) }
{
    if !state.facts.headed {
        return Err(Cause::NoHeading);
    }
    match state.current {
        Some(_current) => Err(Cause::NoEndModule),
        None => match state.facts.ident {
            None => Err(Cause::NoIdent),
            Some(ident) => Ok(Gsd {
                facts: state.facts,
                ident,
                modules,
                slots,
            }),
        },
    }
}

/// Modules and slots that have ended.
#[derive(Drop)]
struct Parts {
    modules: Vec<Module>,
    slots: Vec<Slot>,
}

/// Returns the modules and slots, and the one that has ended, if there is one; `OutOfMemory` if memory runs out.
fn with_ended(parts: Parts, ended: Ended) -> Result<Parts, GsdReadFault>
    ensures modules { IfOk result (λ more. more.modules.items ≡ with_module parts.modules.items ended) }
    ensures slots { IfOk result (λ more. more.slots.items ≡ with_slot parts.slots.items ended) }
    ensures err { IfErr result (λ fault. fault ≡ OutOfMemory) }
{
    let mut more = parts;
    match ended {
        Ended::Nothing => Ok(more),
        Ended::Module(module) => match more.modules.push(module) {
            Ok(()) => Ok(more),
            Err(_) => Err(GsdReadFault::OutOfMemory),
        },
        Ended::Slot(slot) => match more.slots.push(slot) {
            Ok(()) => Ok(more),
            Err(_) => Err(GsdReadFault::OutOfMemory),
        },
    }
}

/// Reads what a GSD file says (GSD specification, revision 3). Texts are ISO 8859-1, keys are in any case, numbers are
/// decimal or hex behind `0x`, `;` begins a comment, a `\` at the end of a line continues its row, and lines end in LF
/// or CR LF. If a key stands twice, the last one counts. The defaults of user parameters may stand behind the rows that
/// name them.
///
/// Returns the first line that isn't accepted with its cause. `OutOfMemory` may come instead of each result.
pub fn read_gsd(alloc: Global, text: &[u8]) -> Result<Gsd, GsdReadFault>
    ensures ok { IfOk result (λ gsd. gsd_of text.now ≡ Ok (file_in gsd)) }
    ensures err { IfErr result (Fails (gsd_of text.now)) }
{
    let defaults = match defaults_of(alloc, text) {
        Ok(defaults) => defaults,
        Err(_) => return Err(GsdReadFault::OutOfMemory),
    };
    read_with(alloc, defaults.as_slice(), text)
}

/// Reads what a GSD file says with these defaults.
fn read_with(alloc: Global, defaults: &[UserDefault], text: &[u8]) -> Result<Gsd, GsdReadFault>
    requires { defaults.now ≡ defaults_of (lines_of text.now) }
    ensures ok { IfOk result (λ gsd. gsd_of text.now ≡ Ok (file_in gsd)) }
    ensures err { IfErr result (Fails (gsd_of text.now)) }
{
    let mut state = State {
        facts: Facts::before(),
        current: None,
        slot: None,
        next: Next::Row,
    };
    let mut parts = Parts {
        modules: Vec::new(alloc),
        slots: Vec::new(alloc),
    };
    let mut row = 0;
    let mut left = Some(text);
    while let Some(rest) = left {
        let (line, behind) = first_line(rest);
        row += 1;
        let step = match after_line(defaults, state, line) {
            Ok(step) => step,
            Err(cause) => return Err(at_row(row, cause)),
        };
        state = step.state;
        parts = with_ended(parts, step.ended)?;
        left = behind;
    }
    match finished(state, parts.modules, parts.slots) {
        Ok(gsd) => Ok(gsd),
        Err(cause) => Err(at_row(last_row(text), cause)),
    }
}
