//! The slave that plugged modules of a GSD file make.

ghost use Rattle.std.specs.Prelude.{◌≡◌, ◌≤◌, length, map, unwrap_or};
ghost use Rattle.std.specs.Option.{option_map};
ghost use Rattle.gsd_files.specs.Files.{file_in};
ghost use Rattle.gsd_files.specs.Steps.{seen};
ghost use Rattle.gsd_files.specs.Plugged.{any_span, is_default, takes, slot_numbered, is_taken, referenced, joined, user_joined, plug_in, plug, plug_named, plug_preset, plug_only, plug_default, plug_defaults, has_preset, plug_unnamed, plugged_of, plug_fixed, nothing_plugged, fits, fits_by, plugged_slave};

use crate::facts::{Facts, LeftOut, Module, Slot};
use crate::gsd::Gsd;
use crate::naming::module_named;
use crate::user::{UserParameters, padded};
use crate::values::Span;
use arrayvec::ArrayVec;
use dp_cfg::{CfgFault, CfgIds};
use dp_slave::Configuration;
use thiserror::Error;

/// The largest number of modules, if a file doesn't say how many.
const MOST_MODULES: u32 = 255;

/// The largest number of octets of inputs and of outputs, if a file doesn't say how many.
const MOST_LENGTH: u32 = 244;

/// The largest number of octets of inputs and outputs together, if a file doesn't say how many.
const MOST_DATA: u32 = 488;

/// A reason why modules can't be plugged.
#[derive(Clone, Copy, Debug, PartialEq, Eq, Error)]
pub enum PlugFault {
    /// One of the names stands for no module, or for more than one.
    #[error("no such module")]
    UnknownModule,
    /// No module is named, and the file doesn't say which ones are plugged.
    #[error("name the modules with --module")]
    ChooseModules,
    /// The file has no module.
    #[error("no Module")]
    NoModules,
    /// There are more modules than this number, `Max_Module`.
    #[error("more than {0} modules")]
    ManyModules(u32),
    /// The slot with this number doesn't take its module.
    #[error("slot {0} does not take its module")]
    WrongModule(u32),
    /// The file has no module with the reference that the slot with this number has as its default.
    #[error("the default of slot {0} is no module of the file")]
    NoDefault(u32),
    /// The modules have more than 244 configuration octets.
    #[error("more than 244 configuration octets")]
    ManyOctets,
    /// The station and the modules have more than 237 octets of user parameters.
    #[error("more than 237 octets of user parameters")]
    ManyParameters,
    /// The octets of the modules are no configuration.
    #[error("the configuration octets of the modules are refused: {0}")]
    NoConfiguration(CfgFault),
    /// The modules have this number of octets of inputs, and the file allows the second.
    #[error("{0} octets of inputs, but Max_Input_Len is {1}")]
    ManyInputs(u32, u32),
    /// The modules have this number of octets of outputs, and the file allows the second.
    #[error("{0} octets of outputs, but Max_Output_Len is {1}")]
    ManyOutputs(u32, u32),
    /// The modules have this number of octets of inputs and outputs, and the file allows the second.
    #[error("{0} octets of inputs and outputs, but Max_Data_Len is {1}")]
    ManyData(u32, u32),
}

/// Modules that are plugged.
#[derive(Drop)]
pub(crate) struct Plugged {
    /// Their configuration octets, one after another.
    pub(crate) octets: Configuration,
    /// The default octets of the user parameters of the station and of the modules, one after another.
    pub(crate) user: UserParameters,
    /// Their number.
    pub(crate) count: u32,
}

/// A slave of a GSD file, with modules plugged.
#[derive(Drop)]
pub struct PluggedSlave {
    /// Its ident number, 0 to 65,535.
    pub ident: u32,
    /// It has a sync mode.
    pub sync: bool,
    /// It has a freeze mode.
    pub freeze: bool,
    /// It is fail-safe.
    pub failsafe: bool,
    /// The largest number of octets of user parameters that it takes, 0 to 237: `Max_User_Prm_Data_Len`, or else the number
    /// of default octets (own).
    pub user_max: u32,
    /// The default octets of its user parameters, those of the station before those of its modules.
    pub user: UserParameters,
    /// The configuration octets of its modules.
    pub octets: Configuration,
    /// The kinds of rows that were read over.
    pub left: LeftOut,
}

/// Returns whether a reference is one of these.
fn any_span(reference: u32, spans: &[Span]) -> bool
    ensures { result ≡ any_span reference spans.now }
{
    match spans {
        [] => false,
        [span, others @ ..] => {
            span.first <= reference && reference <= span.last || any_span(reference, others)
        }
    }
}

/// Returns whether the default, if there is one, is this reference.
pub fn is_default(reference: u32, default: Option<u32>) -> bool
    ensures { result ≡ is_default reference default }
{
    match default {
        None => false,
        Some(default) => default == reference,
    }
}

/// Returns whether a slot takes the modules with this reference: that of its default, or one of its references.
pub fn takes(slot: &Slot, reference: Option<u32>) -> bool
    ensures { result ≡ takes slot.now reference }
{
    match reference {
        None => false,
        Some(reference) => {
            is_default(reference, slot.default) || any_span(reference, slot.allowed.as_slice())
        }
    }
}

/// Returns the first slot with this number; None if there is none.
pub fn slot_numbered(number: u32, slots: &[Slot]) -> Option<&Slot>
    ensures { option_map (λ slot. slot.now) result ≡ slot_numbered number slots.now }
{
    match slots {
        [] => None,
        [slot, others @ ..] => {
            if slot.number == number {
                Some(slot)
            } else {
                slot_numbered(number, others)
            }
        }
    }
}

/// Returns whether a module with this reference may be plugged at a place, the number of its slot.
fn is_taken(place: u32, slots: &[Slot], reference: Option<u32>) -> bool
    ensures { result ≡ is_taken (slot_numbered place slots.now) reference }
{
    match slot_numbered(place, slots) {
        None => true,
        Some(slot) => takes(slot, reference),
    }
}

/// Returns the first module with this reference; None if there is none.
fn referenced(reference: u32, modules: &[Module]) -> Option<&Module>
    ensures { option_map (λ part. part.now) result ≡ referenced reference modules.now }
{
    match modules {
        [] => None,
        [module, others @ ..] => {
            if is_default(reference, module.reference) {
                Some(module)
            } else {
                referenced(reference, others)
            }
        }
    }
}

/// Returns the octets and those of one more module.
fn joined(octets: Configuration, more: &[u8]) -> Result<Configuration, PlugFault>
    ensures { seen (λ all. all.items) result ≡ joined octets.items more.now }
{
    let mut all = octets;
    match all.try_extend_from_slice(more) {
        Ok(()) => Ok(all),
        Err(_) => Err(PlugFault::ManyOctets),
    }
}

/// Returns the user parameters and those of one more module.
fn user_joined(user: UserParameters, more: &[u8]) -> Result<UserParameters, PlugFault>
    ensures { seen (λ all. all.items) result ≡ user_joined user.items more.now }
{
    let mut all = user;
    match all.try_extend_from_slice(more) {
        Ok(()) => Ok(all),
        Err(_) => Err(PlugFault::ManyParameters),
    }
}

/// Plugs one more module, in the next slot.
fn plug(gsd: &Gsd, plugged: Plugged, part: &Module) -> Result<Plugged, PlugFault>
    ensures { result ≡ plug (file_in gsd.now) plugged part.now }
{
    plug_in(gsd, None, plugged, part)
}

/// Plugs one more module, in the slot with this number, or else in the next one.
fn plug_in(
    gsd: &Gsd,
    number: Option<u32>,
    plugged: Plugged,
    part: &Module,
) -> Result<Plugged, PlugFault>
    ensures { result ≡ plug_in (file_in gsd.now) number plugged part.now }
{
    let most = gsd.facts.most_modules.unwrap_or(MOST_MODULES);
    if plugged.count >= most {
        return Err(PlugFault::ManyModules(most));
    }
    let number = number.unwrap_or(plugged.count + 1);
    if !is_taken(number, gsd.slots.as_slice(), part.reference) {
        return Err(PlugFault::WrongModule(number));
    }
    Ok(Plugged {
        octets: joined(plugged.octets, part.octets.as_slice())?,
        user: user_joined(plugged.user, part.user.as_slice())?,
        count: plugged.count + 1,
    })
}

/// Plugs the modules with these names, one after another.
fn plug_named(gsd: &Gsd, plugged: Plugged, names: &[&str]) -> Result<Plugged, PlugFault>
    ensures { result ≡ plug_named (file_in gsd.now) plugged (map (λ name. name.now) names.now) }
{
    match names {
        [] => Ok(plugged),
        [name, others @ ..] => match module_named(gsd.modules.as_slice(), name) {
            None => Err(PlugFault::UnknownModule),
            Some(module) => plug_named(gsd, plug(gsd, plugged, module)?, others),
        },
    }
}

/// Plugs those of these modules that are plugged from the start.
fn plug_preset(gsd: &Gsd, plugged: Plugged, modules: &[Module]) -> Result<Plugged, PlugFault>
    ensures { result ≡ plug_preset (file_in gsd.now) plugged modules.now }
{
    match modules {
        [] => Ok(plugged),
        [module, others @ ..] => {
            if module.preset {
                plug_preset(gsd, plug(gsd, plugged, module)?, others)
            } else {
                plug_preset(gsd, plugged, others)
            }
        }
    }
}

/// Plugs the only module of a compact slave.
fn plug_only(gsd: &Gsd, plugged: Plugged, modules: &[Module]) -> Result<Plugged, PlugFault>
    ensures { result ≡ plug_only (file_in gsd.now) plugged modules.now }
{
    match modules {
        [] => Err(PlugFault::NoModules),
        [module] => plug(gsd, plugged, module),
        [_module, _other, ..] => Err(PlugFault::ChooseModules),
    }
}

/// Plugs the default of the slot with this number. None, or 0, leaves the slot empty.
fn plug_default(
    gsd: &Gsd,
    plugged: Plugged,
    number: u32,
    default: Option<u32>,
) -> Result<Plugged, PlugFault>
    ensures { result ≡ plug_default (file_in gsd.now) plugged number default }
{
    match default {
        None => Ok(plugged),
        Some(reference) => {
            if reference == 0 {
                return Ok(plugged);
            }
            match referenced(reference, gsd.modules.as_slice()) {
                None => Err(PlugFault::NoDefault(number)),
                Some(module) => plug_in(gsd, Some(number), plugged, module),
            }
        }
    }
}

/// Plugs the defaults of these slots.
fn plug_defaults(gsd: &Gsd, plugged: Plugged, slots: &[Slot]) -> Result<Plugged, PlugFault>
    ensures { result ≡ plug_defaults (file_in gsd.now) plugged slots.now }
{
    match slots {
        [] => Ok(plugged),
        [slot, others @ ..] => {
            let more = plug_default(gsd, plugged, slot.number, slot.default)?;
            plug_defaults(gsd, more, others)
        }
    }
}

/// Returns whether a module is plugged from the start.
fn has_preset(modules: &[Module]) -> bool
    ensures { result ≡ has_preset modules.now }
{
    match modules {
        [] => false,
        [module, others @ ..] => module.preset || has_preset(others),
    }
}

/// Plugs the modules of a file, if none is named.
fn plug_unnamed(gsd: &Gsd, plugged: Plugged) -> Result<Plugged, PlugFault>
    ensures { result ≡ plug_unnamed (file_in gsd.now) plugged }
{
    let modules = gsd.modules.as_slice();
    if gsd.slots.len() > 0 {
        return plug_defaults(gsd, plugged, gsd.slots.as_slice());
    }
    if has_preset(modules) {
        return plug_preset(gsd, plugged, modules);
    }
    if gsd.facts.modular {
        return Err(PlugFault::ChooseModules);
    }
    plug_only(gsd, plugged, modules)
}

/// Returns what is plugged before the first module: nothing, with the user parameters of the station.
fn nothing_plugged(gsd: &Gsd) -> Plugged
    ensures { result ≡ nothing_plugged (file_in gsd.now) }
{
    Plugged {
        octets: ArrayVec::new(),
        user: padded(gsd.facts.user.as_slice(), 0),
        count: 0,
    }
}

/// Plugs the modules that are plugged before those with names: those that the file presets, if they are fixed.
fn plug_fixed(gsd: &Gsd, plugged: Plugged) -> Result<Plugged, PlugFault>
    ensures { result ≡ plug_fixed (file_in gsd.now) plugged }
{
    if gsd.facts.fixed {
        plug_preset(gsd, plugged, gsd.modules.as_slice())
    } else {
        Ok(plugged)
    }
}

/// Plugs the modules of a file by the names that are given.
fn plugged_of(gsd: &Gsd, names: &[&str]) -> Result<Plugged, PlugFault>
    ensures { result ≡ plugged_of (file_in gsd.now) (map (λ name. name.now) names.now) }
{
    let nothing = nothing_plugged(gsd);
    match names {
        [] => plug_unnamed(gsd, nothing),
        [_name, ..] => plug_named(gsd, plug_fixed(gsd, nothing)?, names),
    }
}

/// Checks the lengths of a configuration against those that a file allows.
fn check_lengths(facts: &Facts, inputs: u32, outputs: u32) -> Result<(), PlugFault>
    requires inputs { inputs ≤ 244 }
    requires outputs { outputs ≤ 244 }
    ensures { result ≡ fits_by (unwrap_or facts.now.most_inputs 244) (unwrap_or facts.now.most_outputs 244) (unwrap_or facts.now.most_data 488) inputs outputs }
{
    let most_inputs = facts.most_inputs.unwrap_or(MOST_LENGTH);
    if inputs > most_inputs {
        return Err(PlugFault::ManyInputs(inputs, most_inputs));
    }
    let most_outputs = facts.most_outputs.unwrap_or(MOST_LENGTH);
    if outputs > most_outputs {
        return Err(PlugFault::ManyOutputs(outputs, most_outputs));
    }
    let most_data = facts.most_data.unwrap_or(MOST_DATA);
    if inputs + outputs > most_data {
        return Err(PlugFault::ManyData(inputs + outputs, most_data));
    }
    Ok(())
}

/// Checks that octets are a configuration whose lengths a file allows.
fn check_octets(facts: &Facts, octets: &[u8]) -> Result<(), PlugFault>
    requires { length octets.now ≤ 244 }
    ensures { result ≡ fits facts.now octets.now }
{
    match CfgIds::parse(octets) {
        Err(fault) => Err(PlugFault::NoConfiguration(fault)),
        Ok(ids) => check_lengths(
            facts,
            u32::from(ids.input_len()),
            u32::from(ids.output_len()),
        ),
    }
}

/// Returns the slave of a GSD file with the modules of these names plugged, in this order; a name may stand more than
/// once. [`module_named`] says which module a name stands for. If the file fixes the modules that it presets
/// (`FixPresetModules`), these are plugged before them. If no module is named, the defaults of the slots are plugged, or if the
/// file has no slots those modules that it presets, or the only one of a compact slave. The first plugged module is that of
/// slot 1.
///
/// Returns the first fault that applies: `UnknownModule`, `ManyModules`, `WrongModule`, `ManyOctets` or `ManyParameters` of
/// the first module that has one, `NoDefault` of a slot, `ChooseModules` or `NoModules` if none is named, then
/// `NoConfiguration`, `ManyInputs`, `ManyOutputs` and `ManyData` of all modules together.
pub fn plugged_slave(gsd: &Gsd, names: &[&str]) -> Result<PluggedSlave, PlugFault>
    ensures { result ≡ plugged_slave (file_in gsd.now) (map (λ name. name.now) names.now) }
{
    let plugged = plugged_of(gsd, names)?;
    check_octets(&gsd.facts, plugged.octets.as_slice())?;
    let length = plugged.user.len() as u32;
    Ok(PluggedSlave {
        ident: gsd.ident,
        sync: gsd.facts.sync,
        freeze: gsd.facts.freeze,
        failsafe: gsd.facts.failsafe,
        user_max: gsd.facts.most_parameters.unwrap_or(length),
        user: plugged.user,
        octets: plugged.octets,
        left: gsd.facts.left,
    })
}
