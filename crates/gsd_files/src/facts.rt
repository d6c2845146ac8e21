//! What a GSD file says, as far as it has been read.

ghost use Rattle.std.specs.Prelude.{◌≡◌};
ghost use Rattle.gsd_files.specs.Reading.{no_facts};

use crate::keys::Kind;
use crate::user::UserParameters;
use crate::values::{Name, Span};
use arrayvec::ArrayVec;
use dp_slave::Configuration;

/// The most numbers and ranges of references of a slot.
const MOST_SPANS: usize = 256;

/// References of modules.
pub type References = ArrayVec<Span, MOST_SPANS>;

/// A module of a GSD file.
#[derive(Clone, Drop)]
pub struct Module {
    /// Its name, in UTF-8.
    pub name: Name,
    /// Its configuration octets.
    pub octets: Configuration,
    /// It is plugged from the start.
    pub preset: bool,
    /// Its reference, the number in a row of its own; None if it has none.
    pub reference: Option<u32>,
    /// The default octets of its user parameters.
    pub user: UserParameters,
}

/// A slot of a GSD file, which takes a module.
#[derive(Drop)]
pub struct Slot {
    /// Its number: that of the module that it takes, from 1.
    pub number: u32,
    /// Its name, in UTF-8.
    pub name: Name,
    /// The reference of the module that is plugged if none is named; None or 0 if the slot is empty then.
    pub default: Option<u32>,
    /// The references of further modules that it takes.
    pub allowed: References,
}

/// What kinds of rows were read over.
#[derive(Clone, Copy, Debug, PartialEq, Eq)]
pub struct LeftOut {
    /// Rows of parameters: their names, ranges and texts.
    pub parameters: bool,
    /// Rows of the diagnosis and its texts.
    pub diagnosis: bool,
    /// Other rows.
    pub others: bool,
}

/// What the rows of a GSD file say that aren't those of a module. None is a key that the file doesn't have.
#[derive(Drop)]
pub struct Facts {
    /// `#Profibus_DP` was read.
    pub headed: bool,
    /// `Ident_Number`, 0 to 65,535.
    pub ident: Option<u32>,
    /// `Sync_Mode_supp`; false if the file doesn't have it.
    pub sync: bool,
    /// `Freeze_Mode_supp`; false if the file doesn't have it.
    pub freeze: bool,
    /// `Fail_Safe`; false if the file doesn't have it.
    pub failsafe: bool,
    /// `Max_User_Prm_Data_Len`, 0 to 237.
    pub most_parameters: Option<u32>,
    /// The default octets of the user parameters that aren't those of a module.
    pub user: UserParameters,
    /// `Modular_Station`; false if the file doesn't have it.
    pub modular: bool,
    /// `FixPresetModules`: the modules that are plugged from the start are always plugged; false if the file doesn't have it.
    pub fixed: bool,
    /// `Max_Module`, 0 to 255.
    pub most_modules: Option<u32>,
    /// `Max_Input_Len`, 0 to 244.
    pub most_inputs: Option<u32>,
    /// `Max_Output_Len`, 0 to 244.
    pub most_outputs: Option<u32>,
    /// `Max_Data_Len`, 0 to 488.
    pub most_data: Option<u32>,
    /// The kinds of rows that were read over.
    pub left: LeftOut,
}

impl Facts {
    /// Returns the facts before the first line.
    pub(crate) fn before() -> Facts
        ensures { result ≡ no_facts }
    {
        Facts {
            headed: false,
            ident: None,
            sync: false,
            freeze: false,
            failsafe: false,
            most_parameters: None,
            user: ArrayVec::new(),
            modular: false,
            fixed: false,
            most_modules: None,
            most_inputs: None,
            most_outputs: None,
            most_data: None,
            left: LeftOut {
                parameters: false,
                diagnosis: false,
                others: false,
            },
        }
    }
}

/// How the next line is read.
#[derive(Clone, Copy)]
pub(crate) enum Next {
    /// As a row of its own.
    Row,
    /// As more octets of the module that is open.
    Octets,
    /// As more octets of user parameters, from this place.
    UserOctets(u32),
    /// As more references of the slot that is open.
    References,
    /// As the value of a row of this kind, which has its key and `=` in a line before.
    Value(Kind),
    /// It belongs to a row that is read over, true if a text of that row is open.
    Nothing(bool),
}

/// How a line ends.
#[derive(Clone, Copy)]
pub(crate) struct End {
    /// Its row goes on in the next line.
    pub(crate) more: bool,
    /// A text is open.
    pub(crate) quoted: bool,
}

/// What has been read of a GSD file, except for the modules and slots that have ended.
#[derive(Drop)]
pub(crate) struct State {
    /// What the rows say.
    pub(crate) facts: Facts,
    /// The module that has begun and has not ended.
    pub(crate) current: Option<Module>,
    /// The slot whose row goes on.
    pub(crate) slot: Option<Slot>,
    /// How the next line is read.
    pub(crate) next: Next,
}

/// What a line ends.
#[derive(Drop)]
pub(crate) enum Ended {
    /// Neither a module nor a slot.
    Nothing,
    /// This module.
    Module(Module),
    /// This slot.
    Slot(Slot),
}

/// What one more line gives.
#[derive(Drop)]
pub(crate) struct Step {
    /// What has been read behind the line.
    pub(crate) state: State,
    /// What the line ends.
    pub(crate) ended: Ended,
}
