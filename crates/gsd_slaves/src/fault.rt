//! The reasons why no GSD file and no slave is written.

use gsd_files::{PlugFault, RowFault};
use rack_file::RackFault;
use thiserror::Error;

/// A reason why a text isn't the name of a vendor or a model.
#[derive(Clone, Copy, Debug, PartialEq, Eq, Error)]
pub enum NameFault {
    /// It has more than 32 characters.
    #[error("more than 32 characters")]
    LongName,
    /// It has a `"`.
    #[error("a quote in a name")]
    Quote,
    /// It has a character that isn't a printable one of ISO 8859-1.
    #[error("a character that is not printable in ISO 8859-1")]
    NoCharacter,
}

/// A reason why no GSD file is written.
#[derive(Clone, Copy, Debug, PartialEq, Eq, Error)]
pub enum GsdFault {
    /// Memory ran out.
    #[error("out of memory")]
    OutOfMemory,
    /// A write failed, or took no bytes.
    #[error("cannot write")]
    WriteFault,
    /// The name of the vendor isn't accepted.
    #[error("vendor: {0}")]
    Vendor(NameFault),
    /// The name of the model isn't accepted.
    #[error("model: {0}")]
    Model(NameFault),
    /// The rack file isn't accepted.
    #[error("rack {0}")]
    Rack(RackFault),
    /// The rack has no line with this number.
    #[error("no line {0}")]
    NoLine(u8),
    /// The line with the first number has no slave with the second as its address.
    #[error("line {0} has no slave {1}")]
    NoSlave(u8, u8),
}

/// A reason why no slave is written.
#[derive(Debug, Drop, Error)]
pub enum SlaveFault {
    /// Memory ran out.
    #[error("out of memory")]
    OutOfMemory,
    /// A write failed, or took no bytes.
    #[error("cannot write")]
    WriteFault,
    /// A line of the GSD file isn't accepted.
    #[error("{0}")]
    Row(RowFault),
    /// The modules can't be plugged.
    #[error("{0}")]
    Modules(PlugFault),
    /// A name that is given stands for no module, or for more than one. The text is `no module "NAME"`, with `, perhaps
    /// "NAME"` if one has nearly this name, or `several modules begin with "NAME":` and their names.
    #[error("{0}")]
    UnknownModule(String),
    /// The slot with this number doesn't take its module. The text has the names of the slot, of the module and of those that
    /// the slot takes.
    #[error("{1}")]
    WrongModule(u32, String),
}
