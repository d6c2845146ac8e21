//! The reasons why a GSD file isn't read.

use thiserror::Error;

/// A reason why a line of a GSD file isn't accepted.
#[derive(Clone, Copy, Debug, PartialEq, Eq, Error)]
pub enum Cause {
    /// The line has more than 2,048 octets.
    #[error("expected at most 2048 octets in a row")]
    LongLine,
    /// A text has no closing `"`.
    #[error("a text without its closing quote")]
    OpenText,
    /// The first line that isn't empty isn't `#Profibus_DP`.
    #[error("#Profibus_DP is missing before this row")]
    NoHeading,
    /// The line begins with `=` or `"`.
    #[error("expected a key")]
    NoKey,
    /// The key must have a value, and `=` before it.
    #[error("expected = and a value behind the key")]
    NoValue,
    /// The value isn't a number from 0 to this one.
    #[error("expected a number from 0 to {0}")]
    NoNumber(u32),
    /// The value of `Module` or `Slot` doesn't begin with a name in quotes.
    #[error("expected a name in quotes")]
    NoName,
    /// The name of a module or a slot has more than 128 octets in UTF-8.
    #[error("expected a name of at most 128 octets")]
    LongName,
    /// What should be an octet isn't a number from 0 to 255.
    #[error("expected octets from 0 to 255")]
    NoOctet,
    /// A module has more than 244 octets, or a row of user parameters.
    #[error("expected at most 244 octets")]
    ManyOctets,
    /// There are more than 237 octets of user parameters.
    #[error("expected at most 237 octets of user parameters")]
    ManyParameters,
    /// What should be references of modules isn't a number, or two with `-` between them.
    #[error("expected references of modules, as 1,2,5-9")]
    NoReference,
    /// A slot has more than 256 numbers or ranges of references.
    #[error("expected at most 256 references and ranges of references")]
    ManyReferences,
    /// A module begins before the one before it has ended.
    #[error("EndModule is missing before this row")]
    OpenModule,
    /// `EndModule` or `Preset` stands outside a module.
    #[error("Module is missing before this row")]
    NoModule,
    /// The file ends within a module.
    #[error("EndModule is missing")]
    NoEndModule,
    /// The file has no `Ident_Number`.
    #[error("Ident_Number is missing")]
    NoIdent,
}

/// A line of a GSD file that isn't accepted.
#[derive(Clone, Copy, Debug, PartialEq, Eq, Error)]
#[error("row {row}: {cause}")]
pub struct RowFault {
    /// The number of the line, from 1. For a fault of the whole file it is the number of its last line.
    pub row: usize,
    /// The reason.
    pub cause: Cause,
}

/// A reason why a GSD file isn't read.
#[derive(Clone, Copy, Debug, PartialEq, Eq, Error)]
pub enum GsdReadFault {
    /// Memory ran out.
    #[error("out of memory")]
    OutOfMemory,
    /// A line isn't accepted.
    #[error("{0}")]
    Row(RowFault),
}
