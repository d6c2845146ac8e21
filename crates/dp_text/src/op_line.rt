//! Reading the lines of an operator.
//!
//! A session, which has text, and a script, which has octets, use the same reader. So hex digits in either
//! case, empty lines and comments have one rule.

ghost use Rattle.std.specs.Prelude.{◌≡◌, ok_or, option_map};
ghost use Rattle.dp_text.specs.Codes.{text_fault_code, text_fault_name};
ghost use Rattle.dp_text.specs.OpLines.{line_asked, op_line_of, op_line_of_words};

use crate::number::only_octet_in;
use crate::ops::{HexCase, op_into};
use crate::words::{Words, is_text};
use dp_line::Op;
use thiserror::Error;

/// What a line of an operator asks for (own).
#[derive(Clone, Debug, Drop, PartialEq, Eq)]
pub enum OpLine {
    /// The operator does something.
    Event(Op),
    /// `owned M`: lists the slaves that the master with this address, 0 to 255, holds.
    Owned(u8),
    /// `show A`: shows the slave at this address, 0 to 255.
    Show(u8),
    /// `step`: the devices of the line set the inputs of their slaves.
    Step,
    /// Nothing: the line is empty, or begins with `#`.
    Nothing,
}

/// What a line of an operator asks for, if the operator's event is stored separately ([`op_line_into`]) (own).
#[derive(Clone, Copy, Debug, PartialEq, Eq)]
pub enum OpLineKind {
    /// The operator does what [`op_line_into`] has written.
    Event,
    /// `owned M`, as [`OpLine::Owned`].
    Owned(u8),
    /// `show A`, as [`OpLine::Show`].
    Show(u8),
    /// `step`, as [`OpLine::Step`].
    Step,
    /// Nothing, as [`OpLine::Nothing`].
    Nothing,
}

/// The reason why a line of an operator is not read.
#[derive(Clone, Copy, Debug, PartialEq, Eq, Error)]
#[error("{}", self.name())]
pub enum TextFault {
    /// The line is not a command (own).
    NotACommand,
}

impl TextFault {
    /// Returns the number of the fault (own).
    pub const fn code(self) -> u8
        ensures { result ≡ text_fault_code self }
    {
        match self {
            TextFault::NotACommand => 1,
        }
    }

    /// Returns the name of the fault in texts (own).
    pub const fn name(self) -> &'static str
        ensures { result.now ≡ text_fault_name self }
    {
        match self {
            TextFault::NotACommand => "NotACommand",
        }
    }
}

/// Returns what a line of an operator, without its LF, asks for: `in A HEX`, `diag A FLAGS HEX`,
/// `busy A POINT on` or `off`, `tick N`, `halt`, `owned M`, `show A`, `step`, or nothing if it is empty or
/// begins with `#`.
///
/// One space separates two words. A and M are 0 to 255, POINT is 0 to 255 or `default`, and N is 0 to
/// 4,294,967,295 units of 10 ms, all in plain decimal. HEX is `-` or pairs of hex digits in either case: at
/// most 244 octets for inputs and 238 for a diagnosis. FLAGS are the letters of the flags that are set, `e`
/// (ext), `s` (stat) and `o` (overflow) in this order, or `-` for none. Returns `NotACommand` for every other
/// line (own).
pub fn read_op(line: &str) -> Result<OpLine, TextFault>
    ensures { result ≡ ok_or (op_line_of line.now) TextFault.NotACommand }
{
    match op_line_in(line.as_bytes()) {
        Some(op_line) => Ok(op_line),
        None => Err(TextFault::NotACommand),
    }
}

/// Returns what the octets of a line ask for, or None if they are not a command.
pub fn op_line_in(line: &[u8]) -> Option<OpLine>
    ensures { result ≡ op_line_of line.now }
{
    let mut op = Op::Halt;
    match op_line_into(line, &mut op)? {
        OpLineKind::Event => Some(OpLine::Event(op)),
        OpLineKind::Owned(master) => Some(OpLine::Owned(master)),
        OpLineKind::Show(address) => Some(OpLine::Show(address)),
        OpLineKind::Step => Some(OpLine::Step),
        OpLineKind::Nothing => Some(OpLine::Nothing),
    }
}

/// Reads a line as [`op_line_in`] does, but writes what the operator does to `op`, which avoids copies. After
/// any other line the content of `op` is unspecified.
pub fn op_line_into(line: &[u8], op: &mut Op) -> Option<OpLineKind>
    ensures { option_map (line_asked op.new) result ≡ op_line_of line.now }
{
    match line {
        [] => Some(OpLineKind::Nothing),
        [b'#', ..] => Some(OpLineKind::Nothing),
        [_, ..] => op_line_in_words(&mut Words::new(line), op),
    }
}

/// Reads a line by its first word.
fn op_line_in_words(words: &mut Words<'_>, op: &mut Op) -> Option<OpLineKind>
    ensures { option_map (line_asked op.new) result ≡ op_line_of_words words.old }
{
    let kind = words.next()?;
    if is_text(kind, b"owned") {
        return only_octet_in(words).map(|master| OpLineKind::Owned(master));
    }
    if is_text(kind, b"show") {
        return only_octet_in(words).map(|address| OpLineKind::Show(address));
    }
    if is_text(kind, b"step") {
        return match words.next() {
            None => Some(OpLineKind::Step),
            Some(_) => None,
        };
    }
    op_into(HexCase::Either, kind, words, op)?;
    Some(OpLineKind::Event)
}
