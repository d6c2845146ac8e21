//! The lines that are answered.

ghost use Rattle.std.specs.Prelude.{◌≡◌};
ghost use Rattle.operate_host.specs.Answers.{asks_for, is_answered as is_answered_line};

use dp_text::{OpLine, read_line};

/// Returns whether a session answers this line, which has no LF, with a line of text: any line but an empty one and a
/// comment.
pub(crate) fn is_answered(line: &[u8]) -> bool
    ensures { result ≡ is_answered_line line.now }
{
    match read_line(line) {
        Ok(op_line) => asks(&op_line),
        Err(_) => true,
    }
}

/// Returns whether a command asks for anything.
fn asks(op_line: &OpLine) -> bool
    ensures { result ≡ asks_for op_line.now }
{
    match op_line {
        OpLine::Event(_) => true,
        OpLine::Owned(_) => true,
        OpLine::Show(_) => true,
        OpLine::Step => true,
        OpLine::Nothing => false,
    }
}
