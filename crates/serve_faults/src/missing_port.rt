//! A port that a line of a rack lacks, so that the line cannot be served.

ghost use Rattle.std.specs.Prelude.{◌≡◌, ◌+◌, ◌<◌, Some, is_none, length, map};
ghost use Rattle.std.specs.List.{list_all};
ghost use Rattle.rack_file.specs.Rack.{line_described};
ghost use Rattle.serve_faults.specs.MissingPorts.{has_ports, key_text, lacked, missing_from, missing_port_text};

use rack_file::RackLine;
use std::fmt;

/// Which port of a line is missing.
#[derive(Clone, Copy, Debug, PartialEq, Eq)]
pub enum PortKey {
    /// The port for masters.
    Listen,
    /// The port for the operator.
    Operator,
}

impl PortKey {
    /// Returns the key of the port in a rack file.
    fn name(self) -> &'static str
        ensures { result.now ≡ key_text self }
    {
        match self {
            PortKey::Listen => "listen",
            PortKey::Operator => "operator",
        }
    }
}

/// A port that a line of a rack lacks. Its `Display` names the line and the key.
#[derive(Clone, Copy, Debug, PartialEq, Eq)]
pub struct MissingPort {
    /// The position of the line in the file, from 1.
    pub line: u8,
    /// The key that the line lacks.
    pub key: PortKey,
}

impl fmt::Display for MissingPort {
    ghost output = { λ missing. Some (missing_port_text missing) };

    fn fmt<W: fmt::Write>(&self, f: &mut fmt::Formatter<W>) -> fmt::Result {
        let key = self.key.name();
        write!(f, "line {}, key \"{key}\": missing", self.line)
    }
}

/// Returns the first line that lacks a port, and the key that it lacks. `position` is the position of the first of
/// these lines.
pub fn first_missing(position: u8, lines: &[RackLine]) -> Option<MissingPort>
    requires { position + length lines.now < 256 }
    ensures first { result ≡ missing_from position (map line_described lines.now) }
    // There is none exactly if each line has both ports.
    ensures none { is_none result ≡ list_all has_ports (map line_described lines.now) }
{
    match lines {
        [] => None,
        [first, others @ ..] => match lacked_key(first) {
            Some(key) => Some(MissingPort {
                line: position,
                key,
            }),
            None => first_missing(position + 1, others),
        },
    }
}

/// Returns the key that a line lacks, if it lacks one.
fn lacked_key(line: &RackLine) -> Option<PortKey>
    ensures key { result ≡ lacked (line.now).listen (line.now).operator }
    ensures none { is_none result ≡ has_ports (line_described line.now) }
{
    if line.listen.is_none() {
        return Some(PortKey::Listen);
    }
    if line.operator.is_none() {
        return Some(PortKey::Operator);
    }
    None
}
