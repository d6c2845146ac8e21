//! The ports of a line that is served.

ghost use Rattle.std.specs.Prelude.{Some};
ghost use Rattle.serve_sockets.specs.Ports.{ports_row};

use std::fmt;

/// The ports of a line that is served. Its `Display` is its row in the file that names the ports, with LF.
#[derive(Clone, Copy, Debug, Default, PartialEq, Eq)]
pub struct LinePorts {
    /// The number of the line.
    pub line: u8,
    /// The port for masters.
    pub listen: u16,
    /// The port for operators.
    pub operator: u16,
}

impl fmt::Display for LinePorts {
    ghost output = { λ ports. Some (ports_row ports) };

    fn fmt<W: fmt::Write>(&self, f: &mut fmt::Formatter<W>) -> fmt::Result {
        let line = self.line;
        let listen = self.listen;
        let operator = self.operator;
        write!(f, "line {line} listen {listen} operator {operator}\n")
    }
}
