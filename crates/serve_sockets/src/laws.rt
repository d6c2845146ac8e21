//! A law of the file that names the ports. It is what an empty function ensures.

ghost use Rattle.std.specs.Prelude.{◌≡◌, List, All, Some};
ghost use Rattle.serve_sockets.specs.declared.line_ports.LinePorts.{LinePorts};
ghost use Rattle.serve_sockets.specs.Ports.{AreNumbers, ports_text, read_ports};

/// The ports of lines are read from the text that names them.
pub fn ports_are_read_from_their_text()
    ensures { (lines : List LinePorts) → All AreNumbers lines → read_ports (ports_text lines) ≡ Some lines }
{}
