//! What threads may share: each function is proved only if threads may share its argument.

use crate::port::Port;
use dp_shared::{Claims, Line};

/// Shows that threads may share a line.
pub fn a_line_is_shared(line: &Line) {
    is_shared(line);
}

/// Shows that threads may share the claims of a line.
pub fn claims_are_shared(claims: &Claims) {
    is_shared(claims);
}

/// Shows that threads may share a port.
pub fn a_port_is_shared(port: &Port) {
    is_shared(port);
}

/// Shows that threads may share a slice of ports.
pub fn ports_are_shared(ports: &[Port]) {
    is_shared(&ports);
}

fn is_shared<T: Sync>(value: &T) {
    let _ = value;
}
