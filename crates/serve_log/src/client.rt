//! Who is expected at a port.

/// Who is expected at a port of a line.
#[derive(Clone, Copy, Debug, Default, PartialEq, Eq)]
pub enum Client {
    /// A master: it sends its address and then telegrams.
    #[default]
    Master,
    /// An operator: it sends rows of commands.
    Operator,
}

impl Client {
    /// Returns the name of the port where it is expected, as reports name it.
    pub(crate) fn port(self) -> &'static str {
        match self {
            Client::Master => "the port of masters",
            Client::Operator => "the port of operators",
        }
    }
}
