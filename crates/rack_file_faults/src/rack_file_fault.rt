//! What is wrong in a rack file, and where.

use dp_line::{MOST_SLAVES, MOST_USER_PARAMETERS};
use std::fmt;

/// The limits of a line: its places and its addresses.
pub(crate) const LEAST_PLACES: u32 = 2;

pub(crate) const MOST_PLACES: u32 = 65_536;

pub(crate) const MOST_ADDRESS: u8 = 126;

/// What is wrong in a line of a rack, and in which slave. Its `Display` is one line without its LF, for example
/// `line 1, slave 3: address 5 is used twice` (own).
#[derive(Clone, Copy, Debug, PartialEq, Eq)]
pub struct RackFileFault {
    /// The position of the line in the file, from 1.
    pub line: usize,
    /// The position of the slave among those of the line, from 1; None if it is no slave's.
    pub slave: Option<usize>,
    /// What is wrong.
    pub wrong: Wrong,
}

/// What is wrong in a line or a slave.
#[derive(Clone, Copy, Debug, PartialEq, Eq)]
pub enum Wrong {
    /// The line at this other position has this number too.
    NumberOf(usize, u8),
    /// The number of places, which is outside its limits.
    Capacity(u32),
    /// The line has no master.
    NoMaster,
    /// The address of a master is above 126.
    Master(u8),
    /// Two masters have this address.
    TwiceMaster(u8),
    /// The line has no slave.
    NoSlave,
    /// The line has this number of slaves, which is too many.
    Slaves(usize),
    /// The address of the slave is above 126.
    Address(u8),
    /// A master has the slave's address.
    MastersAddress(u8),
    /// A slave before has this address too.
    TwiceAddress(u8),
    /// The most octets of user parameters, which is too many.
    UserParameters(u8),
    /// The list with this key has an address that no master of the line has.
    Listed(&'static str, u8),
    /// The configuration at this position ends within the identifier at this octet. Both are counted from 1.
    Cut(usize, usize),
    /// The configuration at this position has too many octets of inputs or outputs from the identifier at this octet on.
    /// Both are counted from 1.
    TooLong(usize, usize),
}

impl fmt::Display for RackFileFault {
    fn fmt<W: fmt::Write>(&self, f: &mut fmt::Formatter<W>) -> fmt::Result {
        let (line, wrong) = (self.line, self.wrong);
        match self.slave {
            None => write!(f, "line {line}: {wrong}"),
            Some(slave) => write!(f, "line {line}, slave {slave}: {wrong}"),
        }
    }
}

impl fmt::Display for Wrong {
    fn fmt<W: fmt::Write>(&self, f: &mut fmt::Formatter<W>) -> fmt::Result {
        match *self {
            Wrong::NumberOf(line, number) => write!(
                f,
                "number {number} is used twice, also by line {line}"
            ),
            Wrong::Capacity(places) => {
                write!(
                    f,
                    "capacity {places}, expected {LEAST_PLACES} to {MOST_PLACES}"
                )
            }
            Wrong::NoMaster => write!(f, "no master, expected at least one"),
            Wrong::Master(address) => write!(f, "master {address}, expected 0 to {MOST_ADDRESS}"),
            Wrong::TwiceMaster(address) => write!(f, "master {address} is used twice"),
            Wrong::NoSlave => write!(f, "no slave, expected at least one"),
            Wrong::Slaves(count) => write!(f, "{count} slaves, expected at most {MOST_SLAVES}"),
            Wrong::Address(address) => write!(f, "address {address}, expected 0 to {MOST_ADDRESS}"),
            Wrong::MastersAddress(address) => write!(
                f,
                "address {address} is that of a master, too"
            ),
            Wrong::TwiceAddress(address) => write!(f, "address {address} is used twice"),
            Wrong::UserParameters(most) => write!(
                f,
                "user_max {most}, expected at most {MOST_USER_PARAMETERS}"
            ),
            Wrong::Listed(key, address) => {
                write!(f, "{key} has {address}, which is no master of the line")
            }
            Wrong::Cut(position, octet) => {
                write!(
                    f,
                    "configuration {position} ends within its identifier at octet {octet}"
                )
            }
            Wrong::TooLong(position, octet) => write!(
                f,
                "configuration {position} has more than 244 octets of inputs or of outputs from octet {octet} on"
            ),
        }
    }
}
