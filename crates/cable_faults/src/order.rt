//! Lines of standard input, and the faults that they order.

/// What happens to replies of a slave by an order.
#[derive(Clone, Copy, Debug, PartialEq, Eq)]
pub enum OrderKind {
    /// They are lost.
    Lose,
    /// One octet of each is changed.
    Spoil,
    /// They are cut.
    Cut,
    /// They are late.
    Late {
        /// The milliseconds for which they are late, 0 to 60,000.
        milliseconds: u32,
    },
}

/// An order of faults for the next replies of a slave.
#[derive(Clone, Copy, Debug, PartialEq, Eq)]
pub struct Order {
    /// What happens to the replies.
    pub kind: OrderKind,
    /// The address of the slave.
    pub slave: u8,
    /// The number of replies, 1 or more.
    pub count: u32,
    /// The number of those replies that have not come yet.
    pub left: u32,
}

impl Default for Order {
    /// Returns a value for the free cells of an `ArrayVec`; it is never read.
    fn default() -> Order {
        Order {
            kind: OrderKind::Lose,
            slave: 0,
            count: 1,
            left: 1,
        }
    }
}

/// A line of standard input.
#[derive(Clone, Copy, Debug, PartialEq, Eq)]
pub enum Line {
    /// `off A`: the slave at address A, 0 to 126, is off the bus.
    Off(u8),
    /// `on A`: the slave is on the bus again.
    On(u8),
    /// `lose A N`, `spoil A N`, `cut A N` or `late A N MS`: the next N replies of the slave meet a fault.
    Faults(Order),
    /// `clear`: all slaves are on the bus, and no order waits.
    Clear,
}

/// What becomes of a line.
#[derive(Clone, Copy, Debug, PartialEq, Eq)]
pub enum Answer {
    /// It is done.
    Done,
    /// It waits for replies.
    Waits,
    /// It is refused, because too many orders wait.
    TooMany,
}
