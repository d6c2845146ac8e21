//! The end of an explanation as facts.

use crate::hold::Hold;
use crate::statistics::AddressCounts;
use crate::tally::SenderCounts;
use dp_line::LineSpec;

/// What the entries of a text amount to: all holds, and how often what was counted (own).
#[derive(Clone, Copy)]
pub struct Summary<'a> {
    pub line: &'a LineSpec,
    /// The holds that ended, in the order in which they ended.
    pub ended: &'a [Hold],
    /// The holds that last, in the order of the line.
    pub lasting: &'a [Hold],
    /// The number of requests of each master that were answered in each way, in the order of the line, and then those of
    /// all other senders.
    pub tally: &'a [SenderCounts],
    /// The counts of each address, at its index.
    pub statistics: &'a [AddressCounts],
}
