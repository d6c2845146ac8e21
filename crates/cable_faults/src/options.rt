//! What the cable does by chance, and to all telegrams.

ghost use Rattle.std.specs.Prelude.{◌≡◌};
ghost use Rattle.cable_faults.specs.Decisions.{are_covered};

use crate::chance::Chance;

/// The direction of a telegram.
#[derive(Clone, Copy, Debug, PartialEq, Eq)]
pub enum Direction {
    /// From the master to the line.
    Request,
    /// From the line to the master.
    Reply,
}

/// The telegrams that meet faults by chance.
#[derive(Clone, Copy, Debug, PartialEq, Eq)]
pub enum Covered {
    /// Those of both directions.
    Both,
    /// Only requests.
    Requests,
    /// Only replies.
    Replies,
}

impl Covered {
    /// Returns whether telegrams of this direction meet faults by chance.
    pub fn covers(self, direction: Direction) -> bool
        ensures { result ≡ are_covered self direction }
    {
        match self {
            Covered::Both => true,
            Covered::Requests => matches!(direction, Direction::Request),
            Covered::Replies => matches!(direction, Direction::Reply),
        }
    }
}

/// What the cable does by chance, and to all telegrams.
#[derive(Clone, Copy, Debug, PartialEq, Eq)]
pub struct Options {
    /// The chance that a telegram is lost.
    pub lose: Chance,
    /// The chance that a telegram is spoilt that is not lost.
    pub spoil: Chance,
    /// The chance that a telegram is cut that is neither lost nor spoilt.
    pub cut: Chance,
    /// The chance that a telegram is late that is not lost, spoilt or cut.
    pub late: Chance,
    /// The milliseconds for which a telegram is late by chance.
    pub late_milliseconds: u32,
    /// The milliseconds for which each reply is delayed.
    pub delay: u32,
    /// The telegrams that meet faults by chance.
    pub covered: Covered,
    /// Whether tokens that a master sends to itself are withheld.
    pub drops_tokens: bool,
}
