//! How much a master did: a verdict on a master that did nothing means nothing.

ghost use Rattle.std.specs.Prelude.{◌≡◌};
ghost use Rattle.judge_rules.specs.Entries.{is_exchanged};
ghost use Rattle.judge_findings.specs.Tested.{tested_after, with_request};

use judge_rules::{Entry, Request};

/// How many requests a master sent, and how many of its Data_Exchanges were answered with data, or acknowledged by a slave
/// without inputs. Both stop at the largest number of 64 bits.
#[derive(Clone, Copy, Debug, PartialEq, Eq)]
pub struct Tested {
    /// The requests. Octets that are no request, and tokens, are not counted.
    pub requests: u64,
    /// The answered Data_Exchanges. One that the slave answers as a repeat is not counted.
    pub exchanges: u64,
}

/// How much the judged masters must do; if they do less, something is untested.
#[derive(Clone, Copy, Debug, PartialEq, Eq)]
pub struct Least {
    /// The requests that each judged master must send.
    pub requests: u64,
    /// The Data_Exchanges of all judged masters together that must be answered.
    pub exchanges: u64,
}

impl Tested {
    /// Counts the next entry of the master.
    pub(crate) fn take(&mut self, entry: &Entry)
        ensures { self.new ≡ tested_after entry.now self.old }
    {
        match entry {
            Entry::Request(request) => self.count(request),
            Entry::PassedToken(_) => {}
            Entry::Stray => {}
        }
    }

    /// Counts a request.
    fn count(&mut self, request: &Request)
        ensures { self.new ≡ with_request (is_exchanged request.now) self.old }
    {
        self.requests = self.requests.saturating_add(1);
        if request.is_exchanged() {
            self.exchanges = self.exchanges.saturating_add(1);
        }
    }
}
