//! A session that has ended.

ghost use Rattle.std.specs.Prelude.{◌≡◌};
ghost use Rattle.dp_sessions.specs.Ended.{end_of};

use crate::session_end::SessionEnd;
use dp_shared::ReturnedPass;

/// A session of a master or an operator that has ended, with the pass that served it (own).
#[derive(Drop)]
pub enum Session {
    /// The session was accepted, and its pass was handed back.
    Accepted {
        /// How it ended.
        end: SessionEnd,
        /// The pass that served it.
        returned_pass: ReturnedPass,
    },
    /// The session was not accepted, and no pass served it.
    Rejected {
        /// The address that a master sent, if it sent one.
        address: Option<u8>,
        /// How it ended.
        end: SessionEnd,
    },
}

impl Session {
    /// Returns how the session ended.
    pub fn end(&self) -> SessionEnd
        ensures { result ≡ end_of self.now }
    {
        match self {
            Session::Accepted { end, .. } => *end,
            Session::Rejected { end, .. } => *end,
        }
    }
}
