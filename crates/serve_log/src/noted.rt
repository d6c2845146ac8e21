//! What was reported so far, as far as later reports depend on it.

use crate::client::Client;
use crate::delays::Delays;
use crate::dropped_rows::DroppedRows;
use crate::row_limit::RowLimit;
use arrayvec::ArrayVec;

/// The most lines of a rack.
const MOST_LINES: usize = rack_file::MOST_LINES as usize;

/// The numbers of lines, in the order of their ports.
pub type LineNumbers = ArrayVec<u8, MOST_LINES>;

/// The most sessions of masters at one time: one for each worker.
const MOST_SESSIONS: usize = rack_file::MOST_WORKERS as usize;

/// A session of a master: what it has asked for, and what it has dropped.
#[derive(Default, Drop)]
pub(crate) struct MasterSession {
    pub(crate) line: u8,
    pub(crate) master: u8,
    pub(crate) requests: u32,
    pub(crate) refused: u32,
    pub(crate) dropped: DroppedRows,
}

/// How many operators of a line are served at one time.
pub const MOST_OPERATORS: usize = 16;

/// The most limits of rows: two for the ports of each line, and one for each of its operators.
const MOST_LIMITS: usize = (2 + MOST_OPERATORS) * MOST_LINES;

/// The most halts of operators that are not answered yet.
const MOST_HALTS: usize = 128;

/// What rows are about whose number in one second is limited.
#[derive(Clone, Copy, PartialEq, Eq)]
pub(crate) enum Subject {
    /// Connections at a port that began no session.
    Port(Client),
    /// Rows of the operator at this place of its line that are no command.
    Operator(usize),
}

impl Default for Subject {
    fn default() -> Subject {
        Subject::Port(Client::default())
    }
}

impl Subject {
    /// Returns what it is, as reports name it.
    pub(crate) fn name(self) -> &'static str {
        match self {
            Subject::Port(client) => client.port(),
            Subject::Operator(_) => "an operator",
        }
    }
}

/// The rows about a port or an operator of a line.
#[derive(Clone, Copy, Default)]
pub(crate) struct LimitedRows {
    pub(crate) line: u8,
    pub(crate) subject: Subject,
    pub(crate) limit: RowLimit,
}

/// What was reported or counted and is needed again.
#[derive(Drop)]
pub(crate) struct Noted {
    /// The line of each halt that an operator has sent and that has not been answered yet.
    pub(crate) halting: ArrayVec<u8, MOST_HALTS>,
    /// The lines that were reported as halted.
    pub(crate) halted: ArrayVec<u8, MOST_LINES>,
    /// The sessions of masters, while connections, sessions or requests are logged.
    pub(crate) sessions: ArrayVec<MasterSession, MOST_SESSIONS>,
    /// The limits of the rows about each port, and about each operator that is connected.
    pub(crate) limits: ArrayVec<LimitedRows, MOST_LIMITS>,
    /// What was discarded of the time in this second.
    pub(crate) delays: Delays,
    /// Whether all workers were reported as busy, and none has become free since.
    pub(crate) are_busy: bool,
}

impl Noted {
    /// Returns a record in which nothing is noted yet.
    pub(crate) fn new() -> Noted {
        Noted {
            halting: ArrayVec::new(),
            halted: ArrayVec::new(),
            sessions: ArrayVec::new(),
            limits: ArrayVec::new(),
            delays: Delays::default(),
            are_busy: false,
        }
    }

    /// Returns the limit of the rows about a subject; None if there are more of them than a rack may have.
    pub(crate) fn limit_of(&mut self, line: u8, subject: Subject) -> Option<&mut RowLimit> {
        let found = self
            .limits
            .iter()
            .position(|rows| rows.line == line && rows.subject == subject);
        let place = match found {
            Some(place) => place,
            None => {
                let place = self.limits.len();
                let limit = RowLimit::default();
                self.limits
                    .try_push(LimitedRows {
                        line,
                        subject,
                        limit,
                    })
                    .ok()?;
                place
            }
        };
        let rows = self.limits.get_mut(place)?;
        Some(&mut rows.limit)
    }
}
