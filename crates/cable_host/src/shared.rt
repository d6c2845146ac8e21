//! What the threads of a cable share.

use crate::output::Rows;
use cable_faults::{Answer, Cable, Direction, Line, RandomWords};
use dp_text::Text;
use std::mem;
use std::sync::{Mutex, Wait};

/// The addresses that an octet may have.
const ADDRESSES: usize = 256;

/// What the threads of a cable share.
#[derive(Drop)]
pub(crate) struct Shared {
    /// The port of the line.
    pub(crate) port: u16,
    /// The seed of all random words.
    pub(crate) seed: u64,
    /// The milliseconds after which octets that are no whole telegram are dropped.
    pub(crate) resync: Option<u32>,
    /// Whether each fault has a row.
    pub(crate) logs: bool,
    /// What the cable does to telegrams.
    pub(crate) state: Mutex<State>,
    /// Where rows are put that are to be written.
    pub(crate) rows: Rows,
}

/// What changes while a cable is served.
#[derive(Drop)]
pub(crate) struct State {
    /// What becomes of each telegram.
    pub(crate) cable: Cable,
    /// The number of orders that wait for replies.
    pub(crate) waiting: usize,
    /// The number of connections that each address has had.
    connections: [u32; ADDRESSES],
}

impl Shared {
    /// Returns what the threads share before any has started.
    pub(crate) fn new(
        port: u16,
        seed: u64,
        resync: Option<u32>,
        logs: bool,
        cable: Cable,
        rows: Rows,
    ) -> Shared {
        Shared {
            port,
            seed,
            resync,
            logs,
            state: Mutex::new(State {
                cable,
                waiting: 0,
                connections: [0; ADDRESSES],
            }),
            rows,
        }
    }

    /// Puts a report for standard error, of at most 200 octets; a longer text is left out.
    pub(crate) fn report(&self, rt: &impl Wait, text: &str) {
        let mut row = Text::new();
        if text.len() <= 200 {
            row.push_str(text);
        }
        self.rows.report(rt, row);
    }

    /// Reports that a web page has made a connection, which is closed.
    pub(crate) fn report_web_request(&self, rt: &impl Wait) {
        self.report(rt, "a master is rejected: an HTTP, TLS or STUN request");
    }

    /// Returns the random words of both directions of the next connection of a master. Each connection of one master has
    /// other words, and they do not depend on the other masters.
    pub(crate) fn random_words(&self, rt: &impl Wait, master: u8) -> (RandomWords, RandomWords) {
        let mut state = self.state.lock(rt);
        let connection = state.next_connection(master);
        (
            RandomWords::new(self.seed, stream_of(connection, Direction::Request)),
            RandomWords::new(self.seed, stream_of(connection, Direction::Reply)),
        )
    }
}

impl State {
    /// Does what a line of standard input asks for. Returns its answer, and the number of orders that get no answer any
    /// more.
    pub(crate) fn obey(&mut self, line: Line) -> (Answer, usize) {
        let answer = self.cable.obey(line);
        if answer == Answer::Waits {
            self.waiting = self.waiting.saturating_add(1);
        }
        let cleared = match line {
            Line::Clear => mem::take(&mut self.waiting),
            Line::Off(_) => 0,
            Line::On(_) => 0,
            Line::Faults(_) => 0,
        };
        (answer, cleared)
    }

    /// Counts an order whose last reply has come.
    pub(crate) fn count_done(&mut self) {
        self.waiting = self.waiting.saturating_sub(1);
    }

    /// Counts a connection of a master, and returns the number of those before it.
    fn next_connection(&mut self, master: u8) -> u32 {
        let place = usize::from(master);
        let connection = self.connections[place];
        self.connections[place] = connection.saturating_add(1);
        connection
    }
}

/// Returns the number of the sequence of random words of one direction of a connection.
fn stream_of(connection: u32, direction: Direction) -> u64 {
    let first = 2 * u64::from(connection);
    match direction {
        Direction::Request => first,
        Direction::Reply => first + 1,
    }
}
