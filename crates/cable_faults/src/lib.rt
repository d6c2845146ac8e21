//! Decides what a faulty cable between masters and a line does to each telegram, by options, commands and random words;
//! it reads no clock, opens no sockets and starts no threads.
//!
//! Telegrams, moments and rows of text are passed as values, so nothing here waits or allocates memory.
#![tactic(auto)]

mod cable;
mod chance;
pub mod laws;
mod line_text;
mod obeying;
mod options;
mod order;
mod pace;
mod passing;
mod random_words;
mod rows;
mod spoiling;
mod treatment;

pub use cable::{Cable, Decision};
pub use chance::{CERTAIN, Chance};
pub use line_text::{MOST_MILLISECONDS, read_line};
pub use options::{Covered, Direction, Options};
pub use order::{Answer, Line, Order, OrderKind};
pub use pace::Pace;
pub use passing::Passage;
pub use random_words::{Draw, RandomWords};
pub use rows::{NOT_A_COMMAND, push_answer, push_done, push_fault};
pub use treatment::Treatment;
