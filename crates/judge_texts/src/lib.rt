//! Judges the masters of an audit text: it checks the text row by row and writes what the masters do wrong; it decides
//! no rule itself and opens no files.
//!
//! [`run_judge`] reads the text row by row, so its memory does not grow with the text. What is written of an entry are
//! the findings of `judge_findings`; the verdict on the text is that of a check.
#![tactic(auto)]

mod choice;
mod ending;
mod events;
mod judging;
pub mod laws;
mod output;
mod rows;

pub use choice::{Form, JudgeChoice};
pub use judge_findings::Least;
pub use judging::run_judge;
