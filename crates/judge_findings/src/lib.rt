//! Writes the findings of the judges of a line as rows, JSON and JUnit XML, and counts how often each master broke each
//! rule; it decides no rule and reads no audit text.
//!
//! A [`LineJudge`] has a judge for each master of a line. Before it takes an entry, [`FindingRows`] and
//! [`FindingLines`] are its findings as texts. What is stored does not grow.
#![tactic(auto)]

mod finding;
mod json;
mod junit;
mod line_judge;
mod receiver;
mod seat;
mod summary;
mod tested;
mod untested;

pub use finding::{FindingRows, Judged};
pub use json::FindingLines;
pub use junit::{Junit, JunitVerdict};
pub use line_judge::LineJudge;
pub use seat::{RuleCount, Seat};
pub use summary::{CountLines, CountRows};
pub use tested::{Least, Tested};
pub use untested::{UntestedLines, UntestedRows};
