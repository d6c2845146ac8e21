//! The rows of the verdict from the repeat to the length (IEC 61158-4-3, FDL procedures), and what a slave remembers of
//! each master for them; it executes no service.
//!
//! [`judge`] returns the result for a request under the slave's points and its [`FrameMemory`].
//! [`judge_sdn`] returns the rule for an SDN, which never gets a reply. [`judge_lent`] lends what
//! [`judge`] copies. [`FrameMemory::remember`] stores the reply. [`Rule`] names every row of the
//! verdict.
#![tactic(auto)]

mod judgement;
pub mod laws;
mod memory;
mod rule;

pub use judgement::{Judged, JudgedLent, judge, judge_lent, judge_sdn};
pub use memory::{FrameMemory, Last, MasterEntry};
pub use rule::Rule;
