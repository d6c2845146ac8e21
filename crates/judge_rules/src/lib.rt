//! Decides which rules the entries of a DP master class 1 break (IEC 61158-4-3 and IEC 61158-6-3), each by all entries
//! of the master before it; it reads no audit text and writes no findings.
//!
//! A [`MasterJudge`] takes the entries of one master, one after another. Before it takes one, it says of each
//! [`JudgeRule`] whether the entry breaks it. Contracts see the list of the entries so far, and a rule is a definition
//! over that list and the next entry (`specs/Rules.antt`), so the answers are exactly those of the definitions. What is
//! stored does not grow: for each station the last request and a few facts.
#![tactic(auto)]

mod answers;
pub mod bring_up_laws;
mod bring_up_rules;
mod broken;
mod bus;
pub mod bus_laws;
pub mod coding_laws;
mod entry;
pub mod exchange_laws;
mod exchange_rules;
mod fcb_rules;
mod judge;
pub mod laws;
mod parameter_rules;
mod reading;
mod rule;
mod rule_rows;
mod services;
mod stage;
mod station;
pub mod telegram_laws;
mod telegram_rules;

pub use entry::{Answer, Asked, Control, Diagnosis, Entry, Parameters, Payload, Request, Service};
pub use judge::MasterJudge;
pub use reading::entry_read;
pub use rule::{JudgeRule, RULES};
pub use rule_rows::Severity;
