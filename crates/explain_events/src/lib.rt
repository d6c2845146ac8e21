//! Explains one event of a line to a person, in rows of text: what it was, its result with the reason, and what it
//! changed; it reads no audit text and counts nothing.
//!
//! The facts of an answer are plain data: [`Reason`] for the answer of a slave, [`LineReason`] for silence by a rule of the
//! line, [`OpResult`] for an event of the operator, [`Change`] for what changed. Each fact has one sentence.
//!
//! [`ExplainedEntry`] displays the rows of an event that has an outcome. It reads what was known before the event
//! ([`EventContext`]) and the line after it. Other texts about events use the sender and the receiver ([`SenderAndReceiver`]), how a hold ended ([`Ending`]), the way in which a
//! request was answered ([`Answered`]), the kind of an event ([`EventKind`]), the sentences alone ([`ResultSentence`],
//! [`SlaveSentence`]; tests compare them with the rows), and columns. Contracts see the text that each of them displays. [`is_fault`]
//! chooses the events that show a fault of the bus.
//!
//! Audit texts are in explain_texts. So the merge gate proves this crate beside dp_text and dp_audit.
#![tactic(auto)]

mod at_slave;
mod change;
mod changes;
mod chk_cfg;
mod context;
mod control;
mod done;
mod ending;
mod explained_entry;
mod frames;
mod head;
pub mod laws;
mod line_reasons;
mod line_words;
mod notes;
mod op_results;
mod operations;
mod prm_fault;
mod read_event;
mod reason;
mod reason_words;
mod releases;
mod requests;
mod result_sentence;
mod sender_and_receiver;
mod sentences;
mod services;
mod set_prm;
mod shown;
mod slots;
mod spread;
mod surprises;
mod telegram_rows;
mod way;
mod ways;
mod words;

pub use change::{Change, StateAndHolder, change_at, touched};
pub use changes::same_holder;
pub use context::EventContext;
pub use done::{CfgDone, Controlled, Done, ModeAct, PrmDone};
pub use ending::Ending;
pub use explain_octets::ReadOctets;
pub use explained_entry::ExplainedEntry;
pub use head::EventKind;
pub use line_reasons::{LineReason, line_reason};
pub use notes::{Noted, first_notes, note_event};
pub use op_results::{Expired, OpResult, expired_at, op_result};
pub use read_event::ReadEvent;
pub use reason::{Lengths, Listing, Reason, Repeat, TakenService, reason_at};
pub use releases::{Release, Taken, first_releases, note_releases, release_of};
pub use result_sentence::{ResultSentence, SlaveSentence};
pub use sender_and_receiver::{Receiver, SenderAndReceiver};
pub use shown::slave_at;
pub use way::Answered;
pub use ways::{answered, is_fault, some_selected, way_of_pair};
pub use words::{IdentWords, Spaces, digits_of, digits_of_long, state_name};
