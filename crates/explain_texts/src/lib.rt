//! Checks an audit text row by row and reports its facts: entries, holds, counts and the verdict; it opens no files, and
//! the sentences of an event are in explain_events.
//!
//! [`TextRows`] reads the rows of a text from any reader. [`explain_rows`] explains a text that is read so, and
//! [`check_rows`] checks one. A [`Follower`] takes the rows of a text one after another, so it explains a text that is
//! still being written. It begins at the header of a text or behind the head of a part, and [`explain_entries`]
//! explains the rows from there on. Each row is checked before it is explained.
//!
//! An explanation is a list of facts, which go to any receiver ([`TakesFacts`]). [`RowWriter`] writes them as rows,
//! [`JsonWriter`] as lines of JSON, and [`FactWriter`] in the form that is chosen at run time. Neither reads what the other
//! writes. The fields of a line of JSON are facts, and their keys and the sentences are tested, not proved.
//!
//! An event is taken by two lines, one of which is one event behind the other. They, the counts of 128 addresses and one
//! row of the text are all that takes memory; [`explain_rows`] and [`explain_entries`] store each hold besides, and a
//! receiver the rows and the line of one fact.
#![tactic(auto)]

mod checking;
mod choice;
mod columns;
mod count_event;
mod count_holds;
mod count_requests;
mod counts_tables;
mod ended_holds;
mod explain;
mod explain_fault;
mod explaining;
mod fact_writer;
mod follow_fault;
mod follower;
mod history;
mod hold;
mod holds;
mod json_counts;
mod json_done;
mod json_entry;
mod json_event;
mod json_field;
mod json_names;
mod json_reason;
mod json_summary;
mod json_text;
mod json_values;
mod json_writer;
pub mod laws;
mod live_list;
mod output;
mod read_fault;
mod row;
mod row_buffer;
mod row_writer;
mod rows_fault;
mod station_rows;
mod statistics;
mod statistics_rows;
mod summary;
mod summary_rows;
mod takes_facts;
mod tally;
mod tally_rows;
mod text_rows;
mod verdict;
mod verdict_words;

pub use checking::check_rows;
pub use choice::Choice;
pub use explain_fault::ExplainFault;
pub use explaining::{explain_entries, explain_rows};
pub use fact_writer::FactWriter;
pub use follow_fault::FollowFault;
pub use follower::Follower;
pub use hold::Hold;
pub use json_counts::Ways;
pub use json_values::{NumberOrNull, Quoted, truth_name};
pub use json_writer::JsonWriter;
pub use read_fault::ReadFault;
pub use row::event_of_row;
pub use row_writer::RowWriter;
pub use rows_fault::RowsFault;
pub use statistics::AddressCounts;
pub use summary::Summary;
pub use takes_facts::{TakesEntries, TakesFacts};
pub use tally::SenderCounts;
pub use text_rows::TextRows;
pub use verdict::readable;
pub use verdict_words::{set_json_verdict, set_verdict};
