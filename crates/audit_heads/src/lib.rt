//! The head of a part of an endless audit text: the state of the line at a place, written as rows and read back exactly
//! (own); it reads no entries.
//!
//! The definitions `head_text` and `head_read` of `specs/Head` say what a head is. [`laws`] has what holds of
//! them: a head is read back from its text, nothing else is read, and a head has a bounded size.
//!
//! [`push_head`] appends the head of a line, and [`read_head`] makes a line that goes on from one.
//!
//! For each kind of row there is a call that sets a [`dp_text::Text`] to it, without its LF, as [`set_hold_state`],
//! and one that reads it, as [`hold_state_in_row`]: it returns what the row says, if it is exactly the row that the
//! first call would set. [`Rows`] has the rows of a text. None of them takes memory.
#![tactic(auto)]

mod field_words;
mod head_fault;
mod head_reading;
mod head_writing;
pub mod laws;
mod reading;
mod rows;
mod running;
mod words;
mod writing;

pub use head_fault::HeadFault;
pub use head_reading::{ReadHead, read_head};
pub use head_writing::push_head;
pub use reading::{
    data_in_row, diag_in_row, hold_state_in_row, last_in_row, place_in_row, prm_in_row,
    running_in_row, settings_in_row,
};
pub use rows::Rows;
pub use running::Running;
pub use writing::{
    set_data, set_diag, set_header, set_hold_state, set_last, set_prm, set_running, set_settings,
};
