//! Provides what tests share: descriptions of lines ([`line_specs`]), a port with seats ([`place`]) and rows of a transcript
//! ([`rows`]); it has no tests.
#![tactic(auto)]

pub mod line_specs;
pub mod place;
pub mod rows;
