//! The comments of packets, which are made of the rows of an explanation.

ghost use Rattle.std.specs.Prelude.{◌≡◌, ◌++◌, ◌≤◌, drop, length, OnOk};
ghost use Rattle.std.specs.List.{flat_map};
ghost use Rattle.dp_text.specs.Words.{lines_of};
ghost use Rattle.capture_texts.specs.Comments.{answer_word, comment_front, comment_of, spaced_word, result_in_row};

use dp_line::{Event, Outcome};
use dp_text::{Lines, Text, Words, is_text};
use std::alloc::AllocError;

/// The number of spaces before the label of a row.
const INDENT: usize = 7;

/// Replaces `comment` with the comment of an entry at this place; `rows` are those of its explanation. `AllocError` if
/// memory runs out.
pub(crate) fn set_comment(
    comment: &mut Vec<u8>,
    place: u64,
    event: &Event,
    outcome: &Outcome,
    rows: &[u8],
) -> Result<(), AllocError>
    ensures { OnOk result (comment.new.items ≡ comment_of place event.now outcome.now (lines_of rows.now)) }
{
    let mut rows = Lines::new(rows);
    let head = match rows.next() {
        Some(head) => head,
        None => b"",
    };
    comment.clear();
    push_front(comment, place, event, outcome, head)?;
    comment.extend_from_slice(b":")?;
    push_results(comment, &mut rows)
}

/// Appends the front of a comment: the place and the answer to a request, or the first row of an event of the operator.
fn push_front(
    comment: &mut Vec<u8>,
    place: u64,
    event: &Event,
    outcome: &Outcome,
    head: &[u8],
) -> Result<(), AllocError>
    ensures { OnOk result (comment.new.items ≡ comment.old.items ++ comment_front place event.now outcome.now head.now) }
{
    match event {
        Event::Request { .. } => {
            let mut text = Text::new();
            text.push_str("place ");
            text.push_long(place);
            text.push_str(" ");
            text.push_str(answer_name(outcome));
            comment.extend_from_slice(text.as_bytes())
        }
        Event::Operator(_) => {
            comment.extend_from_slice(b"place")?;
            push_words(comment, &mut Words::new(head))
        }
    }
}

/// Returns the answer to a request in one word: its rule, if one rule answered it.
fn answer_name(outcome: &Outcome) -> &'static str
    ensures word { result.now ≡ answer_word outcome.now }
    ensures size { length result.now ≤ 20 }
{
    match outcome {
        Outcome::Reply { rule, .. } => rule.name(),
        Outcome::Silence(rule) => rule.name(),
        Outcome::Spread(_) => "Spread",
        Outcome::Released(_) => "Released",
        Outcome::Done => "Done",
        Outcome::Refused(_) => "Refused",
    }
}

/// Appends the results in these rows. `AllocError` if memory runs out.
fn push_results(comment: &mut Vec<u8>, rows: &mut Lines<'_>) -> Result<(), AllocError>
    ensures { OnOk result (comment.new.items ≡ comment.old.items ++ flat_map result_in_row rows.old) }
{
    while let Some(row) = rows.next() {
        push_result(comment, row)?;
    }
    Ok(())
}

/// Appends the result in a row, if it has one. `AllocError` if memory runs out.
fn push_result(comment: &mut Vec<u8>, row: &[u8]) -> Result<(), AllocError>
    ensures { OnOk result (comment.new.items ≡ comment.old.items ++ result_in_row row.now) }
{
    let mut words = Words::new(behind(row));
    let Some(label) = words.next() else {
        return Ok(());
    };
    if is_text(label, b"result") {
        return push_words(comment, &mut words);
    }
    if !is_text(label, b"slave") {
        return Ok(());
    }
    push_word(comment, label)?;
    push_words(comment, &mut words)
}

/// Returns a row without the spaces before its label; nothing if it is shorter.
fn behind(row: &[u8]) -> &[u8]
    ensures { result.now ≡ drop 7 row.now }
{
    if INDENT <= row.len() {
        row.split_at(INDENT).1
    } else {
        b""
    }
}

/// Appends the words that are left and are not empty, each after a space. `AllocError` if memory runs out.
fn push_words(comment: &mut Vec<u8>, words: &mut Words<'_>) -> Result<(), AllocError>
    ensures { OnOk result (comment.new.items ≡ comment.old.items ++ flat_map spaced_word words.old) }
{
    while let Some(word) = words.next() {
        push_word(comment, word)?;
    }
    Ok(())
}

/// Appends a word after a space, if it is not empty. `AllocError` if memory runs out.
fn push_word(comment: &mut Vec<u8>, word: &[u8]) -> Result<(), AllocError>
    ensures { OnOk result (comment.new.items ≡ comment.old.items ++ spaced_word word.now) }
{
    if word.is_empty() {
        return Ok(());
    }
    comment.extend_from_slice(b" ")?;
    comment.extend_from_slice(word)
}
