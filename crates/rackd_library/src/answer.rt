//! What C receives for a telegram.

ghost use Rattle.std.specs.Prelude.{◌≡◌, ◌≤◌, length};
ghost use Rattle.rackd_library.specs.Answers.{answer_of_step, refused_answer, reply_octets, rule_number, written_over};

use dp_line::{Outcome, Step};

/// The most octets of a reply.
pub(crate) const MOST_REPLY: usize = 255;

/// The number of a call that did what it says.
pub(crate) const DONE: u32 = 0;

/// What C receives for a telegram, beside the octets of its reply.
#[derive(Drop)]
pub(crate) struct Answer {
    /// The number of the call: 0, or its fault.
    pub(crate) done: u32,
    /// The number of octets of the reply; 0 for none.
    pub(crate) count: usize,
    /// The number of the rule that decided; 0 for a Global_Control, and after a fault.
    pub(crate) rule: u8,
    /// The place of the entry in the journal, from 1; 0 if there is none.
    pub(crate) place: u32,
}

/// Returns the answer of a call that is refused.
pub(crate) fn refused(done: u32) -> Answer
    ensures { result ≡ refused_answer done }
{
    Answer {
        done,
        count: 0,
        rule: 0,
        place: 0,
    }
}

/// Sets what C receives beside the number of the call, which is returned.
pub(crate) fn set_answer(answer: Answer, count: &mut usize, rule: &mut u8, place: &mut u32) -> u32
    ensures { record { done = result; count = count.new; rule = rule.new; place = place.new } ≡ answer }
{
    *count = answer.count;
    *rule = answer.rule;
    *place = answer.place;
    answer.done
}

/// Copies the reply to an event, and returns what else C receives for it.
pub(crate) fn answered(step: &Step, reply: &mut [u8]) -> Answer
    requires { MOST_REPLY ≤ length reply.old }
    ensures answer { result ≡ answer_of_step step.now }
    ensures reply { reply.new ≡ written_over (reply_octets step.now.outcome) reply.old }
{
    Answer {
        done: DONE,
        count: put_reply(&step.outcome, reply),
        rule: rule_of(&step.outcome),
        place: step.place.unwrap_or(0),
    }
}

/// Copies the reply of an outcome, if it has one, and returns its number of octets.
fn put_reply(outcome: &Outcome, reply: &mut [u8]) -> usize
    requires { MOST_REPLY ≤ length reply.old }
    ensures count { result ≡ length (reply_octets outcome.now) }
    ensures reply { reply.new ≡ written_over (reply_octets outcome.now) reply.old }
{
    match outcome {
        Outcome::Reply { octets, .. } => put(octets.as_slice(), reply),
        Outcome::Silence(_) => 0,
        Outcome::Spread(_) => 0,
        Outcome::Released(_) => 0,
        Outcome::Done => 0,
        Outcome::Refused(_) => 0,
    }
}

/// Copies octets to the front of a room, and returns their number.
fn put(octets: &[u8], room: &mut [u8]) -> usize
    requires { length octets.now ≤ length room.old }
    ensures count { result ≡ length octets.now }
    ensures room { room.new ≡ written_over octets.now room.old }
{
    room[..octets.len()].copy_from_slice(octets);
    octets.len()
}

/// Returns the number of the rule of an outcome; 0 if it has none.
fn rule_of(outcome: &Outcome) -> u8
    ensures { result ≡ rule_number outcome.now }
{
    match outcome {
        Outcome::Reply { rule, .. } => rule.code(),
        Outcome::Silence(rule) => rule.code(),
        Outcome::Spread(_) => 0,
        Outcome::Released(_) => 0,
        Outcome::Done => 0,
        Outcome::Refused(_) => 0,
    }
}
