//! What a line of standard input does.

ghost use Rattle.std.specs.Prelude.{◌≡◌, ◌<◌, ◌==◌, length, position, IfSome};
ghost use Rattle.cable_faults.specs.Obeying.{answer_to, off_after, off_answer, order_answer, orders_after, with_address, with_order, without};

use crate::cable::{Cable, MOST_OFF, MOST_WAITING, contains_address};
use crate::order::{Answer, Line, Order};
use arrayvec::ArrayVec;

impl Cable {
    /// Does what a line of standard input asks for.
    pub fn obey(&mut self, line: Line) -> Answer
        ensures answer { result ≡ answer_to self.old line }
        ensures off { (self.new).off.items ≡ off_after (self.old).off.items line }
        ensures waiting { (self.new).waiting.items ≡ orders_after (self.old).waiting.items line }
        ensures options { (self.new).options ≡ (self.old).options }
    {
        match line {
            Line::Off(address) => switch_off(&mut self.off, address),
            Line::On(address) => switch_on(&mut self.off, address),
            Line::Faults(order) => queue(&mut self.waiting, order),
            Line::Clear => {
                self.off = ArrayVec::new();
                self.waiting = ArrayVec::new();
                Answer::Done
            }
        }
    }
}

/// Adds an address to those of the slaves that are off the bus.
fn switch_off(off: &mut ArrayVec<u8, MOST_OFF>, address: u8) -> Answer
    ensures answer { result ≡ off_answer off.old.items address }
    ensures off { off.new.items ≡ with_address off.old.items address }
{
    if contains_address(off, address) {
        return Answer::Done;
    }
    match off.try_push(address) {
        Ok(()) => Answer::Done,
        Err(_) => Answer::TooMany,
    }
}

/// Removes an address from those of the slaves that are off the bus. Always returns `Done`.
fn switch_on(off: &mut ArrayVec<u8, MOST_OFF>, address: u8) -> Answer
    ensures answer { result ≡ Answer.Done }
    ensures off { off.new.items ≡ without off.old.items address }
{
    if let Some(place) = place_of(off, address) {
        off.remove(place);
    }
    Answer::Done
}

/// Returns the place of an address.
fn place_of(addresses: &[u8], address: u8) -> Option<usize>
    ensures place { result ≡ position (λ one. one == address) addresses.now }
    ensures within { IfSome result (λ place. place < length addresses.now) }
{
    addresses.iter().position(|one| *one == address)
}

/// Appends an order to those that wait.
fn queue(waiting: &mut ArrayVec<Order, MOST_WAITING>, order: Order) -> Answer
    ensures answer { result ≡ order_answer waiting.old.items }
    ensures waiting { waiting.new.items ≡ with_order waiting.old.items order }
{
    match waiting.try_push(order) {
        Ok(()) => Answer::Waits,
        Err(_) => Answer::TooMany,
    }
}
