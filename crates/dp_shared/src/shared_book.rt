//! The content of the slot of a line's lock: the journal, and the pass of each entry.

ghost use Rattle.std.specs.Prelude.{◌≡◌, ◌+◌, ◌-◌, ◌<◌, ◌≤◌, ◌^◌, ◌++◌, [], box_value, if◌then◌else◌, is_some, length, None, IfSome, MatchResult};
ghost use Rattle.dp_line.specs.World.{description_of, opening_fault};
ghost use Rattle.dp_line.specs.Steps.{step};
ghost use Rattle.dp_audit.specs.Journal.{opened, opened_endless, taken};
ghost use Rattle.dp_audit.specs.Lent.{event_lent};
ghost use Rattle.dp_audit.specs.Times.{time_after, time_of};
ghost use Rattle.dp_shared.specs.Content.{IsHistory, numbers_added, taken_under, world_now};

use dp_audit::{Book, EventLent, time_after_lent};
use dp_line::{LineSpec, LineState, OpenFault, Step};
use ghost_lists::Past;
use std::alloc::Global;
use std::boxed::Box;
use std::marker::Model;

/// The journal of a line, the sum of its ticks, and the number of the pass of each entry: 0 for the halt at the last
/// place. The numbers of the entries are ghost data, since no code reads them.
///
/// The journal is in a box, because each take moves the content of the slot.
#[derive(Drop)]
pub struct SharedBook {
    book: Box<Book>,
    numbers: Past<u32>,
    /// The sum of the ticks of the entries, in units of 10 ms; `None` before the first tick.
    time: Option<u64>,
    last: u32,
    out: u32,
}

impl Model for SharedBook {
    ghost use Rattle.std.specs.Prelude.{◌≡◌, box_value, length, None};
    ghost use Rattle.dp_audit.specs.Times.{time_of};
    ghost use Rattle.dp_shared.specs.Content.{Content};

    ghost Value = { Content };

    ghost view = { λ s. record { book = box_value s.book; numbers = s.numbers.items; last = s.last; out = s.out } };

    ghost invariant = { λ s. (length s.numbers.items ≡ length (box_value s.book).entries) × (s.time ≡ time_of None (box_value s.book).entries) };
}

impl SharedBook {
    /// Opens the journal of a line at its start, without passes; all memory is reserved.
    pub(crate) fn open(alloc: Global, line: &LineSpec) -> Result<SharedBook, OpenFault>
        ensures refused { IfSome (opening_fault (description_of line.now)) (λ fault. result ≡ Err fault) }
        ensures opened { opening_fault (description_of line.now) ≡ None
            → MatchResult result (λ shared_book. shared_book ≡ record { book = opened (description_of line.now); numbers = []; last = 0; out = 0 }) (λ fault. fault ≡ OpenFault.OutOfMemory) }
    {
        let book = Book::open(alloc, line)?;
        let book = Box::new(alloc, book).map_err(|_| OpenFault::OutOfMemory)?;
        Ok(SharedBook::new(book))
    }

    /// Opens the journal of an endless line, without passes; memory for the newest entries is reserved.
    pub(crate) fn open_endless(alloc: Global, line: &LineSpec) -> Result<SharedBook, OpenFault>
        ensures refused { IfSome (opening_fault (description_of line.now)) (λ fault. result ≡ Err fault) }
        ensures opened { opening_fault (description_of line.now) ≡ None
            → MatchResult result (λ shared_book. shared_book ≡ record { book = opened_endless (description_of line.now); numbers = []; last = 0; out = 0 }) (λ fault. fault ≡ OpenFault.OutOfMemory) }
    {
        let endless = Book::open_endless(alloc, line)?;
        let endless = Box::new(alloc, endless).map_err(|_| OpenFault::OutOfMemory)?;
        Ok(SharedBook::new(endless))
    }

    /// Returns a journal that has no entry yet, without passes.
    fn new(book: Box<Book>) -> SharedBook
        requires { (box_value book).entries ≡ [] }
        ensures { result ≡ record { book = box_value book; numbers = []; last = 0; out = 0 } }
    {
        SharedBook {
            book,
            numbers: Past::new(),
            time: None,
            last: 0,
            out: 0,
        }
    }

    /// Proves facts of the type.
    pub(crate) fn prove_legal(&self)
        ensures history { IsHistory self.now }
        ensures counted { (world_now self.now).count ≡ length self.now.book.entries }
        ensures within { length self.now.book.entries ≤ self.now.book.opening.capacity }
        ensures capacity { (world_now self.now).capacity ≡ self.now.book.opening.capacity }
        ensures masters { (world_now self.now).masters ≡ self.now.book.opening.masters }
    {
        self.book.prove_legal();
    }

    /// Takes an event of the pass that has the number, and writes the answer to `answer`. It takes no memory.
    pub(crate) fn take_into(&mut self, number: u32, event: EventLent<'_>, answer: &mut Step)
        ensures answer { answer.new ≡ (step (world_now self.old) (event_lent event.entry)).answer }
        ensures content { self.new ≡ taken_under self.old number (event_lent event.entry) }
    {
        take_numbered(&mut self.book, &mut self.numbers, number, event, answer);
        self.time = time_with(self.time, event, answer);
    }

    /// Returns the line after all entries.
    pub(crate) fn state(&self) -> &LineState
        ensures { result.now ≡ self.now.book.state }
    {
        self.book.state()
    }

    /// Returns the sum of the ticks of the entries, in units of 10 ms; `None` before the first tick.
    pub(crate) fn time(&self) -> Option<u64>
        ensures { result ≡ time_of None self.now.book.entries }
    {
        self.time
    }

    /// Returns the number of entries, forgotten ones included.
    pub(crate) fn count(&self) -> u32
        ensures { result ≡ length self.now.book.entries }
    {
        self.book.count()
    }

    /// Returns the last number that was given to a pass.
    pub(crate) fn last(&self) -> u32
        ensures { result ≡ self.now.last }
    {
        self.last
    }

    /// Returns the number of passes that are out.
    pub(crate) fn out(&self) -> u32
        ensures { result ≡ self.now.out }
    {
        self.out
    }

    /// Counts one more pass, and returns its number.
    pub(crate) fn number_pass(&mut self) -> u32
        requires last { self.old.last + 1 < 2 ^ 32 }
        requires out { self.old.out + 1 < 2 ^ 32 }
        ensures number { result ≡ self.old.last + 1 }
        ensures content { self.new ≡ record self.old { last = self.old.last + 1; out = self.old.out + 1 } }
    {
        self.last += 1;
        self.out += 1;
        self.last
    }

    /// Counts one pass less as out.
    pub(crate) fn put_back(&mut self)
        ensures { self.new ≡ record self.old { out = self.old.out - 1 } }
    {
        self.out = self.out.saturating_sub(1);
    }

    /// Returns the journal.
    pub(crate) fn book(&self) -> &Book
        ensures { result.now ≡ self.now.book }
    {
        &self.book
    }
}

/// Returns the sum of the ticks after an event with this answer.
fn time_with(time: Option<u64>, event: EventLent<'_>, answer: &Step) -> Option<u64>
    ensures { result ≡ (if is_some answer.now.place then time_after time (event_lent event.entry) else time) }
{
    if answer.place.is_some() {
        time_after_lent(time, event)
    } else {
        time
    }
}

/// Takes an event, and numbers what that adds to the journal.
fn take_numbered(
    book: &mut Book,
    numbers: &mut Past<u32>,
    number: u32,
    event: EventLent<'_>,
    answer: &mut Step,
)
    requires { length numbers.old.items ≡ length book.old.entries }
    ensures answer { answer.new ≡ (step book.old.state.world (event_lent event.entry)).answer }
    ensures book { book.new ≡ taken book.old (event_lent event.entry) }
    ensures numbers { numbers.new.items ≡ numbers.old.items ++ numbers_added book.old.state.world (event_lent event.entry) number }
{
    let before = book.count();
    book.take_lent_into(event, answer);
    book.prove_legal();
    if book.count() > before {
        let number = if answer.place.is_some() { number } else { 0 };
        *numbers = numbers.followed_by(&number);
    }
}
