//! A trail that threads share.
//!
//! Locks are taken in the order trail, line.

ghost use Rattle.std.specs.Prelude.{◌≡◌, None, Contains, IfOk, IfSome, OnOk};
ghost use Rattle.audit_trail.specs.CaughtUp.{HasCaughtUp};
ghost use Rattle.audit_trail.specs.Named.{HasRow, IsOneOf, name_of};

use crate::fault::TrailBreak;
use crate::naming::Naming;
use crate::recording::RecordEntries;
use crate::tail::Tail;
use crate::write_parts::WriteParts;
use crate::written_up_to::WrittenUpTo;
use std::io::Write;
use std::marker::PhantomData;
use std::sync::{Mutex, Wait};

/// A tail whose pass has one of the names.
#[derive(Drop)]
struct NamedTail<'l, W: Write + Drop, J: Naming> {
    tail: Tail<'l, W>,
    names: PhantomData<J>,
    ghost one: { IsOneOf J.trails tail.pass },
}

impl<'l, W: WriteParts + Drop, J: Naming> NamedTail<'l, W, J> {
    /// Writes the text lines of all entries, and returns the evidence.
    ///
    /// Returns the reason why the tail is broken.
    fn catch_up<T: Wait>(&mut self, rt: &T) -> Result<WrittenUpTo<'l, W, J>, TrailBreak>
        ensures { IfOk result (λ written_up_to. written_up_to.tail.value ≡ self.new.tail) }
    {
        match self.tail.catch_up(rt) {
            Ok(()) => Ok(WrittenUpTo::new(&self.tail)),
            Err(why) => Err(why),
        }
    }
}

/// The trail of a line, which threads share. A call that catches up writes the text lines of all entries.
#[derive(Drop)]
pub struct Trail<'l, W: Write + Drop, J: Naming> {
    tail: Mutex<NamedTail<'l, W, J>>,
}

impl<'l, W: Write + Drop, J: Naming> Trail<'l, W, J> {
    /// Returns a trail that threads share. `J` names it.
    pub fn new(tail: Tail<'l, W>) -> Trail<'l, W, J>
        requires { Contains J.trails (name_of tail.pass) }
    {
        Trail {
            tail: Mutex::new(NamedTail {
                tail,
                names: PhantomData,
            }),
        }
    }

    /// Returns the tail, once no thread shares the trail any more. Its pass has one of the names.
    ///
    /// No clause says that its looks begin with those of an evidence that the trail gave: what is known of a value under a
    /// lock is only what its type says. [`Tail::has_row`] shows at run time which places the tail has written.
    pub fn into_tail(self) -> Tail<'l, W>
        ensures { IsOneOf J.trails result.pass }
    {
        let NamedTail { tail, .. } = self.tail.into_inner();
        tail
    }
}

impl<'l, W: WriteParts + Drop, J: Naming> Trail<'l, W, J> {
    /// Writes the text lines of all entries, and returns the evidence, which is of a trail that `J` names. Waits for the
    /// trail, and then for the line.
    ///
    /// Returns the reason why the trail is broken.
    pub fn catch_up<T: Wait>(&self, rt: &T) -> Result<WrittenUpTo<'l, W, J>, TrailBreak>
        ensures { IfOk result (λ written_up_to. IsOneOf J.trails written_up_to.tail.value.pass × (written_up_to.tail.value.broken ≡ None)) }
    {
        self.tail.lock(rt).catch_up(rt)
    }

    /// Writes the text lines of all entries, also if there is no place. If there is one, the text line of that place of the
    /// line with this number is then written.
    ///
    /// Returns the reason why the trail is broken, and `Overtaken` if the trail is not of this line or has not seen the
    /// place.
    fn catch_up_to<T: Wait>(&self, rt: &T, line: u8, place: Option<u32>) -> Result<(), TrailBreak>
        ensures all { OnOk result (HasCaughtUp J.trails) }
        ensures row { OnOk result (IfSome place (HasRow W.contents J.trails line)) }
    {
        let written_up_to = match self.catch_up(rt) {
            Ok(written_up_to) => written_up_to,
            Err(why) => return Err(why),
        };
        let Some(place) = place else {
            return Ok(());
        };
        if written_up_to.has_row(line, place) {
            Ok(())
        } else {
            Err(TrailBreak::Overtaken)
        }
    }
}

impl<W: WriteParts + Drop, J: Naming> RecordEntries for Trail<'_, W, J> {
    ghost recorded = { λ trail line place. HasRow W.contents J.trails line place };

    ghost caught_up = { λ trail. HasCaughtUp J.trails };

    /// Catches up. It also fails, with `Overtaken`, if the trail is not of this line or has not seen the place. That is not
    /// so after an event of its line got the place, but no clause says it.
    fn record<T: Wait>(&self, rt: &T, line: u8, place: Option<u32>) -> Result<(), TrailBreak> {
        self.catch_up_to(rt, line, place)
    }
}
