//! The evidence that a trail has caught up.

ghost use Rattle.std.specs.Prelude.{◌≡◌, ◌≤◌, true, None};
ghost use Rattle.audit_trail.specs.Named.{HasRow, IsOneOf};
ghost use Rattle.audit_trail.specs.Trails.{SawAll};

use crate::naming::Naming;
use crate::tail::Tail;
use std::io::Write;
use std::marker::PhantomData;
use std::snapshot::Snapshot;

/// Shows that a trail had written the text lines of all entries that its line had at the trail's last look: `tail` is what
/// the trail was then. It is one of the trails that `J` names, so evidence of another trail does not pass for it. Only a
/// trail that caught up makes one.
#[derive(Drop)]
pub struct WrittenUpTo<'l, W: Write + Drop, J: Naming> {
    tail: Snapshot<Tail<'l, W>>,
    line: u8,
    seen: u32,
    names: PhantomData<J>,
    ghost one: { IsOneOf J.trails tail.value.pass },
    ghost unbroken: { tail.value.broken ≡ None },
    ghost of_line: { tail.value.pass.line ≡ line },
    ghost counted: { tail.value.seen ≡ seen },
    ghost all: { ∥ SawAll tail.value.pass.view.looks seen ∥₁ },
}

impl<'l, W: Write + Drop, J: Naming> WrittenUpTo<'l, W, J> {
    /// Returns the evidence that this tail has caught up.
    pub(crate) fn new(tail: &Tail<'l, W>) -> WrittenUpTo<'l, W, J>
        requires one { IsOneOf J.trails tail.now.pass }
        requires unbroken { tail.now.broken ≡ None }
        requires all { SawAll tail.now.pass.view.looks tail.now.seen }
        ensures { result.tail.value ≡ tail.now }
    {
        WrittenUpTo {
            tail: Snapshot::of(tail),
            line: tail.pass.line(),
            seen: tail.seen,
            names: PhantomData,
        }
    }

    /// Returns whether the text line of this place of the line with this number is written: the trail is of this line, and
    /// has seen the place.
    pub fn has_row(&self, line: u8, place: u32) -> bool
        ensures row { result ≡ true → HasRow W.contents J.trails line place }
        ensures complete { self.now.tail.value.pass.line ≡ line → place ≤ self.now.tail.value.seen → result ≡ true }
    {
        if self.line != line {
            return false;
        }
        if self.seen < place {
            return false;
        }
        true
    }
}
