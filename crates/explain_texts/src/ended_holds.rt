//! The holds that ended. They are reported in the summary, after the last entry, so they are stored until then.

ghost use Rattle.std.specs.Prelude.{◌≡◌, [], Some, None, unwrap_or, OnOk};
ghost use Rattle.explain_texts.specs.Following.{stored_with};
ghost use Rattle.explain_texts.specs.Holds.{holds_ended};

use crate::explain_fault::ExplainFault;
use crate::hold::Hold;
use crate::holds::push_ended;
use dp_line::Outcome;
use explain_events::{ReadEvent, Taken};
use std::alloc::Global;
use std::marker::Model;

/// The holds that ended, in the order in which they ended; nothing is stored if no summary is reported. Contracts see the
/// list.
#[derive(Drop)]
pub(crate) struct EndedHolds {
    holds: Option<Vec<Hold>>,
}

impl Model for EndedHolds {
    ghost use Rattle.std.specs.Prelude.{List, Option, option_map};
    ghost use Rattle.explain_texts.specs.declared.hold.Hold.{Hold};

    ghost Value = { Option (List Hold) };

    ghost view = { λ h. option_map (λ holds. holds.items) h.holds };
}

impl EndedHolds {
    /// Returns an empty list of holds, which are stored. Each hold takes memory.
    pub(crate) fn stored(alloc: Global) -> EndedHolds
        ensures { result ≡ Some [] }
    {
        EndedHolds {
            holds: Some(Vec::new(alloc)),
        }
    }

    /// Returns a list of holds of which none is stored. It takes no memory.
    pub(crate) fn not_stored() -> EndedHolds
        ensures { result ≡ None }
    {
        EndedHolds { holds: None }
    }

    /// Appends the holds that an event ended, if holds are stored. Returns `OutOfMemory` if memory runs out.
    pub(crate) fn push(
        &mut self,
        taken: &Taken<'_>,
        event: &ReadEvent<'_>,
        outcome: &Outcome,
    ) -> Result<(), ExplainFault>
        requires { event.now ≡ taken.now.event.now }
        ensures { OnOk result (self.new ≡ stored_with (holds_ended taken.now.before.now.world taken.now.after.now.world taken.now.place taken.now.event.now outcome.now) self.old) }
    {
        let Some(holds) = &mut self.holds else {
            return Ok(());
        };
        match push_ended(holds, taken, event, outcome) {
            Ok(()) => Ok(()),
            Err(_) => Err(ExplainFault::OutOfMemory),
        }
    }

    /// Returns the holds so far; none if holds are not stored.
    pub(crate) fn holds(&self) -> &[Hold]
        ensures { result.now ≡ unwrap_or self.now [] }
    {
        match &self.holds {
            Some(holds) => holds.as_slice(),
            None => &[],
        }
    }
}
