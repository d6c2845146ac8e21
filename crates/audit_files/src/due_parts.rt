//! Which parts of an audit text are due to be deleted.

ghost use Rattle.std.specs.Prelude.{◌≡◌, [], drop, slice_get};
ghost use Rattle.audit_files.specs.DueParts.{due, due_parts};

/// The parts of an audit text that are due to be deleted. The oldest one is handed over first, so what is left of a text has no gap.
#[derive(Clone, Copy)]
pub(crate) struct DueParts {
    /// The number of the newest part that was handed over to be deleted, or 0. All older ones were handed over before it.
    handed_over: u32,
    /// The number of the newest part that is to be deleted, or 0. All older ones are to be deleted too.
    to_delete: u32,
}

impl DueParts {
    /// Returns that no part is due, and none was handed over.
    pub(crate) fn new() -> DueParts
        ensures handed_over { result.handed_over ≡ 0 }
        ensures due { due result ≡ [] }
    {
        DueParts {
            handed_over: 0,
            to_delete: 0,
        }
    }

    /// Adds the parts that are older than the newest `keep` parts and were not handed over. `newest` is the number of the newest
    /// part.
    pub(crate) fn add_older(&mut self, keep: u16, newest: u32)
        ensures handed_over { self.new.handed_over ≡ self.old.handed_over }
        ensures due { due self.new ≡ due_parts keep newest self.old.handed_over }
    {
        self.to_delete = newest.saturating_sub(u32::from(keep));
    }

    /// Returns the number of the oldest part that is due, or `None` if none is.
    pub(crate) fn oldest(&self) -> Option<u32>
        ensures { result ≡ slice_get (due self.now) 0 }
    {
        if self.handed_over < self.to_delete {
            Some(self.handed_over + 1)
        } else {
            None
        }
    }

    /// Counts the oldest part that is due as handed over, if there is one. It is not due any more.
    pub(crate) fn hand_over_oldest(&mut self)
        ensures { due self.new ≡ drop 1 (due self.old) }
    {
        if self.handed_over < self.to_delete {
            self.handed_over += 1;
        }
    }
}
