//! The entries of a line that are stored for the page.

ghost use Rattle.std.specs.Prelude.{◌≡◌, ◌++◌, ◌∷◌, [], OnOk};
ghost use Rattle.watch_lines.specs.Kept.{entry_kept, most_notable, newest, nothing_kept};

use crate::kept_entry::KeptEntry;
use std::alloc::{AllocError, Global};
use std::marker::Model;

/// The number of recent entries that are stored of a line.
pub const MOST_RECENT: usize = 300;

/// The number of notable entries that are stored of a line besides.
pub const MOST_NOTABLE: usize = 120;

/// The recent entries of a line, and of those before them the notable ones. Contracts see both.
#[derive(Drop)]
pub struct KeptEntries {
    notable: Vec<KeptEntry>,
    recent: Vec<KeptEntry>,
}

impl Model for KeptEntries {
    ghost use Rattle.std.specs.Prelude.{◌≤◌, length};
    ghost use Rattle.watch_lines.specs.Kept.{KeptView, most_notable, most_recent};

    ghost Value = { KeptView };

    ghost view = { λ k. record { notable = k.notable.items; recent = k.recent.items } };

    ghost invariant = { λ k. (length k.notable.items ≤ most_notable) × (length k.recent.items ≤ most_recent) };
}

impl KeptEntries {
    /// Stores nothing yet.
    pub(crate) fn new(alloc: Global) -> KeptEntries
        ensures { result ≡ nothing_kept }
    {
        KeptEntries {
            notable: Vec::new(alloc),
            recent: Vec::new(alloc),
        }
    }

    /// Returns the notable entries that are older than the recent ones, oldest first.
    pub fn notable(&self) -> &[KeptEntry]
        ensures { result.now ≡ self.now.notable }
    {
        self.notable.as_slice()
    }

    /// Returns the recent entries, oldest first.
    pub fn recent(&self) -> &[KeptEntry]
        ensures { result.now ≡ self.now.recent }
    {
        self.recent.as_slice()
    }

    /// Stores one more entry. If the recent entries are as many as are stored, the oldest makes room: it stays among the
    /// notable ones if it is notable, and the oldest of those makes room for it. `AllocError` if memory runs out.
    pub(crate) fn keep(&mut self, entry: KeptEntry) -> Result<(), AllocError>
        ensures { OnOk result (self.new ≡ entry_kept entry self.old) }
    {
        if self.recent.len() < MOST_RECENT {
            self.recent.push(entry)?;
            return Ok(());
        }
        let oldest = self.recent.remove(0);
        self.recent.push(entry)?;
        if oldest.is_notable {
            self.keep_notable(oldest)
        } else {
            Ok(())
        }
    }

    /// Stores one more notable entry; the oldest makes room if they are as many as are stored.
    fn keep_notable(&mut self, entry: KeptEntry) -> Result<(), AllocError>
        ensures { OnOk result (self.new ≡ record self.old { notable = newest most_notable (self.old.notable ++ entry ∷ []) }) }
    {
        if self.notable.len() == MOST_NOTABLE {
            self.notable.remove(0);
        }
        self.notable.push(entry)?;
        Ok(())
    }
}
