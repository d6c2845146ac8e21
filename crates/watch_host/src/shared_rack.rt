//! What the page shows, behind its lock.

ghost use Rattle.watch_host.specs.Answers.{MayAnswer};

use std::alloc::{AllocError, Global};
use std::sync::{Mutex, Wait};
use watch_json::RackJson;
use watch_lines::WatchedRack;
use watch_page::{StateSource, entries_after};

/// The lines of a rack as the page shows them, with the names of the rack file and of the folder.
#[derive(Drop)]
pub(crate) struct SharedRack<'a, 'w, H: Wait> {
    pub(crate) host: &'a H,
    pub(crate) rack: &'a Mutex<WatchedRack<'w>>,
    pub(crate) file: &'a str,
    pub(crate) folder: &'a str,
    /// The number that distinguishes this run from others.
    pub(crate) run: u64,
}

impl<'a, 'w, H: Wait> StateSource for SharedRack<'a, 'w, H> {
    ghost may_answer = { λ shared query text. MayAnswer shared.run shared.file.now shared.folder.now query text };

    fn state_text(&self, alloc: Global, query: Option<&str>) -> Result<String, AllocError> {
        let mut text = String::new(alloc);
        let rack = self.rack.lock(self.host);
        let json = RackJson {
            rack: &rack,
            file: self.file,
            folder: self.folder,
            run: self.run,
            after: entries_after(query, self.run),
        };
        write!(text, "{json}")?;
        Ok(text)
    }
}
