//! Deleting old parts of audit texts.
//!
//! Deleting a file of many megabytes takes milliseconds, and a writer holds up its line while it works. So the writer of a text
//! only puts old parts into a queue, and a thread of the server deletes them. If the queue is full, the writer remembers which parts
//! are due, and puts them into the queue once its next part has begun, or deletes them when serving has ended. So the parts of a
//! text are deleted in ascending order, and what is left of it has no gap, also if the program is killed.

use crate::audit_name::AuditName;
use crate::audit_writer::text_of_path;
use crate::due_parts::DueParts;
use crate::file_host::NewFiles;
use crate::times_path::{TimesPath, text_of_times_path};
use crossbeam_channel::{Receiver, Sender, bounded};
use log::Log;
use serve_log::Notes;
use std::alloc::{AllocError, Global};
use std::io::{self, Error, ErrorKind};
use std::sync::Wait;
use std::time::Clock;

/// The most old parts in the queue: two for each line of a rack. Further ones wait in the writers of their texts.
const MOST_WAITING: usize = 16;

/// What the thread that deletes takes from its queue.
#[derive(Clone, Copy)]
enum Deletion {
    /// Delete the part with this name.
    Part(AuditName),
    /// End: serving has ended.
    End,
}

/// The old parts of the audit texts in a folder, which wait to be deleted, if only the newest parts of each text stay. No clause
/// can say what is deleted: tests show it.
#[derive(Drop)]
pub struct OldParts<'s, H> {
    host: &'s H,
    notes: &'s Notes<'s, H>,
    alloc: Global,
    folder: String,
    /// How many of the newest parts of each text stay.
    keep: u16,
    sender: Sender<Deletion>,
    receiver: Receiver<Deletion>,
}

impl<'s, H: NewFiles + Wait + Log + Clock> OldParts<'s, H> {
    /// Returns an empty queue for the texts in a folder. `keep` is how many of the newest parts of each text stay.
    ///
    /// Returns an error if memory is refused.
    pub fn new(
        host: &'s H,
        notes: &'s Notes<'s, H>,
        alloc: Global,
        folder: &str,
        keep: u16,
    ) -> Result<OldParts<'s, H>, AllocError> {
        let folder = format!(in alloc; "{folder}")?;
        let (sender, receiver) = bounded(alloc, MOST_WAITING)?;
        Ok(OldParts {
            host,
            notes,
            alloc,
            folder,
            keep,
            sender,
            receiver,
        })
    }

    /// Deletes each part that comes into the queue, until [`end`](OldParts::end) is called. A thread of its own calls it.
    pub fn delete_each(&self) {
        for deletion in self.receiver.iter(self.host) {
            match deletion {
                Deletion::Part(part) => self.delete(part),
                Deletion::End => return,
            }
        }
    }

    /// Ends [`delete_each`](OldParts::delete_each), once it has deleted the parts that are in the queue.
    pub fn end(&self) {
        let _ = self.sender.send(self.host, Deletion::End);
    }

    /// Makes the parts of a text due that are not among the newest ones that stay. `newest` is the number of its newest part, which
    /// has its head. Then puts due parts into the queue, the oldest first, until it is full. What is due then waits for the next call.
    pub(crate) fn put_due(&self, text: AuditName, newest: u32, due: &mut DueParts) {
        due.add_older(self.keep, newest);
        while let Some(oldest) = due.oldest() {
            if !self.put(text.of_part(oldest)) {
                return;
            }
            due.hand_over_oldest();
        }
    }

    /// Puts a part into the queue. Returns whether there was room for it.
    fn put(&self, part: AuditName) -> bool {
        self.sender
            .try_send(self.host, Deletion::Part(part))
            .is_ok()
    }

    /// Deletes the parts that are left in the queue, and then the parts of a text that are due. It is called once
    /// [`delete_each`](OldParts::delete_each) has returned.
    pub(crate) fn delete_due(&self, text: AuditName, mut due: DueParts) {
        self.delete_rest();
        while let Some(oldest) = due.oldest() {
            self.delete(text.of_part(oldest));
            due.hand_over_oldest();
        }
    }

    /// Deletes the parts that are left in the queue.
    fn delete_rest(&self) {
        for deletion in self.receiver.try_iter(self.host) {
            match deletion {
                Deletion::Part(part) => self.delete(part),
                Deletion::End => {}
            }
        }
    }

    /// Deletes a part, and then its file of times, if there is one. Logs the cause if one of them cannot be deleted.
    fn delete(&self, part: AuditName) {
        let path = part.path_in(self.folder.as_str());
        if let Err(error) = self.remove(text_of_path(self.alloc, path)) {
            self.notes.cannot_delete(self.host, part.line, path, error);
        }
        self.delete_times(part);
    }

    /// Deletes the file of times of a part, if there is one. Logs the cause if it cannot be deleted.
    fn delete_times(&self, part: AuditName) {
        let path = TimesPath {
            folder: self.folder.as_str(),
            name: part,
        };
        if let Err(error) = self.remove(text_of_times_path(self.alloc, path)) {
            match error.kind() {
                ErrorKind::NotFound => {}
                _ => self.notes.cannot_delete(self.host, part.line, path, error),
            }
        }
    }

    /// Removes the file at a path, if there was memory for the text of the path.
    fn remove(&self, path: Result<String, AllocError>) -> io::Result<()> {
        match path {
            Ok(path) => self.host.remove_file(path.as_str()),
            Err(_) => Err(Error::from(ErrorKind::OutOfMemory)),
        }
    }
}
