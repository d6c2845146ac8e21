//! Bytes that only contracts read and that take no memory: what a file accepted.

ghost use Rattle.std.specs.Prelude.{◌≡◌, ℕ, List, [], ◌++◌};
ghost use Rattle.std.specs.Borrow.{ftrue};

use std::marker::{Model, PhantomData};

/// Bytes that contracts read and no code does. They take no memory, and the calls do nothing at run time.
///
/// Only the contracts of the calls state which bytes these are. So a contract that mentions only such bytes says nothing
/// about a program: [`PartFile`](crate::part_file::PartFile) ties them to the calls of a writer.
#[derive(Drop)]
pub(crate) struct WrittenBytes {
    marker: PhantomData<u8>,
    pub ghost bytes: { List ℕ },
}

impl Model for WrittenBytes {
    ghost also_owns = { λ _. ftrue };
}

// It owns nothing, so it may move to another thread.
unsafe impl Send for WrittenBytes {}

impl WrittenBytes {
    /// Returns no bytes.
    pub(crate) fn new() -> WrittenBytes
        ensures { result.bytes ≡ [] }
    {
        WrittenBytes {
            marker: PhantomData,
        }
    }

    /// Appends bytes.
    #[inline(always)]
    pub(crate) fn append(&mut self, _bytes: &[u8])
        ensures { self.new.bytes ≡ self.old.bytes ++ _bytes.now }
    {}

    /// Returns these bytes, followed by later ones.
    #[inline(always)]
    pub(crate) fn followed_by(&self, _later: &WrittenBytes) -> WrittenBytes
        ensures { result.bytes ≡ self.now.bytes ++ _later.now.bytes }
    {
        WrittenBytes {
            marker: PhantomData,
        }
    }
}
