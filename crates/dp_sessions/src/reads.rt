//! How sessions read.

ghost use Rattle.std.specs.Prelude.{◌≡◌, ◌+◌, ◌≤◌, ℕ, Bool, true, OnErr};
ghost use Rattle.std.specs.Io.{ReadsAtMost};
ghost use Rattle.std.specs.Io.KnownBytes.{ReadConsumes};

use std::io::Read;

/// How a session reads: by one call of [`Reads::read`] for each read, and in no other way.
///
/// A client whose reader counts its reads implements this trait for it. The bound on reads in the contracts of
/// [`serve_by`](crate::serve_by) and of the other calls with a `C: Reads<R>` is then a bound on that count.
///
/// The count is a trait beside the reader, because `Read` has no ghost member for it, and a wrapper by the session
/// would not count in the caller's terms. The method is static and takes the reader by `&mut`, so nothing is wrapped.
pub trait Reads<R: Read> {
    /// The number of reads that a reader has counted.
    ghost reads: { R → ℕ };

    /// Whether a read of the reader may have failed.
    ghost failed: { R → Bool };

    /// Makes one read.
    fn read(reader: &mut R, buf: &mut [u8]) -> std::io::Result<usize>
        ensures bound { ReadsAtMost result buf.new }
        ensures bytes { ReadConsumes (R.remaining reader.old) (R.remaining reader.new) result buf.new }
        ensures counted { reads reader.new ≤ reads reader.old + 1 }
        ensures failed { OnErr result (failed reader.new ≡ true) };
}

/// Reads without a count: [`serve`](crate::serve) and the other calls without a `C: Reads<R>` use it.
pub struct Uncounted;

impl<R: Read> Reads<R> for Uncounted {
    ghost reads = { λ _. 0 };

    ghost failed = { λ _. true };

    fn read(reader: &mut R, buf: &mut [u8]) -> std::io::Result<usize> {
        reader.read(buf)
    }
}
