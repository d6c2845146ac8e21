//! The stream of a master: octets in any pieces, of which each whole piece is answered.

ghost use Rattle.std.specs.Prelude.{◌≡◌, ◌≤◌, ◌<◌, ◌==◌, [], ◌++◌, length, take, map, position, IfOk, OnOk, OnErr, IfErr};
ghost use Rattle.std.specs.Io.KnownBytes.{Appends};
ghost use Rattle.dp_telegram.specs.Stream.{cut_lent};
ghost use Rattle.dp_text.specs.Writes.{WritesPrefix};
ghost use Rattle.embedded_rack.specs.EmbeddedLines.{empty_stream, piece_answered, passed};
ghost use Rattle.embedded_rack.specs.LineCalls.{answer_to_piece, piece_as_taken, piece_taken, stream_fed, stream_next, taken_by};

use crate::obey_fault::ObeyFault;
use crate::output::write_whole;
use crate::stream_laws::pieces_of_a_stream_do_not_matter;
use crate::taken_piece::TakenPiece;
use dp_audit::Book;
use dp_line::Step;
use dp_telegram::{Cutter, Piece};
use dp_text::{HexWords, Text};
use std::alloc::{AllocError, Global};
use std::io::Write;
use std::marker::Model;

/// The largest number of octets that are decoded at a time.
/// The octets after these are checked before any octet is used, so that nothing is written for a line that is no
/// command.
pub(crate) const CHUNK: usize = 64;

/// The stream of a master, which may arrive in any pieces, and a buffer for the result of a step. Each result
/// overwrites the one before, so the buffer isn't cleared for each event.
#[derive(Drop)]
pub(crate) struct Stream {
    master: u8,
    cutter: Cutter,
    step: Step,
}

impl Model for Stream {
    ghost use Rattle.std.specs.Prelude.{◌≤◌, length};
    ghost use Rattle.embedded_rack.specs.EmbeddedLines.{Stream as View};

    ghost Value = { View };

    ghost view = { λ s. record { master = s.master; held = s.cutter } };

    ghost invariant = { λ s. length s.cutter ≤ 255 };
}

/// Returns an empty stream for each of the masters; `AllocError` if memory runs out.
pub(crate) fn empty_streams(alloc: Global, masters: &[u8]) -> Result<Vec<Stream>, AllocError>
    ensures { IfOk result (λ streams. streams.items ≡ map empty_stream masters.now) }
{
    let mut streams = Vec::new(alloc);
    for master in masters {
        streams.push(Stream {
            master: *master,
            cutter: Cutter::new(),
            step: Step::blank(),
        })?;
    }
    Ok(streams)
}

/// Returns the index of the stream of a master; None if there is none.
pub(crate) fn index_of(streams: &[Stream], master: u8) -> Option<usize>
    ensures { result ≡ position (λ stream. stream.master == master) streams.now }
{
    streams.iter().position(|stream| stream.master == master)
}

impl Stream {
    /// Takes as many octets as there is room for, 255 in all, and returns how many it took.
    pub(crate) fn feed(&mut self, octets: &[u8]) -> usize
        ensures count { result ≡ taken_by self.old octets.now }
        ensures stream { self.new ≡ stream_fed self.old octets.now }
    {
        self.cutter.feed(octets)
    }

    /// Takes the first piece of the octets held, and sets the answer if it is a frame. Returns None if they can't be
    /// judged yet; then nothing changes, and [`Stream::feed`] has room.
    pub(crate) fn next(&mut self, book: &mut Book, answer: &mut Step) -> Option<TakenPiece>
        ensures journal { book.new ≡ (stream_next book.old self.old answer.old).journal }
        ensures stream { self.new ≡ (stream_next book.old self.old answer.old).stream }
        ensures answer { answer.new ≡ (stream_next book.old self.old answer.old).answer }
        ensures piece { result ≡ (stream_next book.old self.old answer.old).piece }
    {
        let piece = self.cutter.front()?;
        let count = piece.size();
        let taken = take_piece(book, self.master, piece, answer);
        self.cutter.pass(count);
        Some(taken)
    }

    /// Takes octets, and writes the answers to the pieces that they complete. The first `decoded` octets are already in
    /// `chunk`; the words in `octets` are decoded into it, one chunk after another. `WriteFault` leaves a prefix.
    pub(crate) fn pass_words<W: Write>(
        &mut self,
        book: &mut Book,
        decoded: usize,
        chunk: &mut [u8],
        mut octets: HexWords<'_>,
        text: &mut Text,
        writer: &mut W,
    ) -> Result<(), ObeyFault>
        requires chunk { length chunk.old ≡ CHUNK }
        requires decoded { decoded ≤ CHUNK }
        requires rest { decoded < CHUNK → octets ≡ [] }
        ensures journal { OnOk result (book.new ≡ (passed book.old self.old (take decoded chunk.old ++ octets.entry)).journal) }
        ensures stream { OnOk result (self.new ≡ (passed book.old self.old (take decoded chunk.old ++ octets.entry)).stream) }
        ensures ok { OnOk result (Appends (W.contents writer.old) (W.contents writer.new) (passed book.old self.old (take decoded chunk.old ++ octets.entry)).text) }
        ensures err { OnErr result (WritesPrefix (W.contents writer.old) (W.contents writer.new) (passed book.old self.old (take decoded chunk.old ++ octets.entry)).text) }
        ensures fault { IfErr result (λ stop. stop ≡ ObeyFault.WriteFault) }
    {
        pieces_of_a_stream_do_not_matter();
        let mut count = decoded;
        loop {
            self.pass(book, &chunk[..count], text, writer)?;
            if count < CHUNK {
                return Ok(());
            }
            count = octets.fill(chunk);
        }
    }

    /// Takes octets, and writes the answers to the pieces that they complete. `WriteFault` leaves a prefix.
    fn pass<W: Write>(
        &mut self,
        book: &mut Book,
        octets: &[u8],
        text: &mut Text,
        writer: &mut W,
    ) -> Result<(), ObeyFault>
        ensures journal { OnOk result (book.new ≡ (passed book.old self.old octets.now).journal) }
        ensures stream { OnOk result (self.new ≡ (passed book.old self.old octets.now).stream) }
        ensures ok { OnOk result (Appends (W.contents writer.old) (W.contents writer.new) (passed book.old self.old octets.now).text) }
        ensures err { OnErr result (WritesPrefix (W.contents writer.old) (W.contents writer.new) (passed book.old self.old octets.now).text) }
        ensures fault { IfErr result (λ stop. stop ≡ ObeyFault.WriteFault) }
    {
        let mut left = octets;
        loop {
            if let Some(piece) = self.cutter.front() {
                let count = piece.size();
                answer_piece(text, book, self.master, piece, &mut self.step);
                self.cutter.pass(count);
                write_whole(writer, text.as_bytes())?;
            } else if left.is_empty() {
                return Ok(());
            } else {
                let taken = self.cutter.feed(left);
                (_, left) = left.split_at(taken);
            }
        }
    }
}

/// Takes a piece of a master's stream, and sets the answer if it is a frame.
fn take_piece(book: &mut Book, master: u8, piece: Piece<'_>, answer: &mut Step) -> TakenPiece
    ensures journal { book.new ≡ piece_taken book.old master (cut_lent piece.entry) }
    ensures answer { answer.new ≡ answer_to_piece book.old master answer.old (cut_lent piece.entry) }
    ensures piece { result ≡ piece_as_taken (cut_lent piece.entry) }
{
    match piece {
        Piece::Frame(frame) => {
            book.take_frame_into(master, &frame, answer);
            TakenPiece::Frame
        }
        Piece::Dropped { fault, count } => TakenPiece::Dropped { fault, count },
    }
}

/// Sets the text to the answer to a piece of a master's stream: a frame is one event of the line.
fn answer_piece(text: &mut Text, book: &mut Book, master: u8, piece: Piece<'_>, step: &mut Step)
    ensures { record { journal = book.new; text = text.new } ≡ piece_answered book.old master (cut_lent piece.entry) }
{
    match piece {
        Piece::Frame(frame) => {
            book.take_frame_into(master, &frame, step);
            text.set_answer(master, &step.outcome);
        }
        Piece::Dropped { fault, count } => text.set_dropped(master, fault, count),
    }
}
