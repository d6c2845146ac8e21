//! The pieces of a stream on the cable.

ghost use Rattle.std.specs.Prelude.{◌≡◌, []};
ghost use Rattle.dp_telegram.specs.Stream.{left_of, piece_of};
ghost use Rattle.cable_faults.specs.Passing.{random_words_after_piece, passage_of, passed_on, rest_with, waiting_after_piece};
ghost use Rattle.cable_faults.specs.Treatments.{sent_of};

use crate::cable::{Cable, Decision, delay_of};
use crate::options::{Direction, Options};
use crate::random_words::RandomWords;
use crate::treatment::{Treatment, copied};
use dp_telegram::{Cutter, Octets, Piece};

/// A piece of a stream that has come to the cable: a telegram, or octets that are none.
#[derive(Clone, Debug, Drop, PartialEq, Eq)]
pub struct Passage {
    /// Its octets as they came.
    pub before: Octets,
    /// What the cable does with it. Octets that are no telegram are passed on.
    pub decision: Decision,
}

impl Cable {
    /// Removes the first piece of a direction from the octets that a cutter holds, and decides what becomes of it.
    /// `random_words` are those of the direction, and `asked` is the slave of the last request.
    ///
    /// Returns None if the octets begin with no piece; then nothing changes.
    pub fn take_piece(
        &mut self,
        cutter: &mut Cutter,
        direction: Direction,
        asked: Option<u8>,
        random_words: &mut RandomWords,
    ) -> Option<Passage>
        ensures passage { result ≡ passage_of self.old direction asked random_words.old cutter.old }
        ensures left { cutter.new ≡ left_of cutter.old }
        ensures random_words { random_words.new ≡ random_words_after_piece random_words.old (piece_of cutter.old) }
        ensures waiting { (self.new).waiting.items ≡ waiting_after_piece self.old direction asked (piece_of cutter.old) }
        ensures off { (self.new).off ≡ (self.old).off }
        ensures options { (self.new).options ≡ (self.old).options }
    {
        // This shows that the cutter holds at most 255 octets.
        cutter.feed(&[]);
        let (before, decision) = {
            let piece = cutter.front()?;
            let size = piece.size();
            let before = copied(&cutter.held()[..size]);
            let decision = match &piece {
                Piece::Frame(frame) => self.take(direction, frame, asked, random_words),
                Piece::Dropped { .. } => pass_on(&self.options, direction),
            };
            (before, decision)
        };
        cutter.pass(before.len());
        Some(Passage { before, decision })
    }
}

impl Passage {
    /// Removes all octets that a cutter holds, as octets that are no whole telegram and of which this becomes.
    pub fn of_rest(cutter: &mut Cutter, treatment: Treatment) -> Passage
        ensures rest { result ≡ rest_with treatment cutter.old }
        ensures held { cutter.new ≡ [] }
    {
        cutter.feed(&[]);
        let before = copied(cutter.held());
        *cutter = Cutter::new();
        Passage {
            before,
            decision: Decision {
                treatment,
                wait: 0,
                slave: None,
                done: None,
            },
        }
    }

    /// Returns the octets that go out.
    pub fn sent(&self) -> Octets
        ensures { result.items ≡ sent_of (self.now).decision.treatment (self.now).before.items }
    {
        self.decision.treatment.sent(self.before.as_slice())
    }
}

/// Returns the decision on octets that are no telegram.
fn pass_on(options: &Options, direction: Direction) -> Decision
    ensures { result ≡ passed_on options.now direction }
{
    Decision {
        treatment: Treatment::Passed,
        wait: u64::from(delay_of(options, direction)),
        slave: None,
        done: None,
    }
}
