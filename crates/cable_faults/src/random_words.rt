//! Random words.

ghost use Rattle.std.specs.Prelude.{◌≡◌};
ghost use Rattle.cable_faults.specs.Chances.{random_words_after, random_words_after_draw, draw_of, first_random_words, word_of};

use rand_core::utils::NextWord;
use rand_pcg::Pcg32;

/// A sequence of random words that a seed determines: a generator PCG32.
#[derive(Clone, Copy, Debug, PartialEq, Eq)]
pub struct RandomWords {
    state: u64,
    stream: u64,
}

/// The random words of one telegram.
#[derive(Clone, Copy, Debug, PartialEq, Eq)]
pub struct Draw {
    /// Decides whether it is lost.
    pub lose: u32,
    /// Decides whether it is spoilt.
    pub spoil: u32,
    /// Decides whether it is cut.
    pub cut: u32,
    /// Decides whether it is late.
    pub late: u32,
    /// Decides where it is spoilt or cut.
    pub place: u32,
    /// Decides how an octet of it is changed.
    pub change: u32,
}

impl RandomWords {
    /// Returns the sequence with the number `stream`, below 2^63, among those of a seed.
    #[tactic(auto, unfolding(crate::specs::Chances::first_random_words))]
    pub fn new(seed: u64, stream: u64) -> RandomWords
        ensures { result ≡ first_random_words seed stream }
    {
        RandomWords {
            state: Pcg32::new(seed, stream).state(),
            stream,
        }
    }

    /// Draws the words of one telegram, always the same number of them.
    pub fn draw(&mut self) -> Draw
        ensures draw { result ≡ draw_of self.old }
        ensures after { self.new ≡ random_words_after_draw self.old }
    {
        Draw {
            lose: self.roll(),
            spoil: self.roll(),
            cut: self.roll(),
            late: self.roll(),
            place: self.roll(),
            change: self.roll(),
        }
    }

    /// Returns the next word.
    #[tactic(auto, unfolding(crate::specs::Chances::word_of, crate::specs::Chances::random_words_after))]
    fn roll(&mut self) -> u32
        ensures word { result ≡ word_of self.old }
        ensures after { self.new ≡ random_words_after self.old }
    {
        let mut generator = Pcg32::from_state(self.state, self.stream);
        let word = generator.next_word();
        self.state = generator.state();
        word
    }
}
