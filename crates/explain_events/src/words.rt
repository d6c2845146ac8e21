//! The parts that the rows of an explanation are made of.

ghost use Rattle.std.specs.Prelude.{◌≡◌, ◌<◌, ◌≤◌, if◌then◌else◌, Some, length, slice_index};
ghost use Rattle.std.specs.Fmt.{decimal};
ghost use Rattle.std.specs.List.{flat_map};
ghost use Rattle.dp_cfg.specs.Choosing.{same_octets};
ghost use Rattle.explain_events.specs.Words.{spaces, octets_words, ident_words, number_behind, numbers_words, count_words, time_words, state_words, holder_words, since_words, point_words};

use dp_sap::State;
use explain_octets::{CapitalPair, Dsap, Hex, service};
use std::fmt;

/// This number of spaces.
#[derive(Clone, Copy)]
pub struct Spaces(pub usize);

impl fmt::Display for Spaces {
    ghost output = { λ s. Some (spaces s.0) };

    fn fmt<W: fmt::Write>(&self, f: &mut fmt::Formatter<W>) -> fmt::Result {
        for _i in 0..self.0 {
            f.write_char(' ')?;
        }
        Ok(())
    }
}

/// Returns how many digits a number has in decimal, 1 to 3.
pub fn digits_of(number: u8) -> usize
    ensures digits { result ≡ length (decimal number) }
    ensures few { result < 4 }
{
    if number < 10 {
        1
    } else if number < 100 {
        2
    } else {
        3
    }
}

/// Returns how many digits a long number has in decimal, 1 to 20.
pub fn digits_of_long(number: u64) -> usize
    ensures digits { result ≡ length (decimal number) }
    ensures few { result ≤ 20 }
{
    if number < 10 {
        1
    } else {
        1 + digits_of_long(number / 10)
    }
}

/// Octets in hex, separated by spaces.
#[derive(Clone, Copy)]
pub(crate) struct OctetsWords<'a>(pub(crate) &'a [u8]);

impl<'a> fmt::Display for OctetsWords<'a> {
    ghost output = { λ octets. Some (octets_words octets.0.now) };

    fn fmt<W: fmt::Write>(&self, f: &mut fmt::Formatter<W>) -> fmt::Result {
        match self.0 {
            [] => f.write_str("none"),
            [_, ..] => {
                let octets = Hex(self.0);
                write!(f, "{octets}")
            }
        }
    }
}

/// An ident number as four hex digits.
#[derive(Clone, Copy)]
pub struct IdentWords(pub u16);

impl fmt::Display for IdentWords {
    ghost output = { λ ident. Some (ident_words ident.0) };

    fn fmt<W: fmt::Write>(&self, f: &mut fmt::Formatter<W>) -> fmt::Result {
        let high = CapitalPair((self.0 / 256 % 256) as u8);
        let low = CapitalPair((self.0 % 256) as u8);
        write!(f, "{high}{low}")
    }
}

/// Numbers, each after a comma.
#[derive(Clone, Copy)]
struct NumbersBehind<'a>(&'a [u8]);

impl<'a> fmt::Display for NumbersBehind<'a> {
    ghost output = { λ numbers. Some (flat_map number_behind numbers.0.now) };

    fn fmt<W: fmt::Write>(&self, f: &mut fmt::Formatter<W>) -> fmt::Result {
        for number in self.0 {
            let number = *number;
            write!(f, ", {number}")?;
        }
        Ok(())
    }
}

/// Numbers, separated by commas.
#[derive(Clone, Copy)]
pub(crate) struct NumbersWords<'a>(pub(crate) &'a [u8]);

impl<'a> fmt::Display for NumbersWords<'a> {
    ghost output = { λ numbers. Some (numbers_words numbers.0.now) };

    fn fmt<W: fmt::Write>(&self, f: &mut fmt::Formatter<W>) -> fmt::Result {
        match self.0 {
            [] => f.write_str("none"),
            [first, others @ ..] => {
                let first = *first;
                let others = NumbersBehind(others);
                write!(f, "{first}{others}")
            }
        }
    }
}

/// A number of octets.
#[derive(Clone, Copy)]
pub(crate) struct CountWords(pub(crate) usize);

impl fmt::Display for CountWords {
    ghost output = { λ count. Some (count_words count.0) };

    fn fmt<W: fmt::Write>(&self, f: &mut fmt::Formatter<W>) -> fmt::Result {
        let count = self.0;
        let octets = word_for(count == 1, "octet", "octets");
        write!(f, "{count} {octets}")
    }
}

/// Returns whether these are the same octets.
pub(crate) fn same_octets(octets: &[u8], others: &[u8]) -> bool
    ensures { result ≡ same_octets octets.now others.now }
{
    octets == others
}

/// Returns the octet at this index, from 0; 0 if there are fewer octets.
pub(crate) fn octet_at(octets: &[u8], index: usize) -> u8
    ensures { result ≡ slice_index octets.now index }
{
    match octets.get(index) {
        Some(octet) => *octet,
        None => 0,
    }
}

/// Returns the word for one or for several.
pub(crate) fn word_for(is_one: bool, one: &'static str, several: &'static str) -> &'static str
    ensures { result.now ≡ (if is_one then one.now else several.now) }
{
    if is_one { one } else { several }
}

/// A time in units of 10 ms, shown in milliseconds.
#[derive(Clone, Copy)]
pub(crate) struct TimeWords(pub(crate) u64);

impl fmt::Display for TimeWords {
    ghost output = { λ time. Some (time_words time.0) };

    fn fmt<W: fmt::Write>(&self, f: &mut fmt::Formatter<W>) -> fmt::Result {
        let milliseconds = 10 * u128::from(self.0);
        write!(f, "{milliseconds} ms")
    }
}

/// Returns the standard's name of a state.
pub fn state_name(state: State) -> &'static str
    ensures { result.now ≡ state_words state }
{
    match state {
        State::WaitPrm => "Wait_Prm",
        State::WaitCfg => "Wait_Cfg",
        State::DataExch => "Data_Exch",
    }
}

/// The holder of a slave.
#[derive(Clone, Copy)]
pub(crate) struct HolderWords(pub(crate) Option<u8>);

impl fmt::Display for HolderWords {
    ghost output = { λ holder. Some (holder_words holder.0) };

    fn fmt<W: fmt::Write>(&self, f: &mut fmt::Formatter<W>) -> fmt::Result {
        match self.0 {
            None => f.write_str("held by nobody"),
            Some(master) => write!(f, "held by master {master}"),
        }
    }
}

/// The entry since which something holds, by its place, at the end of a sentence.
#[derive(Clone, Copy)]
pub(crate) struct SinceWords(pub(crate) u32);

impl fmt::Display for SinceWords {
    ghost output = { λ place. Some (since_words place.0) };

    fn fmt<W: fmt::Write>(&self, f: &mut fmt::Formatter<W>) -> fmt::Result {
        let place = self.0;
        write!(f, " since entry {place}.")
    }
}

/// The name of a point; None is the default point, with the name Data_Exchange. A point outside the access table has no
/// name, and is shown as [`Dsap`].
#[derive(Clone, Copy)]
pub(crate) struct PointWords(pub(crate) Option<u8>);

impl fmt::Display for PointWords {
    ghost output = { λ point. Some (point_words point.0) };

    fn fmt<W: fmt::Write>(&self, f: &mut fmt::Formatter<W>) -> fmt::Result {
        match self.0 {
            None => f.write_str("Data_Exchange"),
            Some(number) => match service(number) {
                Some(name) => f.write_str(name),
                None => {
                    let point = Dsap(number);
                    write!(f, "{point}")
                }
            },
        }
    }
}
