//! What is untested, as rows and as lines of JSON.

ghost use Rattle.std.specs.Prelude.{◌≡◌, Some};
ghost use Rattle.std.specs.List.{flat_map, list_any};
ghost use Rattle.judge_findings.specs.Tested.{exchanges_line, exchanges_of, at_least_words, is_untested, lacks_exchanges, lacks_requests, line_line, line_row, master_line, master_row, requests_line, requests_row, untested_lines, untested_rows};

use crate::seat::Seat;
use crate::tested::Least;
use std::fmt;

/// Returns whether one of these masters sent fewer requests than are required, or fewer of their Data_Exchanges were answered.
pub(crate) fn is_untested(seats: &[Seat], least: Least) -> bool
    ensures { result ≡ is_untested least seats.now }
{
    any_lacks(seats, least) || exchanges_of(seats) < least.exchanges
}

/// Returns whether one of these masters sent fewer requests than are required.
fn any_lacks(seats: &[Seat], least: Least) -> bool
    ensures { result ≡ list_any (lacks_requests least) seats.now }
{
    seats.iter().any(|seat| lacks_requests(seat, least))
}

/// Returns whether a master sent fewer requests than are required.
pub(crate) fn lacks_requests(seat: &Seat, least: Least) -> bool
    ensures { result ≡ lacks_requests least seat.now }
{
    seat.tested.requests < least.requests
}

/// Returns how many Data_Exchanges of these masters were answered, at most the largest number of 64 bits.
pub(crate) fn exchanges_of(seats: &[Seat]) -> u64
    ensures { result ≡ exchanges_of seats.now }
{
    let mut sum: u64 = 0;
    let mut left = seats;
    while let [seat, others @ ..] = left {
        sum = sum.saturating_add(seat.tested.exchanges);
        left = others;
    }
    sum
}

/// What is untested, as rows: `  master 2 untested: requests 0, at least 1`, and behind those of masters
/// `  untested: exchanges 0, at least 1`.
#[derive(Clone, Copy)]
pub struct UntestedRows<'a> {
    /// The masters.
    pub seats: &'a [Seat],
    /// What is required; None if the text is not legal, and then there are no rows.
    pub least: Option<Least>,
}

impl<'a> fmt::Display for UntestedRows<'a> {
    ghost output = { λ s. Some (untested_rows s.least s.seats.now) };

    fn fmt<W: fmt::Write>(&self, f: &mut fmt::Formatter<W>) -> fmt::Result {
        let seats = self.seats;
        match self.least {
            Some(least) => {
                let masters = MasterRows { seats, least };
                let line = LineRow { seats, least };
                write!(f, "{masters}{line}")
            }
            None => Ok(()),
        }
    }
}

/// The rows of the masters.
#[derive(Clone, Copy)]
struct MasterRows<'a> {
    seats: &'a [Seat],
    least: Least,
}

impl<'a> fmt::Display for MasterRows<'a> {
    ghost output = { λ s. Some (flat_map (master_row s.least) s.seats.now) };

    fn fmt<W: fmt::Write>(&self, f: &mut fmt::Formatter<W>) -> fmt::Result {
        for seat in self.seats {
            let row = MasterRow {
                seat,
                least: self.least,
            };
            write!(f, "{row}")?;
        }
        Ok(())
    }
}

/// The row of a master; nothing if it sent as many requests as are required.
#[derive(Clone, Copy)]
struct MasterRow<'a> {
    seat: &'a Seat,
    least: Least,
}

impl<'a> fmt::Display for MasterRow<'a> {
    ghost output = { λ s. Some (master_row s.least s.seat.now) };

    #[tactic(auto, unfolding(crate::specs::Tested::requests_row))]
    fn fmt<W: fmt::Write>(&self, f: &mut fmt::Formatter<W>) -> fmt::Result {
        if !lacks_requests(self.seat, self.least) {
            return Ok(());
        }
        let master = self.seat.master;
        let requests = self.seat.tested.requests;
        let least = self.least.requests;
        write!(
            f,
            "  master {master} untested: requests {requests}, at least {least}\n"
        )
    }
}

/// The row of the exchanges; nothing if as many Data_Exchanges were answered as are required.
#[derive(Clone, Copy)]
struct LineRow<'a> {
    seats: &'a [Seat],
    least: Least,
}

impl<'a> fmt::Display for LineRow<'a> {
    ghost output = { λ s. Some (line_row s.least s.seats.now) };

    fn fmt<W: fmt::Write>(&self, f: &mut fmt::Formatter<W>) -> fmt::Result {
        let count = exchanges_of(self.seats);
        let least = self.least.exchanges;
        if count >= least {
            return Ok(());
        }
        let words = AtLeastWords { count, least };
        write!(f, "  untested: exchanges {words}\n")
    }
}

/// How many there were, and how many are required, in words.
#[derive(Clone, Copy)]
pub(crate) struct AtLeastWords {
    pub(crate) count: u64,
    pub(crate) least: u64,
}

impl fmt::Display for AtLeastWords {
    ghost output = { λ s. Some (at_least_words s.count s.least) };

    fn fmt<W: fmt::Write>(&self, f: &mut fmt::Formatter<W>) -> fmt::Result {
        let AtLeastWords { count, least } = *self;
        write!(f, "{count}, at least {least}")
    }
}

/// What is untested, as lines of JSON: `{"untested":{"master":2,"requests":0,"at_least":1}}`, and behind those of masters
/// `{"untested":{"exchanges":0,"at_least":1}}`.
#[derive(Clone, Copy)]
pub struct UntestedLines<'a> {
    /// The masters.
    pub seats: &'a [Seat],
    /// What is required; None if the text is not legal, and then there are no lines.
    pub least: Option<Least>,
}

impl<'a> fmt::Display for UntestedLines<'a> {
    ghost output = { λ s. Some (untested_lines s.least s.seats.now) };

    fn fmt<W: fmt::Write>(&self, f: &mut fmt::Formatter<W>) -> fmt::Result {
        let seats = self.seats;
        match self.least {
            Some(least) => {
                let masters = MasterLines { seats, least };
                let line = LineLine { seats, least };
                write!(f, "{masters}{line}")
            }
            None => Ok(()),
        }
    }
}

/// The lines of the masters.
#[derive(Clone, Copy)]
struct MasterLines<'a> {
    seats: &'a [Seat],
    least: Least,
}

impl<'a> fmt::Display for MasterLines<'a> {
    ghost output = { λ s. Some (flat_map (master_line s.least) s.seats.now) };

    fn fmt<W: fmt::Write>(&self, f: &mut fmt::Formatter<W>) -> fmt::Result {
        for seat in self.seats {
            let line = MasterLine {
                seat,
                least: self.least,
            };
            write!(f, "{line}")?;
        }
        Ok(())
    }
}

/// The line of a master; nothing if it sent as many requests as are required.
#[derive(Clone, Copy)]
struct MasterLine<'a> {
    seat: &'a Seat,
    least: Least,
}

impl<'a> fmt::Display for MasterLine<'a> {
    ghost output = { λ s. Some (master_line s.least s.seat.now) };

    #[tactic(auto, unfolding(crate::specs::Tested::requests_line))]
    fn fmt<W: fmt::Write>(&self, f: &mut fmt::Formatter<W>) -> fmt::Result {
        if !lacks_requests(self.seat, self.least) {
            return Ok(());
        }
        let master = self.seat.master;
        let requests = self.seat.tested.requests;
        let least = self.least.requests;
        write!(
            f,
            "{{\"untested\":{{\"master\":{master},\"requests\":{requests},\"at_least\":{least}}}}}\n"
        )
    }
}

/// The line of the exchanges; nothing if as many Data_Exchanges were answered as are required.
#[derive(Clone, Copy)]
struct LineLine<'a> {
    seats: &'a [Seat],
    least: Least,
}

impl<'a> fmt::Display for LineLine<'a> {
    ghost output = { λ s. Some (line_line s.least s.seats.now) };

    fn fmt<W: fmt::Write>(&self, f: &mut fmt::Formatter<W>) -> fmt::Result {
        let count = exchanges_of(self.seats);
        let least = self.least.exchanges;
        if count >= least {
            return Ok(());
        }
        let line = ExchangesLine { count, least };
        write!(f, "{line}")
    }
}

/// That fewer Data_Exchanges were answered than are required, as a line of JSON.
#[derive(Clone, Copy)]
struct ExchangesLine {
    count: u64,
    least: u64,
}

impl fmt::Display for ExchangesLine {
    ghost output = { λ s. Some (exchanges_line s.count s.least) };

    fn fmt<W: fmt::Write>(&self, f: &mut fmt::Formatter<W>) -> fmt::Result {
        let ExchangesLine { count, least } = *self;
        write!(
            f,
            "{{\"untested\":{{\"exchanges\":{count},\"at_least\":{least}}}}}\n"
        )
    }
}
