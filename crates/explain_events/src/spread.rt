//! The result of a request to all slaves.

ghost use Rattle.std.specs.Prelude.{Some};
ghost use Rattle.std.specs.List.{flat_map};
ghost use Rattle.dp_line.specs.Hearing.{telegram_spelt};
ghost use Rattle.explain_events.specs.Results.{fault_in_spread, pair_row, spread_rows, spread_text};

use crate::context::{EventContext, SlaveRequest};
use crate::frames::telegram_in;
use crate::requests::OfSlave;
use crate::way::Answered;
use crate::ways::{first_fault, some_selected, way_of_pair};
use crate::words::{Spaces, digits_of};
use dp_responder::Rule;
use dp_telegram::TelegramLent;
use explain_octets::ReadOctets;
use std::fmt;

/// The width of the column of labels.
const LABEL_COLUMNS: usize = 12;

/// The answer of one slave to a request to all slaves, as a row.
#[derive(Clone, Copy)]
struct PairRow<'a> {
    context: &'a EventContext<'a>,
    asked: &'a SlaveRequest<'a>,
    pair: (u8, Rule),
}

impl<'a> fmt::Display for PairRow<'a> {
    ghost output = { λ s. Some (pair_row s.context.now s.asked.now s.pair) };

    fn fmt<W: fmt::Write>(&self, f: &mut fmt::Formatter<W>) -> fmt::Result {
        let (address, rule) = self.pair;
        let behind = Spaces(LABEL_COLUMNS.saturating_sub(6 + digits_of(address)));
        let words = OfSlave {
            context: self.context,
            asked: self.asked,
            address,
            silent: true,
            rule,
        };
        write!(f, "       slave {address}{behind}{words}\n")
    }
}

/// The answers of these slaves to a request to all slaves, each as a row.
#[derive(Clone, Copy)]
struct PairRows<'a> {
    context: &'a EventContext<'a>,
    asked: &'a SlaveRequest<'a>,
    pairs: &'a [(u8, Rule)],
}

impl<'a> fmt::Display for PairRows<'a> {
    ghost output = { λ s. Some (flat_map (pair_row s.context.now s.asked.now) s.pairs.now) };

    fn fmt<W: fmt::Write>(&self, f: &mut fmt::Formatter<W>) -> fmt::Result {
        for pair in self.pairs {
            let row = PairRow {
                context: self.context,
                asked: self.asked,
                pair: *pair,
            };
            write!(f, "{row}")?;
        }
        Ok(())
    }
}

/// The answers of these slaves to a telegram that goes to all slaves; writes nothing if its access points cannot be read.
#[derive(Clone, Copy)]
struct SpreadTelegram<'a> {
    context: &'a EventContext<'a>,
    master: u8,
    octets: &'a [u8],
    pairs: &'a [(u8, Rule)],
    telegram: &'a TelegramLent<'a>,
}

impl<'a> fmt::Display for SpreadTelegram<'a> {
    ghost output = { λ s. Some (spread_rows s.context.now s.master s.octets.now s.pairs.now (Some s.telegram.now)) };

    fn fmt<W: fmt::Write>(&self, f: &mut fmt::Formatter<W>) -> fmt::Result {
        let Some(parts) = self.telegram.parts() else {
            return Ok(());
        };
        let asked = SlaveRequest {
            master: self.master,
            octets: self.octets,
            telegram: self.telegram,
            parts,
        };
        let rows = PairRows {
            context: self.context,
            asked: &asked,
            pairs: self.pairs,
        };
        write!(f, "{rows}")
    }
}

/// The answers of these slaves to a request to all slaves; writes nothing if it is no telegram.
#[derive(Clone, Copy)]
pub(crate) struct SpreadRows<'a> {
    pub(crate) context: &'a EventContext<'a>,
    /// The address of the sender.
    pub(crate) master: u8,
    pub(crate) request: &'a ReadOctets<'a>,
    pub(crate) pairs: &'a [(u8, Rule)],
}

impl<'a> fmt::Display for SpreadRows<'a> {
    ghost output = { λ s. Some (spread_rows s.context.now s.master s.request.now s.pairs.now (telegram_spelt s.request.now)) };

    fn fmt<W: fmt::Write>(&self, f: &mut fmt::Formatter<W>) -> fmt::Result {
        let Some(telegram) = telegram_in(self.request) else {
            return Ok(());
        };
        let rows = SpreadTelegram {
            context: self.context,
            master: self.master,
            octets: self.request.octets(),
            pairs: self.pairs,
            telegram: &telegram,
        };
        write!(f, "{rows}")
    }
}

/// The first fault of the bus among the answers to a request to all slaves; writes nothing if there is none.
#[derive(Clone, Copy)]
struct FaultInSpread<'a> {
    context: &'a EventContext<'a>,
    request: &'a ReadOctets<'a>,
    pairs: &'a [(u8, Rule)],
}

impl<'a> fmt::Display for FaultInSpread<'a> {
    ghost output = { λ s. Some (fault_in_spread s.context.now s.request.now s.pairs.now) };

    fn fmt<W: fmt::Write>(&self, f: &mut fmt::Formatter<W>) -> fmt::Result {
        if !some_selected(self.pairs) {
            let way = Answered::NoneSelected.name();
            return write!(f, "; {way}");
        }
        let Some(pair) = first_fault(self.context, self.request, self.pairs) else {
            return Ok(());
        };
        let way = way_of_pair(self.context, self.request, true, *pair).name();
        let address = pair.0;
        write!(f, "; {way} at slave {address}")
    }
}

/// The result of a request to all slaves, before the answers of the slaves.
#[derive(Clone, Copy)]
pub(crate) struct SpreadWords<'a> {
    pub(crate) context: &'a EventContext<'a>,
    /// The address of the sender.
    pub(crate) master: u8,
    pub(crate) request: &'a ReadOctets<'a>,
    pub(crate) pairs: &'a [(u8, Rule)],
}

impl<'a> fmt::Display for SpreadWords<'a> {
    ghost output = { λ s. Some (spread_text s.context.now s.master s.request.now s.pairs.now) };

    fn fmt<W: fmt::Write>(&self, f: &mut fmt::Formatter<W>) -> fmt::Result {
        let master = self.master;
        match self.pairs {
            [] => write!(
                f,
                "spread: master {master} holds no slave, so the command reached none."
            ),
            [_, ..] => {
                let fault = FaultInSpread {
                    context: self.context,
                    request: self.request,
                    pairs: self.pairs,
                };
                write!(f, "spread over the slaves of master {master}{fault}:")
            }
        }
    }
}
