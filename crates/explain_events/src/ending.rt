//! The ways in which a hold ends.

ghost use Rattle.std.specs.Prelude.{◌≡◌, ◌&&◌, not, if◌then◌else◌, Some};
ghost use Rattle.dp_prm.specs.Meaning.{is_short, unlock_req};
ghost use Rattle.dp_line.specs.Hearing.{telegram_spelt};
ghost use Rattle.explain_events.specs.Endings.{ending_by_parts, ending_by_telegram, ending_by, ending_text};

use crate::frames::telegram_in;
use crate::operations::is_halt;
use crate::prm_fault::is_set;
use dp_line::Event;
use dp_prm::UNLOCK_REQ;
use dp_sap::CHK_CFG;
use dp_telegram::{PartsLent, TelegramLent};
use explain_octets::ReadOctets;

/// The way in which a hold of a slave ended.
#[derive(Clone, Copy)]
pub enum Ending {
    /// Chk_Cfg was wrong.
    WrongConfiguration,
    /// Set_Prm was wrong.
    WrongParameters,
    /// Set_Prm unlocked.
    Unlocked,
    /// The line halted.
    Halted,
    /// The watchdog ran out.
    Watchdog,
    /// It lasts to the end.
    Lasts,
}

impl Ending {
    /// Returns how the hold ended that this event ended.
    pub fn by(event: &Event) -> Ending
        ensures { result ≡ ending_by event.now }
    {
        match event {
            Event::Request { octets, .. } => Ending::by_octets(octets.as_slice()),
            Event::Operator(op) => {
                if is_halt(op) {
                    Ending::Halted
                } else {
                    Ending::Watchdog
                }
            }
        }
    }

    fn by_octets(octets: &[u8]) -> Ending
        ensures { result ≡ ending_by_telegram (telegram_spelt octets.now) }
    {
        match telegram_in(&ReadOctets::new(octets)) {
            Some(telegram) => Ending::by_telegram(&telegram),
            None => Ending::WrongParameters,
        }
    }

    fn by_telegram(telegram: &TelegramLent<'_>) -> Ending
        ensures { result ≡ ending_by_telegram (Some telegram.now) }
    {
        match telegram.parts() {
            Some(parts) => Ending::by_parts(&parts),
            None => Ending::WrongParameters,
        }
    }

    fn by_parts(parts: &PartsLent<'_>) -> Ending
        ensures { result ≡ ending_by_parts (Some parts.now) }
    {
        match parts.dsap() {
            Some(CHK_CFG) => Ending::WrongConfiguration,
            Some(_) => Ending::by_parameters(parts.payload()),
            None => Ending::by_parameters(parts.payload()),
        }
    }

    /// Returns how the hold ended that a Set_Prm with these octets ended.
    fn by_parameters(octets: &[u8]) -> Ending
        ensures { result ≡ (if not (is_short octets.now) && unlock_req octets.now then Ending.Unlocked else Ending.WrongParameters) }
    {
        let [status, _, _, _, _, _, _, ..] = octets else {
            return Ending::WrongParameters;
        };
        if is_set(UNLOCK_REQ, *status) {
            Ending::Unlocked
        } else {
            Ending::WrongParameters
        }
    }

    /// Returns the way in words.
    pub fn name(self) -> &'static str
        ensures { result.now ≡ ending_text self }
    {
        match self {
            Ending::WrongConfiguration => "wrong configuration",
            Ending::WrongParameters => "wrong parameters",
            Ending::Unlocked => "unlocked",
            Ending::Halted => "the line halted",
            Ending::Watchdog => "its watchdog ran out",
            Ending::Lasts => "to the end",
        }
    }
}
