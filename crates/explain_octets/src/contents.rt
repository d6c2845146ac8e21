//! The data of a request, in words.

ghost use Rattle.std.specs.Prelude.{◌≡◌, ◌≤◌, Some};
ghost use Rattle.dp_telegram.specs.Access.{parts_of};
ghost use Rattle.dp_telegram.specs.FrameText.{frame_of, head_length};
ghost use Rattle.dp_telegram.specs.declared.frame.Frame.TheVariants as frames;
ghost use Rattle.dp_telegram.specs.declared.frame.Telegram.{Telegram};
ghost use Rattle.explain_octets.specs.PrivateWords.{octets_between};
ghost use Rattle.explain_octets.specs.Contents.{control_row, row_where_any, subject_at, subject_of as subject_by, telegram_row};

use crate::commands::CommandWords;
use crate::configurations::Configuration;
use crate::faults::SD2;
use crate::kinds::is_of_point;
use crate::parameters::Parameters;
use crate::read_octets::ReadOctets;
use crate::words::Hex;
use dp_globalctl::Command;
use dp_sap::{CHK_CFG, GLOBAL_CONTROL, SET_PRM};
use dp_telegram::laws::relation_and_computation_agree;
use dp_telegram::{FrameLent, PartsLent, TelegramLent};
use std::fmt;
use std::marker::Model;

/// The meaning of the data of a request (IEC 61158-6-3, service access points).
#[derive(Clone, Copy)]
pub(crate) enum Subject {
    /// The parameters of a Set_Prm.
    Parameters,
    /// The configuration of a Chk_Cfg.
    Configuration,
    /// The two octets of a Global_Control.
    Command,
    /// The outputs of a Data_Exchange.
    Outputs,
    /// Octets that are only shown in hex.
    Octets,
}

/// Returns the meaning of the octets that are sent to a point.
fn subject_for(point: Option<u8>) -> Subject
    ensures { result ≡ subject_at point }
{
    match point {
        None => Subject::Outputs,
        Some(SET_PRM) => Subject::Parameters,
        Some(CHK_CFG) => Subject::Configuration,
        Some(GLOBAL_CONTROL) => Subject::Command,
        Some(_) => Subject::Octets,
    }
}

/// The data of a request, as one row with its label (IEC 61158-6-3, service access points).
///
/// Contracts see the text that its `Display` writes, such as `outputs     01 02`; its label has 12 columns.
#[derive(Drop)]
pub struct Contents<'a> {
    subject: Subject,
    octets: &'a [u8],
}

impl<'a> Model for Contents<'a> {
    ghost use Rattle.std.specs.Prelude.{ℕ, List};
    ghost use Rattle.explain_octets.specs.Contents.{row_text};

    ghost Value = { List ℕ };

    ghost view = { λ contents. row_text contents.subject contents.octets.now };
}

impl<'a> Contents<'a> {
    ghost use Rattle.explain_octets.specs.Contents.{contents_text};

    /// Returns the data of any octets; None if they are not a telegram with data.
    #[tactic(auto, unfolding(crate::specs::Contents::contents_text))]
    pub fn from_octets(read: &ReadOctets<'a>) -> Option<Contents<'a>>
        ensures { result ≡ contents_text read.now }
    {
        match read.frame() {
            Some(FrameLent::Telegram(telegram)) => {
                Contents::of_telegram(read.octets(), &telegram)
            }
            Some(FrameLent::Token { .. }) => None,
            Some(FrameLent::Ack) => None,
            None => None,
        }
    }

    /// Returns the data of the telegram that these octets are: the octets after its access points, or its whole data unit
    /// if the access points cannot be read. None if there are no octets.
    fn of_telegram(octets: &'a [u8], telegram: &TelegramLent<'a>) -> Option<Contents<'a>>
        requires { frame_of octets.now ≡ Some (frames.Telegram telegram.now) }
        ensures { result ≡ telegram_row telegram.now (parts_of telegram.now) }
    {
        match telegram.parts() {
            Some(parts) => {
                let subject = subject_of(telegram, &parts);
                Contents::where_any(subject, parts.payload())
            }
            None => Contents::where_any(Subject::Octets, data_unit(octets)),
        }
    }

    /// Returns these octets as a row; None if there are none.
    fn where_any(subject: Subject, octets: &'a [u8]) -> Option<Contents<'a>>
        ensures { result ≡ row_where_any subject octets.now }
    {
        if octets.is_empty() {
            return None;
        }
        Some(Contents { subject, octets })
    }
}

/// Returns the data unit of octets that are a telegram: what stands between FC and the check sequence.
fn data_unit(octets: &[u8]) -> &[u8]
    ensures { (telegram : Telegram) → frame_of octets.now ≡ Some (frames.Telegram telegram) → result.now ≡ telegram.du.items }
{
    relation_and_computation_agree();
    between(octets, head_size(octets) + 3)
}

/// Returns the number of octets before DA.
fn head_size(octets: &[u8]) -> usize
    ensures size { result ≡ head_length octets.now }
    ensures few { result ≤ 4 }
{
    match octets {
        [SD2, ..] => 4,
        _ => 1,
    }
}

/// Returns the octets between the first ones, of this number, and the last two; none if there are fewer.
fn between(octets: &[u8], count: usize) -> &[u8]
    ensures { result.now ≡ octets_between count octets.now }
{
    let end = octets.len().saturating_sub(2);
    if count < end {
        &octets[count..end]
    } else {
        &[]
    }
}

/// Returns the meaning of the octets after the access points of a telegram.
fn subject_of(telegram: &TelegramLent<'_>, parts: &PartsLent<'_>) -> Subject
    ensures { result ≡ subject_by telegram.now.fc parts.now }
{
    if telegram.is_request() && is_of_point(telegram.function()) {
        subject_for(parts.dsap())
    } else {
        Subject::Octets
    }
}

impl<'a> fmt::Display for Contents<'a> {
    ghost output = { λ text. Some text };

    fn fmt<W: fmt::Write>(&self, f: &mut fmt::Formatter<W>) -> fmt::Result {
        let octets = self.octets;
        match self.subject {
            Subject::Parameters => {
                let parameters = Parameters(octets);
                write!(f, "parameters  {parameters}")
            }
            Subject::Configuration => {
                let configuration = Configuration(octets);
                write!(f, "configured  {configuration}")
            }
            Subject::Command => {
                let control = Control(octets);
                write!(f, "{control}")
            }
            Subject::Outputs => {
                let outputs = Hex(octets);
                write!(f, "outputs     {outputs}")
            }
            Subject::Octets => {
                let octets = Hex(octets);
                write!(f, "data        {octets}")
            }
        }
    }
}

/// The data of a Global_Control: two octets in words, any other number of them in hex.
#[derive(Drop)]
struct Control<'a>(&'a [u8]);

impl<'a> fmt::Display for Control<'a> {
    ghost output = { λ octets. Some (control_row octets.0.now) };

    fn fmt<W: fmt::Write>(&self, f: &mut fmt::Formatter<W>) -> fmt::Result {
        if self.0.len() == 2 {
            let command = Command::read(self.0);
            let asked = CommandWords(&command);
            write!(f, "command     {asked}")
        } else {
            let octets = Hex(self.0);
            write!(f, "data        {octets}")
        }
    }
}
