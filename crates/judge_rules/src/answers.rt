//! Reads the answer to a request, as its sender sees it.

ghost use Rattle.std.specs.Prelude.{◌≡◌, ◌==◌};
ghost use Rattle.std.specs.List.{list_all};
ghost use Rattle.dp_line.specs.Hearing.{telegram_spelt};
ghost use Rattle.judge_rules.specs.Reading.{answer_done, answer_of, diagnosis_answer, diagnosis_of, is_dh_reply, is_not_selected, none_selected, reply_by, silence_by};

use crate::entry::{Answer, Diagnosis, Service};
use crate::services::{is_set, octet_at};
use dp_line::Outcome;
use dp_responder::Rule;
use dp_telegram::function_code::DH;
use dp_telegram::{FrameLent, TelegramLent};
use explain_octets::ReadOctets;

/// Master_Add if no master holds the slave.
const NO_MASTER: u8 = 255;

/// Returns the answer to a request of this master for the service.
pub(crate) fn answer_of(master: u8, service: Service, outcome: &Outcome) -> Answer
    ensures { result ≡ answer_of master service outcome.now }
{
    match outcome {
        Outcome::Reply { octets, rule } => reply_by(master, service, octets.as_slice(), *rule),
        Outcome::Silence(rule) => silence_by(*rule),
        Outcome::Spread(pairs) => {
            if none_selected(pairs.as_slice()) {
                Answer::NoneSelected
            } else {
                Answer::Silence
            }
        }
        Outcome::Done => Answer::Silence,
        Outcome::Released(_) => Answer::Silence,
        Outcome::Refused(_) => Answer::Silence,
    }
}

/// Returns whether there is a slave, and the Global_Control selects none.
fn none_selected(pairs: &[(u8, Rule)]) -> bool
    ensures { result ≡ none_selected pairs.now }
{
    !pairs.is_empty() && all_not_selected(pairs)
}

fn all_not_selected(pairs: &[(u8, Rule)]) -> bool
    ensures { result ≡ list_all (λ pair. is_not_selected pair.1) pairs.now }
{
    pairs.iter().all(|pair| is_not_selected(pair.1))
}

/// Returns whether a Global_Control does not select the slave.
fn is_not_selected(rule: Rule) -> bool
    ensures { result ≡ is_not_selected rule }
{
    matches!(rule, Rule::NotSelected)
}

/// Returns the answer of no reply by this rule.
fn silence_by(rule: Rule) -> Answer
    ensures { result ≡ silence_by rule }
{
    if is_not_selected(rule) {
        Answer::NoneSelected
    } else {
        Answer::Silence
    }
}

/// Returns the answer of a reply by this rule.
fn reply_by(master: u8, service: Service, octets: &[u8], rule: Rule) -> Answer
    ensures { result ≡ reply_by master service octets.now rule }
{
    match rule {
        Rule::Done => answer_done(master, service, octets),
        Rule::Status => Answer::Done,
        Rule::Repeat => Answer::Repeat,
        Rule::Busy => Answer::Rr,
        Rule::Length => Answer::Ue,
        Rule::NoService => Answer::Rs,
        Rule::NotActive => Answer::Rs,
        Rule::NotHolder => Answer::Rs,
        Rule::NotListed => Answer::Rs,
        Rule::Halted => Answer::Silence,
        Rule::NoFrame => Answer::Silence,
        Rule::NoMaster => Answer::Silence,
        Rule::ForeignSender => Answer::Silence,
        Rule::Token => Answer::Silence,
        Rule::NotRequest => Answer::Silence,
        Rule::BadFunction => Answer::Silence,
        Rule::BadExtension => Answer::Silence,
        Rule::BadBroadcast => Answer::Silence,
        Rule::NoStation => Answer::Silence,
        Rule::NotSelected => Answer::Silence,
    }
}

/// Returns the answer of the reply to a service that is done.
fn answer_done(master: u8, service: Service, octets: &[u8]) -> Answer
    ensures { result ≡ answer_done master service octets.now }
{
    match service {
        Service::DataExchange => {
            if is_dh_reply(octets) {
                Answer::Dh
            } else {
                Answer::Done
            }
        }
        Service::SlaveDiag => diagnosis_answer(master, octets),
        Service::MasterToMaster => Answer::Done,
        Service::SetSlaveAdd => Answer::Done,
        Service::RdInp => Answer::Done,
        Service::RdOutp => Answer::Done,
        Service::GlobalControl(_) => Answer::Done,
        Service::GetCfg => Answer::Done,
        Service::SetPrm(_) => Answer::Done,
        Service::ChkCfg => Answer::Done,
        Service::Unknown => Answer::Done,
    }
}

/// Returns the telegram that the octets spell.
fn telegram_in<'a>(octets: &'a [u8]) -> Option<TelegramLent<'a>>
    ensures { result ≡ telegram_spelt octets.now }
{
    let read = ReadOctets::new(octets);
    match read.frame() {
        Some(FrameLent::Telegram(telegram)) => Some(telegram),
        Some(FrameLent::Token { .. }) => None,
        Some(FrameLent::Ack) => None,
        None => None,
    }
}

/// Returns whether the function of a reply is DH.
fn is_dh_reply(octets: &[u8]) -> bool
    ensures { result ≡ is_dh_reply octets.now }
{
    match telegram_in(octets) {
        Some(telegram) => telegram.fc() & 0x0F == DH,
        None => false,
    }
}

/// Returns the answer of the reply to Slave_Diag.
fn diagnosis_answer(master: u8, octets: &[u8]) -> Answer
    ensures { result ≡ diagnosis_answer master octets.now }
{
    let Some(telegram) = telegram_in(octets) else {
        return Answer::Done;
    };
    match telegram.parts() {
        Some(parts) => Answer::Diagnosis(diagnosis_of(master, parts.payload())),
        None => Answer::Done,
    }
}

/// Returns what these octets of a diagnosis say to the master.
fn diagnosis_of(master: u8, octets: &[u8]) -> Diagnosis
    ensures { result ≡ diagnosis_of master octets.now }
{
    let holder = octet_at(octets, 3);
    Diagnosis {
        is_of_other: holder != NO_MASTER && holder != master,
        needs_parameters: is_set(0, octet_at(octets, 1)),
        is_ready: !is_set(1, octet_at(octets, 0)),
    }
}
