//! The names of facts in JSON.

use dp_responder::Rule;
use dp_telegram::Function;
use explain_events::{Ending, Listing, ModeAct, Receiver, SenderAndReceiver, TakenService};
use explain_octets::service;

/// Returns the name of the way in which a hold ended.
pub(crate) fn ending_name(ending: Ending) -> &'static str {
    match ending {
        Ending::WrongConfiguration => "wrong_configuration",
        Ending::WrongParameters => "wrong_parameters",
        Ending::Unlocked => "unlocked",
        Ending::Halted => "halted",
        Ending::Watchdog => "watchdog",
        Ending::Lasts => "lasts",
    }
}

/// Returns the name of what a Sync, or a Freeze, did.
pub(crate) fn mode_act_name(act: ModeAct) -> &'static str {
    match act {
        ModeAct::NotSent => "not_sent",
        ModeAct::Acts => "acts",
        ModeAct::BesideItsEnd => "beside_its_end",
        ModeAct::NotAskedFor => "not_asked_for",
    }
}

/// Returns the name of a list of masters.
pub(crate) fn list_name(list: Listing) -> &'static str {
    match list {
        Listing::Lockers => "lockers",
        Listing::Readers => "readers",
    }
}

/// Returns the name of the service that a point takes.
pub(crate) fn taken_name(service: TakenService) -> &'static str {
    match service {
        TakenService::Sdn => "SDN",
        TakenService::Srd => "SRD",
    }
}

/// Returns the name of the sender of an event.
pub(crate) fn sender_name(sent: SenderAndReceiver) -> &'static str {
    match sent {
        SenderAndReceiver::Master(_, _) => "master",
        SenderAndReceiver::Operator(_) => "operator",
    }
}

/// Returns the address of the master that sent an event; None for the operator.
pub(crate) fn sender_address(sent: SenderAndReceiver) -> Option<u8> {
    match sent {
        SenderAndReceiver::Master(master, _) => Some(master),
        SenderAndReceiver::Operator(_) => None,
    }
}

/// Returns the name of the receiver of an event.
pub(crate) fn receiver_name(sent: SenderAndReceiver) -> &'static str {
    match sent {
        SenderAndReceiver::Master(_, Receiver::Slave(_)) => "slave",
        SenderAndReceiver::Master(_, Receiver::AllSlaves) => "all_slaves",
        SenderAndReceiver::Master(_, Receiver::Station(_)) => "station",
        SenderAndReceiver::Master(_, Receiver::Nobody) => "nobody",
        SenderAndReceiver::Operator(None) => "line",
        SenderAndReceiver::Operator(Some(_)) => "slave",
    }
}

/// Returns the address of the receiver of an event, if it is one station.
pub(crate) fn receiver_address(sent: SenderAndReceiver) -> Option<u8> {
    match sent {
        SenderAndReceiver::Master(_, Receiver::Slave(address)) => Some(address),
        SenderAndReceiver::Master(_, Receiver::AllSlaves) => None,
        SenderAndReceiver::Master(_, Receiver::Station(address)) => Some(address),
        SenderAndReceiver::Master(_, Receiver::Nobody) => None,
        SenderAndReceiver::Operator(address) => address,
    }
}

/// Returns the name of the service that a function asks for at a point; None if the function names no service, or if the
/// point is not in the access table.
pub(crate) fn service_name(function: Function, point: Option<u8>) -> Option<&'static str> {
    match function {
        Function::SdaLow
        | Function::SdaHigh
        | Function::SdnLow
        | Function::SdnHigh
        | Function::SrdLow
        | Function::SrdHigh => match point {
            Some(number) => service(number),
            None => Some("Data_Exchange"),
        },
        Function::FdlStatus | Function::Ident | Function::LsapStatus | Function::Reserved => None,
    }
}

/// Returns the name of the format of a frame, by its first octet; None if it is no start delimiter.
pub(crate) fn frame_name(octets: &[u8]) -> Option<&'static str> {
    match octets {
        [0x10, ..] => Some("SD1"),
        [0x68, ..] => Some("SD2"),
        [0xA2, ..] => Some("SD3"),
        [0xDC, ..] => Some("SD4"),
        [0xE5, ..] => Some("SC"),
        [] => None,
        [_, ..] => None,
    }
}

/// Returns the name of the outcome of a request that was answered by this rule.
pub(crate) fn outcome_name(rule: Rule) -> &'static str {
    match rule {
        Rule::Done => "done",
        Rule::Status => "answered",
        Rule::Repeat => "repeat",
        Rule::NoService
        | Rule::NotActive
        | Rule::NotHolder
        | Rule::NotListed
        | Rule::Busy
        | Rule::Length => "refused",
        Rule::NotSelected => "not_selected",
        Rule::Halted
        | Rule::NoFrame
        | Rule::NoMaster
        | Rule::ForeignSender
        | Rule::Token
        | Rule::NotRequest
        | Rule::BadFunction
        | Rule::BadExtension
        | Rule::BadBroadcast
        | Rule::NoStation => "no_reply",
    }
}
