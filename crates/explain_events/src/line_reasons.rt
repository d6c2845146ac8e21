//! The facts of a request to which nobody replies, by a rule that concerns the line.

ghost use Rattle.std.specs.Prelude.{◌≡◌, ◌==◌, Some, option_map};
ghost use Rattle.std.specs.List.{list_any};
ghost use Rattle.std.specs.Option.{option_and_then};
ghost use Rattle.dp_telegram.specs.FrameText.{frame_of};
ghost use Rattle.dp_telegram.specs.Access.{source_of};
ghost use Rattle.dp_telegram.specs.Lent.{frame_lent};
ghost use Rattle.dp_line.specs.Hearing.{telegram_of_frame};
ghost use Rattle.explain_events.specs.LineReasons.{line_reason_of, no_station_reason};

use crate::frames::is_fdl_status;
use dp_responder::Rule;
use dp_telegram::{FrameLent, TelegramLent};
use explain_octets::ReadOctets;

/// Why nobody replies to a request, by a rule that concerns the line (own). One rule has one fact, but for `NoStation`,
/// which has three.
#[derive(Clone, Copy)]
pub enum LineReason {
    /// `Halted`: the line takes no more events.
    Halted,
    /// `NoFrame`: the octets are no single frame.
    NoFrame,
    /// `NoMaster`: this sender is no master of the line.
    NoMaster(u8),
    /// `ForeignSender`: the frame names this station as its sender; None if it names no station.
    ForeignSender(Option<u8>),
    /// `Token`: a token asks for nothing.
    Token,
    /// `NotRequest`: a response asks for nothing.
    NotRequest,
    /// `BadFunction`: the function is reserved.
    BadFunction,
    /// `BadExtension`: an extension octet is missing or not plain.
    BadExtension,
    /// `BadBroadcast`: only a Global_Control goes to all slaves.
    BadBroadcast,
    /// `NoStation`: no station has the address.
    NoStation,
    /// `NoStation`: the station with this address is a master of the line.
    MasterStation(u8),
    /// `NoStation`: an FDL status request looks for new stations.
    LiveListPoll,
}

/// Returns why nobody replies to a request of this sender by this rule; None for a rule that concerns a slave. `masters` are
/// those of the line.
pub fn line_reason(
    masters: &[u8],
    master: u8,
    request: &ReadOctets<'_>,
    rule: Rule,
) -> Option<LineReason>
    ensures { result ≡ line_reason_of masters.now master (frame_of request.now) rule }
{
    line_reason_by(masters, master, &request.frame(), rule)
}

/// Returns why nobody replies to this frame. See [`line_reason`].
fn line_reason_by(
    masters: &[u8],
    master: u8,
    frame: &Option<FrameLent<'_>>,
    rule: Rule,
) -> Option<LineReason>
    ensures { result ≡ line_reason_of masters.now master (option_map frame_lent frame.now) rule }
{
    match rule {
        Rule::Halted => Some(LineReason::Halted),
        Rule::NoFrame => Some(LineReason::NoFrame),
        Rule::NoMaster => Some(LineReason::NoMaster(master)),
        Rule::ForeignSender => Some(LineReason::ForeignSender(source_of(frame))),
        Rule::Token => Some(LineReason::Token),
        Rule::NotRequest => Some(LineReason::NotRequest),
        Rule::BadFunction => Some(LineReason::BadFunction),
        Rule::BadExtension => Some(LineReason::BadExtension),
        Rule::BadBroadcast => Some(LineReason::BadBroadcast),
        Rule::NoStation => Some(no_station(masters, frame)),
        Rule::Status
        | Rule::NoService
        | Rule::Repeat
        | Rule::NotActive
        | Rule::NotHolder
        | Rule::NotListed
        | Rule::Busy
        | Rule::Length
        | Rule::NotSelected
        | Rule::Done => None,
    }
}

/// Returns the station that a frame names as its sender; None if it names none, or is none.
fn source_of(frame: &Option<FrameLent<'_>>) -> Option<u8>
    ensures { result ≡ option_and_then source_of (option_map frame_lent frame.now) }
{
    match frame {
        Some(frame) => frame.source(),
        None => None,
    }
}

/// Returns why no slave has the address of a frame.
fn no_station(masters: &[u8], frame: &Option<FrameLent<'_>>) -> LineReason
    ensures { result ≡ no_station_reason masters.now (option_and_then telegram_of_frame (option_map frame_lent frame.now)) }
{
    match frame {
        Some(FrameLent::Telegram(telegram)) => absent_station(masters, telegram),
        Some(FrameLent::Token { .. }) => LineReason::NoStation,
        Some(FrameLent::Ack) => LineReason::NoStation,
        None => LineReason::NoStation,
    }
}

/// Returns why no slave has the address of a telegram.
fn absent_station(masters: &[u8], telegram: &TelegramLent<'_>) -> LineReason
    ensures { result ≡ no_station_reason masters.now (Some telegram.now) }
{
    let address = telegram.destination();
    if has_address(masters, address) {
        LineReason::MasterStation(address)
    } else if is_fdl_status(telegram) {
        LineReason::LiveListPoll
    } else {
        LineReason::NoStation
    }
}

/// Returns whether one of the masters has this address.
fn has_address(masters: &[u8], address: u8) -> bool
    ensures { result ≡ list_any (λ master. master == address) masters.now }
{
    masters.iter().any(|master| *master == address)
}
