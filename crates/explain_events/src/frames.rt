//! The telegram that octets are.

ghost use Rattle.std.specs.Prelude.{◌≡◌};
ghost use Rattle.dp_line.specs.Hearing.{telegram_spelt};
ghost use Rattle.dp_line.specs.Verdict.{is_fdl_status};

use dp_telegram::{FrameLent, Function, TelegramLent};
use explain_octets::ReadOctets;

/// Returns the telegram that the octets spell; None if they are a token, a short acknowledgement or no single frame.
pub(crate) fn telegram_in<'a>(request: &ReadOctets<'a>) -> Option<TelegramLent<'a>>
    ensures { result ≡ telegram_spelt request.now }
{
    match request.frame() {
        Some(FrameLent::Telegram(telegram)) => Some(telegram),
        Some(FrameLent::Token { .. }) => None,
        Some(FrameLent::Ack) => None,
        None => None,
    }
}

/// Returns whether the telegram asks for the FDL status.
pub(crate) fn is_fdl_status(telegram: &TelegramLent<'_>) -> bool
    ensures { result ≡ is_fdl_status telegram.now }
{
    match telegram.function() {
        Function::FdlStatus => true,
        Function::SdaLow => false,
        Function::SdaHigh => false,
        Function::Ident => false,
        Function::LsapStatus => false,
        Function::SdnLow => false,
        Function::SdnHigh => false,
        Function::SrdLow => false,
        Function::SrdHigh => false,
        Function::Reserved => false,
    }
}
