//! The rules of the order of the bring-up (IEC 61158-6-3, bring-up of a slave).

ghost use Rattle.std.specs.Prelude.{◌≡◌};
ghost use Rattle.judge_rules.specs.BringUpRules.{cfg_before_prm, exchange_after_rs, exchange_before_ready, exchange_of_other, exchange_without_diag, is_before_ready, is_without_lock, prm_before_diag, prm_without_lock};

use crate::entry::{Asked, Parameters, Request};
use crate::stage::Stage;
use crate::station::Station;

/// Returns whether Set_Prm comes before a Slave_Diag was answered.
pub(crate) fn prm_before_diag(station: &Station, request: &Request) -> bool
    ensures { result ≡ prm_before_diag station.now request.now }
{
    request.asks_prm().is_some() && matches!(station.stage, Stage::Unseen)
}

/// Returns whether Set_Prm with neither Lock_Req nor Unlock_Req comes to a station that needs parameters.
pub(crate) fn prm_without_lock(station: &Station, request: &Request) -> bool
    ensures { result ≡ prm_without_lock station.now request.now }
{
    is_without_lock(request.asks_prm()) && !station.stage.is_parametrized()
}

/// Returns whether these parameters have neither Lock_Req nor Unlock_Req.
fn is_without_lock(parameters: Option<Parameters>) -> bool
    ensures { result ≡ is_without_lock parameters }
{
    match parameters {
        Some(parameters) => matches!(parameters.asked, Asked::MinTsdr),
        None => false,
    }
}

/// Returns whether Chk_Cfg comes before a Set_Prm was acknowledged.
pub(crate) fn cfg_before_prm(station: &Station, request: &Request) -> bool
    ensures { result ≡ cfg_before_prm station.now request.now }
{
    request.asks_chk_cfg() && !station.stage.is_parametrized()
}

/// Returns whether Data_Exchange comes before the station reported that it is ready.
pub(crate) fn exchange_before_ready(station: &Station, request: &Request) -> bool
    ensures { result ≡ exchange_before_ready station.now request.now }
{
    request.asks_exchange() && is_before_ready(station.stage)
}

/// Returns whether the bring-up has not come to the diagnosis that says that the station is ready, other than because
/// none was read after Chk_Cfg.
fn is_before_ready(stage: Stage) -> bool
    ensures { result ≡ is_before_ready stage }
{
    match stage {
        Stage::Unseen => true,
        Stage::Idle => true,
        Stage::Parametrized => true,
        Stage::NotReady => true,
        Stage::Taken => false,
        Stage::Configured => false,
        Stage::Ready => false,
        Stage::Exchanging => false,
        Stage::Lost => false,
    }
}

/// Returns whether Data_Exchange comes after Chk_Cfg, with no Slave_Diag between them.
pub(crate) fn exchange_without_diag(station: &Station, request: &Request) -> bool
    ensures { result ≡ exchange_without_diag station.now request.now }
{
    request.asks_exchange() && matches!(station.stage, Stage::Configured)
}

/// Returns whether Data_Exchange goes on after one was refused by RS.
pub(crate) fn exchange_after_rs(station: &Station, request: &Request) -> bool
    ensures { result ≡ exchange_after_rs station.now request.now }
{
    request.asks_exchange() && matches!(station.stage, Stage::Lost)
}

/// Returns whether Data_Exchange comes after a diagnosis that shows another master.
pub(crate) fn exchange_of_other(station: &Station, request: &Request) -> bool
    ensures { result ≡ exchange_of_other station.now request.now }
{
    request.asks_exchange() && matches!(station.stage, Stage::Taken)
}
