//! The facts of a service that a slave did, for C.

ghost use Rattle.std.specs.Prelude.{◌≡◌};
ghost use Rattle.rackd_library.specs.DoneFacts.{act_number, ends_number, facts_of_cfg, facts_of_control, facts_of_done, facts_of_prm, facts_of_tsdr};

use crate::facts::{Facts, blank_facts};
use explain_events::{CfgDone, Controlled, Done, ModeAct, PrmDone};

/// A master that a reason does not have.
const NOBODY: u8 = 255;

/// Returns the facts of a service that was done.
pub(crate) fn facts_of_done(done: Done) -> Facts
    ensures { result ≡ facts_of_done done }
{
    match done {
        Done::OutputsTaken => blank_facts(25),
        Done::OutputsWait => blank_facts(26),
        Done::NoOutputs => blank_facts(27),
        Done::Diagnosis(to_holder) => Facts {
            detail: u8::from(to_holder),
            ..blank_facts(28)
        },
        Done::Control(control) => facts_of_control(control),
        Done::Parameters(done) => facts_of_prm(done),
        Done::Configuration(done) => facts_of_cfg(done),
        Done::Other => blank_facts(38),
    }
}

/// Returns the facts of a Global_Control at one slave.
fn facts_of_control(control: Controlled) -> Facts
    ensures { result ≡ facts_of_control control }
{
    Facts {
        value: act_number(control.sync),
        limit: act_number(control.freeze),
        detail: ends_number(control.clears, control.unsyncs, control.unfreezes),
        ..blank_facts(29)
    }
}

/// Returns the number of what a Sync, or a Freeze, did.
fn act_number(act: ModeAct) -> usize
    ensures { result ≡ act_number act }
{
    match act {
        ModeAct::NotSent => 0,
        ModeAct::Acts => 1,
        ModeAct::BesideItsEnd => 2,
        ModeAct::NotAskedFor => 3,
    }
}

/// Returns the sum of 1 if outputs are cleared, 2 if sync mode ends, 4 if freeze mode ends.
fn ends_number(clears: bool, unsyncs: bool, unfreezes: bool) -> u8
    ensures { result ≡ ends_number clears unsyncs unfreezes }
{
    u8::from(clears) + 2 * u8::from(unsyncs) + 4 * u8::from(unfreezes)
}

/// Returns the facts of a Set_Prm.
fn facts_of_prm(done: PrmDone) -> Facts
    ensures { result ≡ facts_of_prm done }
{
    match done {
        PrmDone::Wrong { released } => Facts {
            master: released.unwrap_or(NOBODY),
            ..blank_facts(30)
        },
        PrmDone::Unlocked {
            address,
            holder,
            locks,
        } => Facts {
            slave: address,
            master: holder.unwrap_or(NOBODY),
            detail: u8::from(locks),
            ..blank_facts(31)
        },
        PrmDone::Locked {
            address,
            master,
            min_tsdr,
        } => facts_of_tsdr(32, address, Some(master), min_tsdr),
        PrmDone::LockedAgain {
            address,
            master,
            since,
            min_tsdr,
        } => Facts {
            since: u64::from(since),
            ..facts_of_tsdr(33, address, Some(master), min_tsdr)
        },
        PrmDone::MinTsdrSet {
            address,
            holder,
            min_tsdr,
        } => facts_of_tsdr(34, address, holder, min_tsdr),
        PrmDone::MinTsdrStays {
            address,
            holder,
            min_tsdr,
        } => facts_of_tsdr(35, address, holder, min_tsdr),
    }
}

/// Returns the facts of a Set_Prm that has a min TSDR, by the number of the reason.
fn facts_of_tsdr(reason: u8, slave: u8, holder: Option<u8>, min_tsdr: u8) -> Facts
    ensures { result ≡ facts_of_tsdr reason slave holder min_tsdr }
{
    Facts {
        slave,
        master: holder.unwrap_or(NOBODY),
        value: usize::from(min_tsdr),
        ..blank_facts(reason)
    }
}

/// Returns the facts of a Chk_Cfg.
fn facts_of_cfg(done: CfgDone) -> Facts
    ensures { result ≡ facts_of_cfg done }
{
    match done {
        CfgDone::Wrong { released } => Facts {
            master: released.unwrap_or(NOBODY),
            ..blank_facts(36)
        },
        CfgDone::Good { number, before } => Facts {
            value: number,
            limit: usize::from(before),
            ..blank_facts(37)
        },
    }
}
