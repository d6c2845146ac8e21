//! The facts of a service that a slave did.

ghost use Rattle.std.specs.Prelude.{◌≡◌};
ghost use Rattle.dp_slave.specs.Services.{control_of};
ghost use Rattle.explain_events.specs.Dones.{cfg_done, controlled_by, done_of, exchange_done, is_held_by, is_low_tsdr, lock_done, min_tsdr_done, mode_act, prm_done};
ghost use Rattle.explain_events.specs.Shown.{shown};

use crate::at_slave::RequestAtSlave;
use crate::chk_cfg::number_of;
use crate::control::{asks_freeze, asks_sync, command_in};
use crate::prm_fault::{has_wrong_parameters, is_set};
use crate::words::octet_at;
use dp_prm::{LOCK_REQ, UNLOCK_REQ};
use dp_sap::{CHK_CFG, GLOBAL_CONTROL, SET_PRM, SLAVE_DIAG};
use dp_slave::Slave;

/// The least min TSDR, in bit times (IEC 61158-6-3, Set_Prm request).
const LEAST_TSDR: u8 = 11;

/// What a slave did by a request, by the point of the request (own).
#[derive(Clone, Copy)]
pub enum Done {
    /// Data_Exchange: the slave has the outputs that were sent.
    OutputsTaken,
    /// Data_Exchange in sync mode: the outputs that were sent wait for Sync.
    OutputsWait,
    /// Data_Exchange without data: a cleared slave stays cleared.
    NoOutputs,
    /// Slave_Diag; true if the holder of the slave has read its diagnosis.
    Diagnosis(bool),
    /// Global_Control.
    Control(Controlled),
    /// Set_Prm.
    Parameters(PrmDone),
    /// Chk_Cfg.
    Configuration(CfgDone),
    /// A service that only reads.
    Other,
}

/// What a Set_Prm did (IEC 61158-6-3, Set_Prm request).
#[derive(Clone, Copy)]
pub enum PrmDone {
    /// Its octets are wrong. The slave is released by this master; None if nobody held it.
    Wrong {
        released: Option<u8>,
    },
    /// The slave was unlocked, which this master held; None if nobody held it. `locks` is whether Lock_Req was sent too.
    Unlocked {
        address: u8,
        holder: Option<u8>,
        locks: bool,
    },
    /// The sender has locked the slave. `min_tsdr` is the octet that was sent, in bit times; 0 leaves the value unchanged.
    Locked {
        address: u8,
        master: u8,
        min_tsdr: u8,
    },
    /// The sender has held the slave since the entry at this place, from 1.
    LockedAgain {
        address: u8,
        master: u8,
        since: u32,
        min_tsdr: u8,
    },
    /// Neither a lock nor an unlock: min TSDR has this value, in bit times. `holder` holds the slave.
    MinTsdrSet {
        address: u8,
        holder: Option<u8>,
        min_tsdr: u8,
    },
    /// Neither a lock nor an unlock, with 0 for min TSDR: it stays at this value, in bit times.
    MinTsdrStays {
        address: u8,
        holder: Option<u8>,
        min_tsdr: u8,
    },
}

/// What a Chk_Cfg did (IEC 61158-6-3, Chk_Cfg request).
#[derive(Clone, Copy)]
pub enum CfgDone {
    /// It is no configuration of the slave, which is released by this master; None if nobody held it.
    Wrong { released: Option<u8> },
    /// It is the configuration of this number, from 0. `before` is the number that was in force.
    Good { number: usize, before: u8 },
}

/// What a Global_Control did at a slave (IEC 61158-6-3, Global_Control request).
#[derive(Clone, Copy)]
pub struct Controlled {
    /// The outputs are cleared.
    pub clears: bool,
    /// Sync mode ends.
    pub unsyncs: bool,
    pub sync: ModeAct,
    /// Freeze mode ends.
    pub unfreezes: bool,
    pub freeze: ModeAct,
}

/// What a Sync, or a Freeze, did at a slave.
#[derive(Clone, Copy)]
pub enum ModeAct {
    /// It was not sent.
    NotSent,
    /// It did what it is for.
    Acts,
    /// It did nothing beside Unsync, or Unfreeze.
    BesideItsEnd,
    /// It did nothing, since the parameters lack Sync_Req, or Freeze_Req.
    NotAskedFor,
}

impl<'a> RequestAtSlave<'a> {
    /// Returns what the slave did.
    pub(crate) fn done(&self) -> Done
        ensures { result ≡ done_of self.now }
    {
        let slave = self.slave;
        let octets = self.parts.payload();
        match self.parts.dsap() {
            None => exchange_done(slave, octets),
            Some(GLOBAL_CONTROL) => Done::Control(controlled_by(slave, octets)),
            Some(SLAVE_DIAG) => Done::Diagnosis(holds(slave.holder(), self.master)),
            Some(SET_PRM) => Done::Parameters(self.prm_done(octets)),
            Some(CHK_CFG) => Done::Configuration(self.cfg_done(octets)),
            Some(_) => Done::Other,
        }
    }

    /// Returns what a Set_Prm with these octets did.
    fn prm_done(&self, octets: &[u8]) -> PrmDone
        ensures { result ≡ prm_done self.now octets.now }
    {
        let slave = self.slave;
        if has_wrong_parameters(octets, self.description) {
            return PrmDone::Wrong {
                released: slave.holder(),
            };
        }
        let status = octet_at(octets, 0);
        if is_set(UNLOCK_REQ, status) {
            PrmDone::Unlocked {
                address: slave.address(),
                holder: slave.holder(),
                locks: is_set(LOCK_REQ, status),
            }
        } else if is_set(LOCK_REQ, status) {
            lock_done(self.master, slave, octet_at(octets, 3))
        } else {
            min_tsdr_done(slave, octet_at(octets, 3))
        }
    }

    /// Returns what a Chk_Cfg with these octets did.
    fn cfg_done(&self, octets: &[u8]) -> CfgDone
        ensures { result ≡ cfg_done self.now octets.now }
    {
        match number_of(self.description.cfgs.as_slice(), octets) {
            Some(number) => CfgDone::Good {
                number,
                before: self.slave.shape(),
            },
            None => CfgDone::Wrong {
                released: self.slave.holder(),
            },
        }
    }
}

/// Returns what a Data_Exchange with these octets did.
fn exchange_done(slave: &Slave, octets: &[u8]) -> Done
    ensures { result ≡ exchange_done (shown slave.now) octets.now }
{
    if octets.len() != slave.rd_outp().len() {
        Done::NoOutputs
    } else if slave.is_in_sync_mode() {
        Done::OutputsWait
    } else {
        Done::OutputsTaken
    }
}

/// Returns what a Set_Prm of this master that locks did, with this octet for min TSDR.
fn lock_done(master: u8, slave: &Slave, min_tsdr: u8) -> PrmDone
    ensures { result ≡ lock_done master (shown slave.now) min_tsdr }
{
    let address = slave.address();
    if holds(slave.holder(), master) {
        PrmDone::LockedAgain {
            address,
            master,
            since: slave.since(),
            min_tsdr,
        }
    } else {
        PrmDone::Locked {
            address,
            master,
            min_tsdr,
        }
    }
}

/// Returns what a Set_Prm did that neither locks nor unlocks, with this octet for min TSDR.
fn min_tsdr_done(slave: &Slave, octet: u8) -> PrmDone
    ensures { result ≡ min_tsdr_done (shown slave.now) octet }
{
    let address = slave.address();
    let holder = slave.holder();
    if octet == 0 {
        PrmDone::MinTsdrStays {
            address,
            holder,
            min_tsdr: slave.min_tsdr(),
        }
    } else {
        PrmDone::MinTsdrSet {
            address,
            holder,
            min_tsdr: octet,
        }
    }
}

/// Returns what a Global_Control with these octets did at a slave.
fn controlled_by(slave: &Slave, octets: &[u8]) -> Controlled
    ensures { result ≡ controlled_by (shown slave.now) (control_of octets.now) }
{
    let command = command_in(octets);
    let prm = slave.parameters();
    Controlled {
        clears: command.clear_data,
        unsyncs: command.unsync,
        sync: mode_act(command.sync, command.unsync, asks_sync(prm)),
        unfreezes: command.unfreeze,
        freeze: mode_act(command.freeze, command.unfreeze, asks_freeze(prm)),
    }
}

/// Returns what a Sync, or a Freeze, did: by whether it was sent, whether its end was, and whether the parameters asked for
/// it.
fn mode_act(sent: bool, ends: bool, asked: bool) -> ModeAct
    ensures { result ≡ mode_act sent ends asked }
{
    match (sent, ends, asked) {
        (false, _, _) => ModeAct::NotSent,
        (true, true, _) => ModeAct::BesideItsEnd,
        (true, false, false) => ModeAct::NotAskedFor,
        (true, false, true) => ModeAct::Acts,
    }
}

/// Returns whether the master holds a slave that has this holder.
fn holds(holder: Option<u8>, master: u8) -> bool
    ensures { result ≡ is_held_by master holder }
{
    match holder {
        Some(other) => other == master,
        None => false,
    }
}

/// Returns whether min TSDR is below the least value, by the octet that was sent; 0 leaves the value unchanged.
pub(crate) fn is_low_tsdr(octet: u8) -> bool
    ensures { result ≡ is_low_tsdr octet }
{
    octet != 0 && octet < LEAST_TSDR
}
