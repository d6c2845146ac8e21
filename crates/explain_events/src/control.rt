//! The result of a Global_Control at a slave.

ghost use Rattle.std.specs.Prelude.{◌≡◌, Some};
ghost use Rattle.std.specs.Option.{option_copied};
ghost use Rattle.dp_slave.specs.Services.{control_of};
ghost use Rattle.dp_globalctl.specs.Command.{control_in};
ghost use Rattle.explain_events.specs.Ways.{is_not_asked_for};
ghost use Rattle.explain_events.specs.Services.{sync_is_asked, freeze_is_asked, acts_words};
ghost use Rattle.explain_events.specs.DoneWords.{controlled_text, idle_freeze_words, idle_sync_words, is_act};

use crate::done::{Controlled, ModeAct};
use crate::words::octet_at;
use dp_globalctl::Command;
use dp_prm::Prm;
use dp_slave::Slave;
use explain_octets::{Flag, Names};
use std::fmt;

/// Returns the command that the octets hold. Group_Select is not read, because it has already selected the slave.
pub(crate) fn command_in(octets: &[u8]) -> Command
    ensures { control_in result ≡ control_of octets.now }
{
    Command::read(&[octet_at(octets, 0), 0])
}

/// The actions that are done.
#[derive(Clone, Copy)]
struct Acts {
    clears: bool,
    unsyncs: bool,
    syncs: bool,
    unfreezes: bool,
    freezes: bool,
}

impl fmt::Display for Acts {
    ghost output = { λ s. Some (acts_words s.clears s.unsyncs s.syncs s.unfreezes s.freezes) };

    #[tactic(auto, unfolding(crate::specs::Services::acts_words))]
    fn fmt<W: fmt::Write>(&self, f: &mut fmt::Formatter<W>) -> fmt::Result {
        let flags = [
            Flag::new(self.clears, "outputs cleared"),
            Flag::new(self.unsyncs, "Unsync"),
            Flag::new(self.syncs, "Sync"),
            Flag::new(self.unfreezes, "Unfreeze"),
            Flag::new(self.freezes, "Freeze"),
        ];
        let names = Names {
            flags: &flags,
            none: "no change",
            behind: "",
        };
        write!(f, "{names}")
    }
}

/// Returns whether a Sync, or a Freeze, did what it is for.
fn is_act(act: ModeAct) -> bool
    ensures { result ≡ is_act act }
{
    match act {
        ModeAct::Acts => true,
        ModeAct::NotSent => false,
        ModeAct::BesideItsEnd => false,
        ModeAct::NotAskedFor => false,
    }
}

/// Returns the reason why a Sync does nothing; an empty text if there is none.
fn idle_sync(act: ModeAct) -> &'static str
    ensures { result.now ≡ idle_sync_words act }
{
    match act {
        ModeAct::BesideItsEnd => " Sync does nothing beside Unsync.",
        ModeAct::NotAskedFor => " Sync does nothing without Sync_Req.",
        ModeAct::NotSent => "",
        ModeAct::Acts => "",
    }
}

/// Returns the reason why a Freeze does nothing; an empty text if there is none.
fn idle_freeze(act: ModeAct) -> &'static str
    ensures { result.now ≡ idle_freeze_words act }
{
    match act {
        ModeAct::BesideItsEnd => " Freeze does nothing beside Unfreeze.",
        ModeAct::NotAskedFor => " Freeze does nothing without Freeze_Req.",
        ModeAct::NotSent => "",
        ModeAct::Acts => "",
    }
}

/// Returns whether a command asks for a Sync or a Freeze that the slave does not do, because its parameters do not ask for
/// it; `octets` are the data of the Global_Control.
pub(crate) fn is_not_asked_for(slave: &Slave, octets: &[u8]) -> bool
    ensures { result ≡ is_not_asked_for slave.now.slave.prm (control_of octets.now) }
{
    let command = command_in(octets);
    let prm = slave.parameters();
    let sync = command.sync && !asks_sync(prm);
    let freeze = command.freeze && !asks_freeze(prm);
    !command.unsync && sync || !command.unfreeze && freeze
}

/// The result of a Global_Control at a slave.
#[derive(Clone, Copy)]
pub(crate) struct ControlWords(pub(crate) Controlled);

impl fmt::Display for ControlWords {
    ghost output = { λ s. Some (controlled_text s.0) };

    fn fmt<W: fmt::Write>(&self, f: &mut fmt::Formatter<W>) -> fmt::Result {
        let done = self.0;
        let acts = Acts {
            clears: done.clears,
            unsyncs: done.unsyncs,
            syncs: is_act(done.sync),
            unfreezes: done.unfreezes,
            freezes: is_act(done.freeze),
        };
        let sync = idle_sync(done.sync);
        let freeze = idle_freeze(done.freeze);
        write!(f, "done: {acts}.{sync}{freeze}")
    }
}

/// Returns whether the parameters of a slave ask for Sync.
pub(crate) fn asks_sync(prm: Option<&Prm>) -> bool
    ensures { result ≡ sync_is_asked (option_copied prm.entry) }
{
    match prm {
        Some(prm) => prm.sync_req,
        None => false,
    }
}

/// Returns whether the parameters of a slave ask for Freeze.
pub(crate) fn asks_freeze(prm: Option<&Prm>) -> bool
    ensures { result ≡ freeze_is_asked (option_copied prm.entry) }
{
    match prm {
        Some(prm) => prm.freeze_req,
        None => false,
    }
}
