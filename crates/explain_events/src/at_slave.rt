//! A request that has reached a slave.

ghost use Rattle.std.specs.Prelude.{◌≡◌, Some};
ghost use Rattle.dp_line.specs.World.{described_at};
ghost use Rattle.explain_events.specs.Reasons.{at_slave_by};
ghost use Rattle.explain_events.specs.Shown.{shown_at};

use crate::context::{EventContext, SlaveRequest};
use crate::notes::Noted;
use crate::releases::{Release, release_of};
use crate::shown::slave_at;
use dp_line::described;
use dp_slave::{Slave, SlaveSpec};
use dp_telegram::{PartsLent, TelegramLent};
use std::marker::Model;

/// A request that has reached a slave. Contracts see what it holds.
#[derive(Drop)]
pub(crate) struct RequestAtSlave<'a> {
    /// The sender, 0 to 126.
    pub(crate) master: u8,
    /// The octets of the whole frame.
    pub(crate) octets: &'a [u8],
    pub(crate) telegram: &'a TelegramLent<'a>,
    pub(crate) parts: &'a PartsLent<'a>,
    pub(crate) description: &'a SlaveSpec,
    /// The slave before the request.
    pub(crate) slave: &'a Slave,
    /// The address of the slave, by which its note is found.
    pub(crate) address: u8,
    /// The requests whose replies the slaves remember.
    pub(crate) notes: &'a [Noted],
    /// The last release of the slave.
    pub(crate) release: Option<Release>,
}

impl<'a> Model for RequestAtSlave<'a> {
    ghost use Rattle.explain_events.specs.RequestsAtSlaves.{RequestAtSlaveView};
    ghost use Rattle.explain_events.specs.Notes.{note_of};
    ghost use Rattle.explain_events.specs.Shown.{shown};

    ghost Value = { RequestAtSlaveView };

    ghost view = { λ m. record {
      master = m.master;
      octets = m.octets.now;
      telegram = m.telegram.now;
      parts = m.parts.now;
      description = m.description.now;
      slave = shown m.slave.now;
      noted = note_of m.notes.now m.address m.master;
      release = m.release;
    } };
}

/// Returns a request as it reaches the slave at this address; None if the line has no such slave.
pub(crate) fn at_slave<'a>(
    context: &'a EventContext<'a>,
    asked: &'a SlaveRequest<'a>,
    address: u8,
) -> Option<RequestAtSlave<'a>>
    ensures { result ≡ at_slave_by context.now asked.now.master asked.now.octets address asked.now.telegram (Some asked.now.parts)
        (described_at context.now.description.slaves address) (shown_at context.now.world address) }
{
    let description = described(context.line.slaves.as_slice(), address)?;
    let slave = slave_at(context.before, address)?;
    Some(RequestAtSlave {
        master: asked.master,
        octets: asked.octets,
        telegram: asked.telegram,
        parts: &asked.parts,
        description,
        slave,
        address,
        notes: context.notes,
        release: release_of(context.releases, address),
    })
}
