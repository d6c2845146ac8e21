//! The holds of slaves: by which master, from which entry to which, and how each ended.

ghost use Rattle.std.specs.Prelude.{◌≡◌, ◌++◌, OnOk};
ghost use Rattle.std.specs.List.{flat_map};
ghost use Rattle.explain_texts.specs.Holds.{ended_at, hold_list, holds_ended, lasts_at, holds_lasting};

use crate::hold::Hold;
use dp_line::{LineState, Outcome, SlaveSpec};
use explain_events::{Ending, ReadEvent, Taken, same_holder, slave_at, touched};
use std::alloc::AllocError;

/// Returns the hold of the slave at this address that an event ended; None if the event ended none.
fn hold_ended(taken: &Taken<'_>, address: u8) -> Option<Hold>
    ensures { hold_list result ≡ ended_at taken.now.before.now.world taken.now.after.now.world taken.now.place taken.now.event.now address }
{
    let before = slave_at(taken.before, address)?;
    let after = slave_at(taken.after, address)?;
    if same_holder(before.holder(), after.holder()) {
        return None;
    }
    let master = before.holder()?;
    Some(Hold {
        address,
        master,
        since: before.since(),
        place: Some(taken.place),
        ending: Ending::by(taken.event),
    })
}

/// Returns the hold of a slave that lasts; None if nobody holds it.
fn hold_lasting(line: &LineState, slave: &SlaveSpec) -> Option<Hold>
    ensures { hold_list result ≡ lasts_at line.now.world slave.now }
{
    let address = slave.address;
    let slave = slave_at(line, address)?;
    let master = slave.holder()?;
    Some(Hold {
        address,
        master,
        since: slave.since(),
        place: None,
        ending: Ending::Lasts,
    })
}

/// Appends a hold, if there is one. `AllocError` if memory runs out.
fn push_hold(holds: &mut Vec<Hold>, hold: Option<Hold>) -> Result<(), AllocError>
    ensures { OnOk result (holds.new.items ≡ holds.old.items ++ hold_list hold) }
{
    if let Some(hold) = hold {
        holds.push(hold)?;
    }
    Ok(())
}

/// Appends the holds of these slaves that an event ended. `AllocError` if memory runs out.
fn push_ended_of(
    holds: &mut Vec<Hold>,
    taken: &Taken<'_>,
    addresses: &[u8],
) -> Result<(), AllocError>
    ensures { OnOk result (holds.new.items ≡ holds.old.items ++ flat_map (ended_at taken.now.before.now.world taken.now.after.now.world taken.now.place taken.now.event.now) addresses.now) }
{
    match addresses {
        [] => Ok(()),
        [address, others @ ..] => {
            push_hold(holds, hold_ended(taken, *address))?;
            push_ended_of(holds, taken, others)
        }
    }
}

/// Appends the holds that an event with this outcome ended. Reads only slaves whose holder the event can change.
/// `AllocError` if memory runs out.
pub(crate) fn push_ended(
    holds: &mut Vec<Hold>,
    taken: &Taken<'_>,
    event: &ReadEvent<'_>,
    outcome: &Outcome,
) -> Result<(), AllocError>
    requires { event.now ≡ taken.now.event.now }
    ensures { OnOk result (holds.new.items ≡ holds.old.items ++ holds_ended taken.now.before.now.world taken.now.after.now.world taken.now.place taken.now.event.now outcome.now) }
{
    push_ended_of(holds, taken, touched(event, outcome).as_slice())
}

/// Appends the holds of these slaves that last. `AllocError` if memory runs out.
pub(crate) fn push_lasting(
    holds: &mut Vec<Hold>,
    line: &LineState,
    slaves: &[SlaveSpec],
) -> Result<(), AllocError>
    ensures { OnOk result (holds.new.items ≡ holds.old.items ++ holds_lasting line.now.world slaves.now) }
{
    match slaves {
        [] => Ok(()),
        [slave, others @ ..] => {
            push_hold(holds, hold_lasting(line, slave))?;
            push_lasting(holds, line, others)
        }
    }
}
