//! The slaves whose inputs devices update.

ghost use Rattle.std.specs.Prelude.{◌≡◌, Bool, Option};
ghost use Rattle.std.specs.Option.{option_copied};
ghost use Rattle.dp_line.specs.World.{described_at};
ghost use Rattle.rack_devices.specs.Devices.{is_still as is_still_device};
ghost use Rattle.rack_devices.specs.DrivenSlaves.{driven_at as driven_among, driven_slaves as all_driven, next_input as input_next};

use crate::devices::next_inputs;
use arrayvec::ArrayVec;
use dp_line::{Device, LineSpec, Op, SlaveSpec, SlaveView, described};
use dp_telegram::{GLOBAL_ADDRESS, LAST_STATION};

/// The largest number of slaves in a list of them: one for each station address.
pub const MOST_DRIVEN: usize = GLOBAL_ADDRESS as usize;

/// A slave whose inputs a device updates at each step.
#[derive(Clone, Copy, Debug, PartialEq, Eq)]
pub struct DrivenSlave {
    /// The address of the slave, 0 to 126.
    pub address: u8,
    /// The device, which isn't still.
    pub device: Device,
}

impl Default for DrivenSlave {
    fn default() -> DrivenSlave {
        DrivenSlave {
            address: 0,
            device: Device::Still,
        }
    }
}

impl DrivenSlave {
    /// Returns the next event of the device, for a slave in this state: an Input with as many octets as the slave has
    /// inputs, which may be none.
    pub fn next_input(self, slave: &SlaveView) -> Op
        ensures { result ≡ input_next self slave.now }
    {
        Op::Input {
            address: self.address,
            octets: next_inputs(
                self.device,
                slave.inputs.as_slice(),
                slave.outputs.as_slice(),
            ),
        }
    }
}

/// Returns the slaves of a line that devices drive, in ascending order of address: those whose device isn't still, with
/// or without inputs.
///
/// Devices are part of the description, so this is called once, when a line of a script or a session of an operator
/// begins.
pub fn driven_slaves(line: &LineSpec) -> ArrayVec<DrivenSlave, MOST_DRIVEN>
    ensures { result.items ≡ all_driven line.now.slaves.items }
{
    let mut driven = ArrayVec::new();
    for address in 0..=LAST_STATION {
        if let Some(slave) = driven_at(&line.slaves, address) {
            driven.push(slave);
        }
    }
    driven
}

/// Returns the slave at an address if a device drives it, else None.
fn driven_at(slaves: &[SlaveSpec], address: u8) -> Option<DrivenSlave>
    ensures { result ≡ driven_among slaves.now address }
{
    let slave = described(slaves, address)?;
    if is_still(slave.device) {
        return None;
    }
    Some(DrivenSlave {
        address,
        device: slave.device,
    })
}

fn is_still(device: Device) -> bool
    ensures { result ≡ is_still_device device }
{
    match device {
        Device::Still => true,
        Device::Counter => false,
        Device::Mirror => false,
    }
}
