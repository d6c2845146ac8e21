//! The next inputs that a device sets.

ghost use Rattle.std.specs.Prelude.{◌≡◌, ◌≤◌, ◌<◌, length, take};
ghost use Rattle.dp_sap.specs.AccessTable.{most_data};
ghost use Rattle.rack_devices.specs.Devices.{AreOctets, next_inputs as inputs_next, counted};
ghost use Rattle.dp_slave.specs.SlaveRecord.{cut_or_filled};

use arrayvec::ArrayVec;
use dp_line::Device;
use dp_sap::MOST_DATA;

/// Returns the next inputs of a slave with this device: as many octets as it has inputs now (own). A slave has at most
/// 244 octets of inputs; if there are more, the first 244 are its inputs.
///
/// A still device leaves the inputs unchanged. A counter adds 1 to them as one number, high octet first; all ones
/// become zero. A mirror returns the outputs, cut to the length of the inputs or filled with zeros.
pub fn next_inputs(device: Device, inputs: &[u8], outputs: &[u8]) -> ArrayVec<u8, MOST_DATA>
    ensures all { length inputs.now ≤ most_data → result.items ≡ inputs_next device inputs.now outputs.now }
    ensures first { most_data < length inputs.now → result.items ≡ inputs_next device (take most_data inputs.now) outputs.now }
{
    if inputs.len() > MOST_DATA {
        next_of(device, &inputs[..MOST_DATA], outputs)
    } else {
        next_of(device, inputs, outputs)
    }
}

/// Returns the next inputs of a slave that has these inputs.
fn next_of(device: Device, inputs: &[u8], outputs: &[u8]) -> ArrayVec<u8, MOST_DATA>
    requires { length inputs.now ≤ most_data }
    ensures { result.items ≡ inputs_next device inputs.now outputs.now }
{
    match device {
        Device::Still => ArrayVec::try_from(inputs).unwrap(),
        Device::Counter => counted_up(inputs),
        Device::Mirror => mirrored(inputs.len(), outputs),
    }
}

/// Returns the octets with 1 added to them as one number, high octet first.
fn counted_up(inputs: &[u8]) -> ArrayVec<u8, MOST_DATA>
    requires { length inputs.now ≤ most_data }
    ensures { result.items ≡ counted inputs.now }
{
    let mut octets = ArrayVec::try_from(inputs).unwrap();
    count_up(octets.as_mut_slice());
    octets
}

/// Adds 1 to the octets as one number, high octet first; all ones become zero.
fn count_up(octets: &mut [u8])
    requires { AreOctets octets.old }
    ensures { octets.new ≡ counted octets.old }
{
    let mut index = octets.len();
    while index > 0 {
        index -= 1;
        if octets[index] < u8::MAX {
            octets[index] += 1;
            return;
        }
        octets[index] = 0;
    }
}

/// Returns the first `count` outputs, filled with zeros if there are fewer.
fn mirrored(count: usize, outputs: &[u8]) -> ArrayVec<u8, MOST_DATA>
    requires { count ≤ most_data }
    ensures { result.items ≡ cut_or_filled count outputs.now }
{
    let zeros = [0; MOST_DATA];
    let shared = count.min(outputs.len());
    let mut octets = ArrayVec::try_from(&outputs[..shared]).unwrap();
    octets
        .try_extend_from_slice(&zeros[..count - shared])
        .unwrap();
    octets
}
