//! Inputs and outputs.

ghost use Rattle.std.specs.Prelude.{◌≡◌, ◌≤◌, length};
ghost use Rattle.dp_sap.specs.AccessTable.{most_data};
ghost use Rattle.dp_slave.specs.SlaveRecord.{cut_or_filled, zeros};

use arrayvec::ArrayVec;
use dp_sap::MOST_DATA;
use std::marker::Model;

/// Octets of inputs or of outputs, 0 to 244 of them, as many as the shape in force has.
#[derive(Debug, Drop)]
pub(crate) struct DataOctets {
    octets: ArrayVec<u8, MOST_DATA>,
}

impl Model for DataOctets {
    ghost use Rattle.std.specs.Prelude.{List, ℕ};

    ghost Value = { List ℕ };

    ghost view = { λ d. d.octets.items };
}

impl DataOctets {
    /// Returns these octets.
    pub(crate) fn of(octets: ArrayVec<u8, MOST_DATA>) -> DataOctets
        ensures { result ≡ octets.items }
    {
        DataOctets { octets }
    }

    /// Copies other octets, which may be fewer or more.
    pub(crate) fn copy_from(&mut self, other: &DataOctets)
        ensures { self.new ≡ other.now }
    {
        self.octets = other.copied();
    }

    /// Returns `count` octets of zero, 0 to 244.
    pub(crate) fn zeros(count: u8) -> DataOctets
        requires { count ≤ most_data }
        ensures { result ≡ zeros count }
    {
        let zeros = [0; MOST_DATA];
        DataOctets {
            octets: ArrayVec::try_from(&zeros[..usize::from(count)]).unwrap(),
        }
    }

    /// Sets each octet to zero.
    pub(crate) fn clear(&mut self)
        ensures { self.new ≡ zeros (length self.old) }
    {
        self.octets.as_mut_slice().fill(0);
    }

    /// Replaces the octets with the same number of others.
    pub(crate) fn set(&mut self, octets: &[u8])
        requires { length octets.now ≡ length self.old }
        ensures { self.new ≡ octets.now }
    {
        self.octets.as_mut_slice().copy_from_slice(octets);
    }

    /// Cuts the octets to `count`, 0 to 244, or fills them up with zeros at the end.
    pub(crate) fn resize(&mut self, count: u8)
        requires { count ≤ most_data }
        ensures { self.new ≡ cut_or_filled count self.old }
    {
        let zeros = [0; MOST_DATA];
        self.octets.truncate(usize::from(count));
        let more = usize::from(count) - self.octets.len();
        self.octets.try_extend_from_slice(&zeros[..more]).unwrap();
    }

    /// Returns the octets.
    pub(crate) fn as_slice(&self) -> &[u8]
        ensures value { result.now ≡ self.now }
        ensures most { length result.now ≤ most_data }
    {
        self.octets.as_slice()
    }

    /// Returns a copy of the octets, to be shown.
    pub(crate) fn copied(&self) -> ArrayVec<u8, MOST_DATA>
        ensures { result.items ≡ self.now }
    {
        ArrayVec::try_from(self.octets.as_slice()).unwrap()
    }
}
