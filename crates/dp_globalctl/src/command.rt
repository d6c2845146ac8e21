//! Reads and executes a Global_Control.
//!
//! The octets of Global_Control have one definition, `control_of` of dp_slave, to which
//! `command_of` adds the group, and one reader, which texts use too. [`Command`] is another record
//! than that of the act in dp_slave, because a slave knows no groups.

ghost use Rattle.std.specs.Prelude.{◌≡◌, ◌<◌, length};
ghost use Rattle.dp_telegram.specs.FunctionCode.{is_set as is_set_of};
ghost use Rattle.dp_slave.specs.SlaveParts.{with_slave};
ghost use Rattle.dp_slave.specs.Acts.{is_controlled};
ghost use Rattle.dp_slave.specs.Fields.{acted};
ghost use Rattle.dp_globalctl.specs.Command.{command_of, control_in, selects as is_selected};

use dp_slave::Slave;

/// The bits of the first octet by their numbers (IEC 61158-6-3, Global_Control request,
/// Control_Command).
const CLEAR_DATA: u32 = 1;

const UNFREEZE: u32 = 2;

const FREEZE: u32 = 3;

const UNSYNC: u32 = 4;

const SYNC: u32 = 5;

/// A command of a Global_Control, with the groups that it selects.
#[derive(Clone, Copy, Debug, PartialEq, Eq)]
pub struct Command {
    /// Clear_Data: outputs and latest data become zero, and a fail-safe slave is cleared.
    pub clear_data: bool,
    /// Unfreeze: freeze mode ends.
    pub unfreeze: bool,
    /// Freeze: the inputs are copied, and freeze mode starts.
    pub freeze: bool,
    /// Unsync: sync mode ends.
    pub unsync: bool,
    /// Sync: the outputs wait for the next Sync.
    pub sync: bool,
    /// Group_Select: 0 for every slave, else a bit for each group.
    pub group: u8,
}

impl Command {
    /// Returns the command in the two octets of a Global_Control. The other bits of the first are
    /// ignored (own).
    pub fn read(octets: &[u8]) -> Command
        requires { length octets.now ≡ 2 }
        ensures { result ≡ command_of octets.now }
    {
        let control = octets[0];
        Command {
            clear_data: is_set(CLEAR_DATA, control),
            unfreeze: is_set(UNFREEZE, control),
            freeze: is_set(FREEZE, control),
            unsync: is_set(UNSYNC, control),
            sync: is_set(SYNC, control),
            group: octets[1],
        }
    }

    /// Returns whether it selects a slave of these groups. Group_Select 0 selects every slave; any
    /// other value selects a slave that has a group in common with it.
    pub const fn selects(&self, group: u8) -> bool
        ensures { result ≡ is_selected self.now.group group }
    {
        self.group == 0 || self.group & group != 0
    }

    /// Executes the command on a slave in Data_Exch, in this order (own): Clear_Data; Unsync, or
    /// else Sync; Unfreeze, or else Freeze. A running watchdog is set to its full time.
    ///
    /// There is no must-fail edit that does Clear_Data after Unsync or Sync, because no contract
    /// can refuse that body: Clear_Data sets outputs and latest data to zero, and Unsync and Sync
    /// copy one to the other. A body that leaves out Clear_Data beside Sync is refused.
    #[tactic(auto, unfolding(dp_slave::specs::Fields::acted))]
    pub fn apply(&self, slave: &mut Slave)
        ensures { slave.new ≡ with_slave slave.old (acted slave.old.slave (is_controlled (control_in self.now))) }
    {
        if self.clear_data {
            slave.clear_data();
        }
        if self.unsync {
            slave.unsync();
        } else if self.sync {
            slave.sync();
        }
        if self.unfreeze {
            slave.unfreeze();
        } else if self.freeze {
            slave.freeze();
        }
        slave.retrigger();
    }
}

/// Returns whether the bit of this number, 0 to 7, is 1.
const fn is_set(number: u32, octet: u8) -> bool
    requires { number < 8 }
    ensures { result ≡ is_set_of number octet }
{
    octet >> number & 1 == 1
}
