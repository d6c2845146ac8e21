//! Global_Control in words.

ghost use Rattle.std.specs.Prelude.{Some};
ghost use Rattle.explain_octets.specs.Commands.{asked_of};

use crate::words::{Flag, Groups, Names};
use dp_globalctl::Command;
use std::fmt;

/// A Global_Control, in words.
#[derive(Drop)]
pub(crate) struct CommandWords<'a>(pub(crate) &'a Command);

impl<'a> fmt::Display for CommandWords<'a> {
    ghost output = { λ asked. Some (asked_of asked.0.now) };

    #[tactic(auto, unfolding(crate::specs::Commands::asked_of))]
    fn fmt<W: fmt::Write>(&self, f: &mut fmt::Formatter<W>) -> fmt::Result {
        let flags = [
            Flag::new(self.0.clear_data, "Clear_Data"),
            Flag::new(self.0.unfreeze, "Unfreeze"),
            Flag::new(self.0.freeze, "Freeze"),
            Flag::new(self.0.unsync, "Unsync"),
            Flag::new(self.0.sync, "Sync"),
        ];
        let names = Names {
            flags: &flags,
            none: "Operate",
            behind: "",
        };
        let groups = Groups {
            octet: self.0.group,
            none: "every slave",
        };
        write!(f, "{names}; {groups}")
    }
}
