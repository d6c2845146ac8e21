//! The masters that a slave's lists name.

ghost use Rattle.std.specs.Prelude.{◌≡◌, ◌==◌, true};
ghost use Rattle.std.specs.List.{list_any};
ghost use Rattle.std.specs.Option.{option_map_or};
ghost use Rattle.dp_sap.specs.AccessTable.{may_lock, may_read};

use arrayvec::ArrayVec;

/// The greatest number of masters of a list, as many as a line has.
pub const MOST_LISTED: usize = 16;

/// The masters that may set a slave's parameters, and those that may read its inputs and outputs
/// (own). An empty list names nobody.
#[derive(Clone, Debug, Drop, PartialEq, Eq)]
pub struct Lists {
    /// The addresses of the masters that may use Set_Prm; `None` admits every master.
    pub lockers: Option<ArrayVec<u8, MOST_LISTED>>,
    /// The addresses of the masters that may use RD_Inp and RD_Outp; `None` admits every master.
    /// The holder always may.
    pub readers: Option<ArrayVec<u8, MOST_LISTED>>,
}

impl Lists {
    /// Returns whether the lists let the sender use Set_Prm.
    pub(crate) fn let_lock(&self, sender: u8) -> bool
        ensures { result ≡ may_lock self.now sender }
    {
        names(&self.lockers, sender)
    }

    /// Returns whether the lists let the sender use RD_Inp and RD_Outp without holding the slave.
    pub(crate) fn let_read(&self, sender: u8) -> bool
        ensures { result ≡ may_read self.now sender }
    {
        names(&self.readers, sender)
    }
}

/// Returns whether the master is on the list; true if there is no list.
fn names(list: &Option<ArrayVec<u8, MOST_LISTED>>, sender: u8) -> bool
    ensures { result ≡ option_map_or (λ masters. list_any (λ master. master == sender) masters.items) list.now true }
{
    match list {
        Some(masters) => is_among(masters, sender),
        None => true,
    }
}

fn is_among(masters: &[u8], sender: u8) -> bool
    ensures { result ≡ list_any (λ master. master == sender) masters.now }
{
    masters.iter().any(|master| *master == sender)
}
