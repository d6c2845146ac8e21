//! A walk along a list.

ghost use Rattle.std.specs.Prelude.{◌≡◌, ℕ, ◌≤◌, ◌<◌, ◌++◌, List, [], length, map, None};
ghost use Rattle.std.specs.Option.{option_to_list};
ghost use Rattle.dp_owners.specs.declared.links.Links.{Links};
ghost use Rattle.dp_owners.specs.Positions.{first_or, rest_of};
ghost use Rattle.dp_owners.specs.Threaded.{IsThreaded};
ghost use Rattle.dp_owners.specs.Walk.{IsWalk};

use crate::links::Linked;
use crate::owners::{MOST_MASTERS, MOST_RECORDS, Owners};

/// A walk along a list, first to last.
///
/// It does not borrow the records. They may change during the walk, as long as their links stay.
#[derive(Drop)]
pub struct Cursor {
    at: Option<u8>,
    visits: u32,
}

impl Cursor {
    /// Returns a walk along the list of a master below 16, which has given no record yet.
    pub fn over(owners: &Owners, master: usize) -> Cursor
        requires { master < MOST_MASTERS }
        ensures { (links : List Links) (lists : ℕ → List ℕ)
            → IsThreaded owners.now links lists
            → IsWalk result links [] (lists master) }
    {
        Cursor {
            at: owners.first(master),
            visits: 0,
        }
    }

    /// Returns the position of the next record of the list, and `None` from the end of the list on.
    ///
    /// The records are at most 64, and must have the links that they had at the start of the walk.
    pub fn next<T: Linked>(&mut self, records: &[T]) -> Option<u8>
        requires walk { (given : List ℕ) × (rest : List ℕ)
            × IsWalk self.old (map T.links_of records.now) given rest }
        requires few { length records.now ≤ MOST_RECORDS }
        ensures { (given rest : List ℕ)
            → IsWalk self.old (map T.links_of records.now) given rest
            → (result ≡ first_or rest None)
            × IsWalk self.new (map T.links_of records.now)
            (given ++ option_to_list result) (rest_of rest) }
    {
        let here = self.at?;
        self.at = records[usize::from(here)].links().next;
        self.visits += 1;
        Some(here)
    }

    /// Returns the number of records that the walk has given.
    pub fn visits(&self) -> u32
        ensures { (links : List Links) (given rest : List ℕ)
            → IsWalk self.now links given rest
            → result ≡ length given }
    {
        self.visits
    }
}
