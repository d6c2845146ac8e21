//! The ends of the lists, and the operations on the lists.

ghost use Rattle.std.specs.Prelude.{◌≡◌, ℕ, ◌<◌, ◌≤◌, List, [], ◌++◌, length, map, reverse, None, IfSome, MatchOption, true, false};
ghost use Rattle.std.specs.Option.{option_to_list};
ghost use Rattle.dp_owners.specs.declared.links.Links.{Links};
ghost use Rattle.dp_owners.specs.Positions.{first_or, last_or, NotIn};
ghost use Rattle.dp_owners.specs.Chain.{HaveNoLinks};
ghost use Rattle.dp_owners.specs.Threaded.{HasLists, IsThreaded, IsThreadedWith, IsFree, IsListed, appended, unlinked};
ghost use Rattle.dp_owners.specs.Reading.{next_of};
ghost use Rattle.dp_owners.specs.Mending.{changed_where, with_end, with_next, with_prev, mirrored};

use crate::cursor::Cursor;
use crate::links::{Linked, Links};
use arrayvec::ArrayVec;

/// The number of masters, each of which has a list.
pub const MOST_MASTERS: usize = 16;

/// The greatest number of records.
pub const MOST_RECORDS: usize = 64;

/// The first and the last record of each master's list, for masters below 16.
///
/// Each call must be given the same records, at most 64, and nobody else may set their links. A
/// position is the index of a record among them.
#[derive(Drop)]
pub struct Owners {
    heads: [Option<u8>; MOST_MASTERS],
    tails: [Option<u8>; MOST_MASTERS],
}

impl Owners {
    /// Returns empty lists, for records that have no links.
    pub fn new() -> Owners
        ensures { (links : List Links)
            → HaveNoLinks links
            → IsThreaded result links (λ master. []) }
    {
        Owners {
            heads: [None; MOST_MASTERS],
            tails: [None; MOST_MASTERS],
        }
    }

    /// Appends a record that is in no list to the master's list.
    ///
    /// The other lists stay. Of the records only links change: those of the record, and of the one
    /// that was last.
    pub fn append<T: Linked>(&mut self, records: &mut [T], master: usize, at: usize)
        requires free { IsThreadedWith self.old (map T.links_of records.old) (IsFree at) }
        requires few { length records.old ≤ MOST_RECORDS }
        requires master { master < MOST_MASTERS }
        requires at { at < length records.old }
        ensures lists { (lists : ℕ → List ℕ)
            → IsThreaded self.old (map T.links_of records.old) lists
            → IsFree at lists
            → IsThreaded self.new (map T.links_of records.new) (appended lists master at) }
        ensures all_else { map T.bare records.new ≡ map T.bare records.old }
    {
        let last = self.tails[master];
        records[at].set_links(Links {
            prev: last,
            next: None,
        });
        self.mend_next(records, master, last, Some(at as u8));
        self.tails[master] = Some(at as u8);
    }

    /// Removes a record from the master's list. The others in it keep their order.
    ///
    /// The other lists stay. Of the records only links change: the record has none then, and the
    /// two beside it get other links.
    pub fn unlink<T: Linked>(&mut self, records: &mut [T], master: usize, at: usize)
        requires listed { IsThreadedWith self.old (map T.links_of records.old)
            (IsListed master at) }
        requires few { length records.old ≤ MOST_RECORDS }
        requires master { master < MOST_MASTERS }
        requires at { at < length records.old }
        ensures lists { (lists : ℕ → List ℕ)
            → IsThreaded self.old (map T.links_of records.old) lists
            → IsListed master at lists
            → IsThreaded self.new (map T.links_of records.new) (unlinked lists master at) }
        ensures all_else { map T.bare records.new ≡ map T.bare records.old }
    {
        let links = records[at].links();
        self.mend_next(records, master, links.prev, links.next);
        self.mend_prev(records, master, links.next, links.prev);
        records[at].set_links(Links {
            prev: None,
            next: None,
        });
    }

    /// Returns the first record of the master's list; `None` if the list is empty.
    pub fn first(&self, master: usize) -> Option<u8>
        requires { master < MOST_MASTERS }
        ensures { (links : List Links) (lists : ℕ → List ℕ)
            → IsThreaded self.now links lists
            → result ≡ first_or (lists master) None }
    {
        self.heads[master]
    }

    /// Returns the last record of the master's list; `None` if the list is empty.
    pub fn last(&self, master: usize) -> Option<u8>
        requires { master < MOST_MASTERS }
        ensures { (links : List Links) (lists : ℕ → List ℕ)
            → IsThreaded self.now links lists
            → result ≡ last_or None (lists master) }
    {
        self.tails[master]
    }

    /// Returns the positions of the master's list, first to last.
    pub fn list<T: Linked>(&self, records: &[T], master: usize) -> ArrayVec<u8, MOST_RECORDS>
        requires threaded { HasLists self.now (map T.links_of records.now) }
        requires few { length records.now ≤ MOST_RECORDS }
        requires master { master < MOST_MASTERS }
        ensures { (lists : ℕ → List ℕ)
            → IsThreaded self.now (map T.links_of records.now) lists
            → result.items ≡ lists master }
    {
        let mut list = ArrayVec::new();
        let mut cursor = Cursor::over(self, master);
        for _step in 0..records.len() {
            let at = cursor.next(records);
            push_some(&mut list, at);
        }
        list
    }

    /// Returns the positions of the master's list, last to first.
    pub fn list_back<T: Linked>(&self, records: &[T], master: usize) -> ArrayVec<u8, MOST_RECORDS>
        requires threaded { HasLists self.now (map T.links_of records.now) }
        requires few { length records.now ≤ MOST_RECORDS }
        requires master { master < MOST_MASTERS }
        ensures { (lists : ℕ → List ℕ)
            → IsThreaded self.now (map T.links_of records.now) lists
            → result.items ≡ reverse (lists master) }
    {
        let mut list = ArrayVec::new();
        let mut at = self.last(master);
        for _step in 0..records.len() {
            push_some(&mut list, at);
            at = record_before(records, at);
        }
        list
    }

    /// Returns the master in whose list the record is; `None` if it is in no list.
    ///
    /// A client, which can't see the lists, checks the preconditions of [`Owners::append`] and
    /// [`Owners::unlink`] by this call.
    pub fn owner_of<T: Linked>(&self, records: &[T], at: usize) -> Option<usize>
        requires threaded { HasLists self.now (map T.links_of records.now) }
        requires few { length records.now ≤ MOST_RECORDS }
        requires at { at < length records.now }
        ensures { (lists : ℕ → List ℕ)
            → IsThreaded self.now (map T.links_of records.now) lists
            → MatchOption result (IsFree at lists)
            (λ master. (master < MOST_MASTERS) × IsListed master at lists) }
    {
        for master in 0..MOST_MASTERS {
            if self.is_listed(records, master, at) {
                return Some(master);
            }
        }
        None
    }

    /// Returns whether the record is in the master's list.
    fn is_listed<T: Linked>(&self, records: &[T], master: usize, at: usize) -> bool
        requires threaded { HasLists self.now (map T.links_of records.now) }
        requires few { length records.now ≤ MOST_RECORDS }
        requires master { master < MOST_MASTERS }
        requires at { at < length records.now }
        ensures listed { (lists : ℕ → List ℕ)
            → IsThreaded self.now (map T.links_of records.now) lists
            → result ≡ true
            → IsListed master at lists }
        ensures not_listed { (lists : ℕ → List ℕ)
            → IsThreaded self.now (map T.links_of records.now) lists
            → result ≡ false
            → NotIn at (lists master) }
    {
        let list = self.list(records, master);
        list.as_slice().contains(&(at as u8))
    }

    /// Makes `next` follow `prev` in the master's list, or begin the list if there is no `prev`.
    fn mend_next<T: Linked>(
        &mut self,
        records: &mut [T],
        master: usize,
        prev: Option<u8>,
        next: Option<u8>,
    )
        requires prev { IfSome prev (λ at. at < length records.old) }
        requires master { master < MOST_MASTERS }
        ensures ends { self.new
            ≡ record self.old { heads = with_end prev master next self.old.heads } }
        ensures links { map T.links_of records.new
            ≡ changed_where (with_next next) prev (map T.links_of records.old) }
        ensures all_else { map T.bare records.new ≡ map T.bare records.old }
    {
        match prev {
            Some(prev) => {
                let record = &mut records[usize::from(prev)];
                let links = record.links();
                record.set_links(Links {
                    prev: links.prev,
                    next,
                });
            }
            None => self.heads[master] = next,
        }
    }

    /// Makes `prev` precede `next` in the master's list, or end the list if there is no `next`.
    fn mend_prev<T: Linked>(
        &mut self,
        records: &mut [T],
        master: usize,
        next: Option<u8>,
        prev: Option<u8>,
    )
        requires next { IfSome next (λ at. at < length records.old) }
        requires master { master < MOST_MASTERS }
        ensures ends { self.new
            ≡ record self.old { tails = with_end next master prev self.old.tails } }
        ensures links { map T.links_of records.new
            ≡ changed_where (with_prev prev) next (map T.links_of records.old) }
        ensures all_else { map T.bare records.new ≡ map T.bare records.old }
    {
        match next {
            Some(next) => {
                let record = &mut records[usize::from(next)];
                let links = record.links();
                record.set_links(Links {
                    prev,
                    next: links.next,
                });
            }
            None => self.tails[master] = prev,
        }
    }
}

/// Returns the record before this one in its list.
fn record_before<T: Linked>(records: &[T], at: Option<u8>) -> Option<u8>
    requires { IfSome at (λ at. at < length records.now) }
    ensures { result ≡ next_of (map mirrored (map T.links_of records.now)) at }
{
    records[usize::from(at?)].links().prev
}

/// Appends a position if there is one.
fn push_some(positions: &mut ArrayVec<u8, MOST_RECORDS>, position: Option<u8>)
    requires { length positions.old.items < MOST_RECORDS }
    ensures { positions.new.items ≡ positions.old.items ++ option_to_list position }
{
    if let Some(position) = position {
        positions.push(position);
    }
}
