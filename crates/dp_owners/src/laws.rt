//! Laws of threaded lists: each is the contract of an empty function.

ghost use Rattle.std.specs.Prelude.{◌≡◌, ◌≢◌, ℕ, ◌+◌, ◌<◌, ◌≤◌, List, ◌∷◌, ◌++◌, length, slice_get};
ghost use Rattle.dp_owners.specs.declared.links.Links.{Links};
ghost use Rattle.dp_owners.specs.declared.owners.Owners.{Owners};
ghost use Rattle.dp_owners.specs.declared.owners.TheConstants.{MOST_MASTERS};
ghost use Rattle.dp_owners.specs.Positions.{first_or, last_or, NotIn};
ghost use Rattle.dp_owners.specs.Threaded.{IsThreaded, IsFree, IsListed, appended, unlinked};
ghost use Rattle.dp_owners.specs.Reading.{list_of, listed_count};

/// The heads and the links determine the lists: no other lists are threaded so.
pub fn lists_are_read_off()
    ensures { (owners : Owners) (links : List Links) (lists : ℕ → List ℕ) (master : ℕ)
        → master < MOST_MASTERS
        → IsThreaded owners links lists
        → lists master ≡ list_of owners links master }
{}

/// If lists are threaded, so are all lists that are the same for each master.
pub fn same_lists_are_threaded_alike()
    ensures { (owners : Owners) (links : List Links) (lists others : ℕ → List ℕ)
        → ((master : ℕ) → master < MOST_MASTERS → lists master ≡ others master)
        → IsThreaded owners links lists
        → IsThreaded owners links others }
{}

/// The lists determine all: the same lists through as many records have the same heads, tails and
/// links.
pub fn lists_say_all()
    ensures { (owners later : Owners) (links after : List Links) (lists others : ℕ → List ℕ)
        → IsThreaded owners links lists
        → IsThreaded later after others
        → length links ≡ length after
        → ((master : ℕ) → master < MOST_MASTERS → lists master ≡ others master)
        → (owners ≡ later) × (links ≡ after) }
{}

/// Appending a record and then unlinking it restores the lists, and with them the heads, the tails
/// and the links.
pub fn append_then_unlink_is_as_before()
    ensures lists { (lists : ℕ → List ℕ) (master at other : ℕ)
        → master < MOST_MASTERS
        → IsFree at lists
        → unlinked (appended lists master at) master at other ≡ lists other }
    ensures links { (owners later : Owners) (links after : List Links) (lists : ℕ → List ℕ)
        (master at : ℕ)
        → master < MOST_MASTERS
        → IsFree at lists
        → IsThreaded owners links lists
        → IsThreaded later after (unlinked (appended lists master at) master at)
        → length links ≡ length after
        → (owners ≡ later) × (links ≡ after) }
{}

/// A record that is appended is in that list, and in no other.
pub fn an_appended_record_is_in_that_list_alone()
    ensures there { (lists : ℕ → List ℕ) (master at : ℕ)
        → IsListed master at (appended lists master at) }
    ensures nowhere_else { (lists : ℕ → List ℕ) (master at other : ℕ)
        → IsFree at lists
        → other < MOST_MASTERS
        → other ≢ master
        → NotIn at (appended lists master at other) }
{}

/// A record that is unlinked is in no list.
pub fn an_unlinked_record_is_in_no_list()
    ensures { (owners : Owners) (links : List Links) (lists : ℕ → List ℕ) (master at : ℕ)
        → master < MOST_MASTERS
        → IsThreaded owners links lists
        → IsListed master at lists
        → IsFree at (unlinked lists master at) }
{}

/// A call moves only its record. Another record in no list stays in none, and another record in a
/// list stays in that list.
pub fn other_records_stay()
    ensures free_after_append { (lists : ℕ → List ℕ) (master at other : ℕ)
        → master < MOST_MASTERS
        → other ≢ at
        → IsFree other lists
        → IsFree other (appended lists master at) }
    ensures free_after_unlink { (lists : ℕ → List ℕ) (master at other : ℕ)
        → master < MOST_MASTERS
        → IsFree other lists
        → IsFree other (unlinked lists master at) }
    ensures listed_after_append { (lists : ℕ → List ℕ) (master at owner other : ℕ)
        → IsListed owner other lists
        → IsListed owner other (appended lists master at) }
    ensures listed_after_unlink { (lists : ℕ → List ℕ) (master at owner other : ℕ)
        → other ≢ at
        → IsListed owner other lists
        → IsListed owner other (unlinked lists master at) }
{}

/// A call changes only the links of its record and of those beside it. Every other record keeps its
/// links.
pub fn a_call_touches_neighbours_alone()
    ensures append { (owners later : Owners) (links after : List Links) (lists : ℕ → List ℕ)
        (master at other : ℕ)
        → master < MOST_MASTERS
        → at < length links
        → IsFree at lists
        → IsThreaded owners links lists
        → IsThreaded later after (appended lists master at)
        → length links ≡ length after
        → at ≢ other
        → last_or None (lists master) ≢ Some other
        → slice_get after other ≡ slice_get links other }
    ensures unlink { (owners later : Owners) (links after : List Links) (lists : ℕ → List ℕ)
        (master at other : ℕ) (before behind : List ℕ)
        → master < MOST_MASTERS
        → lists master ≡ before ++ at ∷ behind
        → IsThreaded owners links lists
        → IsThreaded later after (unlinked lists master at)
        → length links ≡ length after
        → at ≢ other
        → last_or None before ≢ Some other
        → first_or behind None ≢ Some other
        → slice_get after other ≡ slice_get links other }
{}

/// The lists together have at most as many records as there are. They have one more after an
/// append, and one less after an unlink.
pub fn lengths_add_up()
    ensures most { (owners : Owners) (links : List Links) (lists : ℕ → List ℕ)
        → IsThreaded owners links lists
        → listed_count MOST_MASTERS lists ≤ length links }
    ensures one_more { (lists : ℕ → List ℕ) (master at : ℕ)
        → master < MOST_MASTERS
        → listed_count MOST_MASTERS (appended lists master at)
        ≡ listed_count MOST_MASTERS lists + 1 }
    ensures one_less { (owners : Owners) (links : List Links) (lists : ℕ → List ℕ) (master at : ℕ)
        → master < MOST_MASTERS
        → IsThreaded owners links lists
        → IsListed master at lists
        → listed_count MOST_MASTERS (unlinked lists master at) + 1
        ≡ listed_count MOST_MASTERS lists }
{}
