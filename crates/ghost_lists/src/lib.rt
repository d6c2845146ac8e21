//! A list that only contracts read, of what a program no longer stores; it takes no memory, and no program can read it.
#![tactic(auto)]

ghost use Rattle.std.specs.Prelude.{◌≡◌, List, [], ◌∷◌, ◌++◌};
ghost use Rattle.std.specs.Borrow.{ftrue};

use std::marker::{Model, PhantomData};

/// A ghost list: contracts read its items, no code does, and its calls do nothing at run time.
///
/// Only the contracts of its calls state what it contains. So a contract that mentions only a `Past` says nothing about
/// a program; it must tie the items to something that the program stores.
#[derive(Drop)]
pub struct Past<T> {
    of: PhantomData<T>,
    pub ghost items: { List T },
}

impl<T> Model for Past<T> {
    ghost also_owns = { λ _. ftrue };
}

// It owns nothing, so it may move to another thread whenever a `T` may.
unsafe impl<T: Send> Send for Past<T> {}

impl<T> Past<T> {
    /// Returns the empty list.
    pub fn new() -> Past<T>
        ensures { result.items ≡ [] }
    {
        Past { of: PhantomData }
    }

    /// Returns this list with one more item at its end.
    #[inline(always)]
    pub fn followed_by(&self, _item: &T) -> Past<T>
        ensures { result.items ≡ self.now.items ++ _item.now ∷ [] }
    {
        Past { of: PhantomData }
    }
}
