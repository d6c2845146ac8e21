//! The links of a record.

ghost use Rattle.std.specs.Prelude.{◌≡◌};

/// The neighbours of a record in its list, by position. A record in no list has neither.
#[derive(Clone, Copy, Debug, Drop, PartialEq, Eq)]
pub struct Links {
    /// The record before it, `None` for the first of a list.
    pub prev: Option<u8>,
    /// The record after it, `None` for the last of a list.
    pub next: Option<u8>,
}

/// A record that has links.
pub trait Linked {
    ghost use Rattle.dp_owners.specs.declared.links.Links.{Links};

    /// Its links.
    ghost links_of: { Self → Links };

    /// The record without its links: the same record with links that have no meaning.
    ghost bare: { Self → Self };

    /// Returns its links, as they were last set.
    fn links(&self) -> Links
        ensures { result ≡ links_of self.now };

    /// Sets its links and nothing else.
    fn set_links(&mut self, links: Links)
        ensures links { links_of self.new ≡ links }
        ensures all_else { bare self.new ≡ bare self.old };
}
