//! The links of a slave.

use crate::slave::Slave;
use dp_owners::{Linked, Links};

impl Linked for Slave {
    ghost use Rattle.std.specs.Prelude.{None};

    ghost links_of = { λ s. s.links };

    ghost bare = { λ s. record s { links = record { prev = None; next = None } } };

    fn links(&self) -> Links {
        self.links
    }

    fn set_links(&mut self, links: Links) {
        self.links = links;
    }
}
