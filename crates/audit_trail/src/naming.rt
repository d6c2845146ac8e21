//! The names of trails.

use std::marker::Brand;

/// Names trails: each by the table of its line, the number of the line, and the number of its pass.
///
/// What is known of a value under a lock is lost, except what its type says. So the names are a type parameter of a
/// [`Trail`](crate::Trail) and of its evidence, a [`WrittenUpTo`](crate::WrittenUpTo): evidence with these names is of one of
/// these trails. The caller that opened the trails picks the names, where it calls the function that shares them.
pub trait Naming {
    ghost use Rattle.std.specs.Prelude.{List};
    ghost use Rattle.audit_trail.specs.Named.{TrailName};

    /// The names.
    ghost trails: { List TrailName };
}

impl Naming for Brand {
    ghost use Rattle.std.specs.Prelude.{[]};

    ghost trails = { [] };
}
