//! A line and the claims of its masters' addresses.

use dp_shared::{Claims, Line};

/// A line, and the claims of its masters' addresses.
///
/// The type is generic, because the checker decides from the facts of the type parameters whether threads may share
/// it. It could not decide this from the types of a line.
///
/// The caller has to give both the same masters. If they differ, the session of a master that only the claims have
/// ends with `NoPass`.
#[derive(Drop)]
pub struct LineAndClaims<L, C> {
    /// The line.
    pub line: L,
    /// The claims of its masters' addresses.
    pub claims: C,
}

/// The line at which sessions run, with its claims.
pub type Port = LineAndClaims<Line, Claims>;
