//! Faults that no other test meets.

use dp_shared::{ClaimFault, ClaimsFault, PassFault};
use std::alloc::Global;
use std::fmt::Display;
use std::test::Fail;
use test_fixtures::rows::is_reported;

/// Checks the text and the number of a fault.
fn reports<F: Display + Drop>(
    alloc: Global,
    fault: F,
    code: u8,
    expected: &str,
) -> Result<(), Fail> {
    is_reported(format!(in alloc; "{fault} {code}")?, expected)
}

#[test]
fn faults_of_claims(rt: HostRuntime) -> Result<(), Fail> {
    let table = ClaimsFault::NoTable;
    reports(rt.alloc(), table, table.code(), "NoTable 1")?;
    let held = ClaimFault::Held;
    reports(rt.alloc(), held, held.code(), "Held 1")?;
    let unknown = ClaimFault::UnknownMaster;
    reports(rt.alloc(), unknown, unknown.code(), "UnknownMaster 2")
}

#[test]
fn faults_of_passes(rt: HostRuntime) -> Result<(), Fail> {
    let unknown = PassFault::UnknownMaster;
    reports(rt.alloc(), unknown, unknown.code(), "no such master 1")?;
    let many = PassFault::TooMany;
    reports(rt.alloc(), many, many.code(), "too many passes 2")
}
