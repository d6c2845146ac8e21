//! Faults that no other test meets.

use dp_sessions::PoolFault;
use std::alloc::Global;
use std::fmt::Display;
use std::test::Fail;
use test_fixtures::rows::is_reported;

/// Checks the text and the number of a fault.
fn reports<F: Display + Drop>(
    alloc: Global,
    fault: F,
    code: u8,
    expected: &str,
) -> Result<(), Fail> {
    is_reported(format!(in alloc; "{fault} {code}")?, expected)
}

#[test]
fn faults_of_pools(rt: HostRuntime) -> Result<(), Fail> {
    let memory = PoolFault::OutOfMemory;
    reports(rt.alloc(), memory, memory.code(), "out of memory 1")?;
    let thread = PoolFault::NoThread;
    reports(rt.alloc(), thread, thread.code(), "no thread 2")
}
