//! The texts of faults that no program writes, and the order of the rules.

use audit_heads::HeadFault;
use dp_audit::AuditFault;
use dp_line::RestoreFault;
use dp_responder::Rule;
use dp_telegram::FrameFault;
use dp_text::{TextFault, WriteFault};
use std::alloc::Global;
use std::fmt::Display;
use std::test::Fail;

/// Checks the text of a fault.
fn says<T: Display>(alloc: Global, fault: &T, expected: &str) -> Result<(), Fail> {
    let found = format!(in alloc; "{fault}")?;
    if found.as_str() == expected {
        Ok(())
    } else {
        Err(found)?
    }
}

#[test]
fn faults_have_texts(rt: HostRuntime) -> Result<(), Fail> {
    let alloc = rt.alloc();
    says(alloc, &FrameFault::Short, "Short")?;
    says(alloc, &TextFault::NotACommand, "NotACommand")?;
    says(alloc, &WriteFault, "cannot write")?;
    says(alloc, &AuditFault::BadLine(1), "bad line 1")?;
    says(alloc, &AuditFault::NotThePolicy(2), "not the policy 2")?;
    says(alloc, &HeadFault::WrongRow(3), "row 3 is wrong")?;
    let unsound = HeadFault::Unsound(RestoreFault::UnsoundSlave(5));
    says(
        alloc,
        &unsound,
        "slave 5 is not as a slave of this line can be",
    )
}

/// The rules stand in the order of the verdict. The number of NotListed is 20.
#[test]
fn rules_are_in_the_order_of_the_verdict(_rt: HostRuntime) -> Result<(), Fail> {
    let numbers = Rule::ALL.map(|rule| rule.code());
    if numbers
        == [
            1, 2, 3, 4, 5, 6, 7, 8, 9, 10, 11, 12, 13, 14, 15, 20, 16, 17, 18, 19,
        ]
    {
        Ok(())
    } else {
        Err("another order")?
    }
}
