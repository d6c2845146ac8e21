//! Whether receipts agree with the journal of a closed line.

use arrayvec::ArrayVec;
use dp_audit::Receipt;
use dp_line::{Device, Op, Outcome};
use dp_shared::{Closed, Line};
use std::alloc::Global;
use std::sync::Wait;
use std::test::Fail;
use test_fixtures::line_specs::{ample_line, line_spec};
use test_fixtures::rows::{close, octets_of};

/// A closed line, and the receipts of its events in their order.
#[derive(Drop)]
struct Sent {
    closed: Closed,
    first: Receipt,
    second: Receipt,
    third: Receipt,
    tick: Receipt,
    refused: Receipt,
}

/// Master 1 sends two requests, and master 2 one between them. The operator sends a tick, and an input of a station that
/// the line lacks, whose receipt has no place. Then the line is closed.
fn closed_after_events<R: Wait>(rt: &R, alloc: Global) -> Result<Sent, Fail> {
    let line = Line::open(alloc, &ample_line(alloc, 1, Device::Still)?)?;
    let mut pass = line.open_pass(rt, 1)?;
    let mut other = line.open_pass(rt, 2)?;
    let mut operator = line.open_pass(rt, 127)?;
    let (of_first, of_second) = (
        octets_of("6805056885816d3c3eed16")?,
        octets_of("6805056885826d3c3eee16")?,
    );
    let input = Op::Input {
        address: 9,
        octets: ArrayVec::new(),
    };
    let first = line.exchange(rt, &mut pass, &of_first);
    let second = line.exchange(rt, &mut other, &of_second);
    let third = line.exchange(rt, &mut pass, &of_first);
    let tick = line.operate(rt, &mut operator, Op::Tick(1));
    let refused = line.operate(rt, &mut operator, input);
    line.hand_back(rt, pass);
    line.hand_back(rt, other);
    line.hand_back(rt, operator);
    match close(line, Vec::new(alloc)) {
        Ok(closed) => Ok(Sent {
            closed,
            first,
            second,
            third,
            tick,
            refused,
        }),
        Err(_) => Err(Fail::new("a pass is out")),
    }
}

/// A receipt without a place changes nothing.
#[test]
fn receipts_agree(rt: HostRuntime) -> Result<(), Fail> {
    let Sent {
        closed,
        first,
        second,
        third,
        tick,
        refused,
    } = closed_after_events(&rt, rt.alloc())?;
    assert!(rt; closed.book().count() == 4);
    assert!(rt; closed.agrees(1, &[first, refused.clone()?, third]));
    assert!(rt; closed.agrees(2, &[second]));
    assert!(rt; closed.agrees(127, &[tick, refused]));
    Ok(())
}

/// Receipts that are missing, in another order or of another master don't agree.
#[test]
fn other_receipts_do_not_agree(rt: HostRuntime) -> Result<(), Fail> {
    let Sent {
        closed,
        first,
        second,
        third,
        ..
    } = closed_after_events(&rt, rt.alloc())?;
    assert!(rt; !closed.agrees(127, &[]));
    assert!(rt; !closed.agrees(2, &[]));
    assert!(rt; !closed.agrees(1, &[second]));
    assert!(rt; !closed.agrees(1, &[first.clone()?]));
    assert!(rt; !closed.agrees(1, &[third.clone()?]));
    assert!(rt; !closed.agrees(1, &[third, first]));
    Ok(())
}

/// The reply of 17 octets is left out of a receipt.
#[test]
fn a_changed_receipt_does_not_agree(rt: HostRuntime) -> Result<(), Fail> {
    let Sent {
        closed,
        mut second,
        ..
    } = closed_after_events(&rt, rt.alloc())?;
    let Outcome::Reply { octets, .. } = &mut second.outcome else {
        return Err(Fail::new("no reply"));
    };
    assert!(rt; octets.len() == 17);
    octets.clear();
    assert!(rt; !closed.agrees(2, &[second]));
    Ok(())
}

/// An endless line that stores at most two entries takes two ticks. Master 2 has no receipts.
#[test]
fn receipts_agree_if_no_entry_is_forgotten(rt: HostRuntime) -> Result<(), Fail> {
    let alloc = rt.alloc();
    let mut spec = line_spec(alloc, 1, 2, Device::Still)?;
    let line = Line::open_endless(alloc, &mut spec)?;
    let mut operator = line.open_pass(&rt, 127)?;
    line.operate(&rt, &mut operator, Op::Tick(1));
    line.operate(&rt, &mut operator, Op::Tick(1));
    line.hand_back(&rt, operator);
    let Ok(closed) = close(line, Vec::new(alloc)) else {
        return Err(Fail::new("a pass is out"));
    };
    assert!(rt; closed.agrees(2, &[]));
    Ok(())
}

/// An endless line that stores at most two entries takes three ticks. Master 2 has no receipts.
#[test]
fn no_receipts_agree_once_an_entry_is_forgotten(rt: HostRuntime) -> Result<(), Fail> {
    let alloc = rt.alloc();
    let mut spec = line_spec(alloc, 1, 2, Device::Still)?;
    let line = Line::open_endless(alloc, &mut spec)?;
    let mut operator = line.open_pass(&rt, 127)?;
    line.operate(&rt, &mut operator, Op::Tick(1));
    line.operate(&rt, &mut operator, Op::Tick(1));
    line.operate(&rt, &mut operator, Op::Tick(1));
    assert!(rt; line.entry(&rt, &mut operator, 1).value.is_none());
    assert!(rt; line.entry(&rt, &mut operator, 3).value.is_some());
    line.hand_back(&rt, operator);
    let Ok(closed) = close(line, Vec::new(alloc)) else {
        return Err(Fail::new("a pass is out"));
    };
    assert!(rt; !closed.agrees(2, &[]));
    Ok(())
}
