//! Counts of a journal's entries before and after a pass is handed back.

ghost use Rattle.std.specs.Prelude.{◌≡◌, ◌+◌, ◌≤◌, [], ◌∷◌, IfOk, length};
ghost use Rattle.dp_shared.specs.Passes.{table_of};

use crate::tied::listed;
use dp_line::{Device, LineSpec};
use dp_shared::laws::the_passes_have_all_entries;
use dp_shared::{Closed, Line, Pass};
use std::alloc::Global;
use std::sync::Wait;
use std::test::Fail;
use test_fixtures::line_specs::ample_line;
use test_fixtures::rows::octets_of;

/// The numbers of entries that a pass counted before and after another pass was handed back, and the line after it was
/// closed.
#[derive(Drop)]
struct Counted {
    before: u32,
    after: u32,
    closed: Closed,
}

/// Counts the entries of a line by a pass, hands another pass back, counts them again, and closes the line with both passes.
///
/// Fails if a third pass was opened at the line, if the last place of the journal is taken, or if memory is refused.
///
/// The closed journal has as many entries as the two passes have receipts, and neither count is above that. So if the first
/// count is the number of their receipts, the second count is the same: handing a pass back adds no entry. This follows from
/// public contracts only. They do not relate a count to an event that another pass sent before it.
fn count_around_hand_back<T: Wait>(
    rt: &T,
    alloc: Global,
    line: Line,
    pass: Pass,
    other: Pass,
) -> Result<Counted, Fail>
    requires pass { pass.table ≡ table_of line }
    requires other { other.table ≡ table_of line }
    ensures entries { IfOk result (λ counted. length counted.closed.book.entries ≡ length pass.view.receipts + length other.view.receipts) }
    ensures counts { IfOk result (λ counted. (counted.before ≤ counted.after) × (counted.after ≤ length counted.closed.book.entries)) }
{
    the_passes_have_all_entries();
    let mut pass = pass;
    let before = line.entry(rt, &mut pass, 1).count;
    let returned_pass = line.hand_back(rt, other);
    let after = line.entry(rt, &mut pass, 1).count;
    let mut returned_pass = listed(alloc, returned_pass)?;
    let Ok(closed) = line.close_with(listed(alloc, pass)?, &mut returned_pass) else {
        return Err(Fail::new("a pass is out"));
    };
    if closed.opened() != 2 {
        return Err(Fail::new("another pass was opened"));
    }
    if closed.book().count() >= closed.book().capacity() {
        return Err(Fail::new("the line is halted"));
    }
    Ok(Counted {
        before,
        after,
        closed,
    })
}

/// Opens a line and two passes, hands one of them back between two counts, and closes the line with both. No event is sent.
///
/// Both counts are 0, and the closed journal has no entry.
fn hand_back_adds_no_entry<T: Wait>(
    rt: &T,
    alloc: Global,
    spec: &LineSpec,
    address: u8,
    other: u8,
) -> Result<Counted, Fail>
    ensures counts { IfOk result (λ counted. (counted.before ≡ 0) × (counted.after ≡ 0)) }
    ensures entries { IfOk result (λ counted. counted.closed.book.entries ≡ []) }
{
    let line = Line::open(alloc, spec)?;
    let pass = line.open_pass(rt, address)?;
    let other = line.open_pass(rt, other)?;
    count_around_hand_back(rt, alloc, line, pass, other)
}

#[test]
fn a_hand_back_adds_no_entry(rt: HostRuntime) -> Result<(), Fail> {
    let alloc = rt.alloc();
    let spec = ample_line(alloc, 1, Device::Still)?;
    let counted = hand_back_adds_no_entry(&rt, alloc, &spec, 2, 127)?;
    assert!(rt; counted.closed.book().count() == 0);
    Ok(())
}

/// Each pass sends one request before the first count.
#[test]
fn a_hand_back_leaves_two_entries(rt: HostRuntime) -> Result<(), Fail> {
    let alloc = rt.alloc();
    let line = Line::open(alloc, &ample_line(alloc, 1, Device::Still)?)?;
    let mut pass = line.open_pass(&rt, 1)?;
    let mut other = line.open_pass(&rt, 2)?;
    line.exchange(&rt, &mut pass, &octets_of("100501495016")?);
    line.exchange(&rt, &mut other, &octets_of("100502495016")?);
    let counted = count_around_hand_back(&rt, alloc, line, pass, other)?;
    assert!(rt; counted.before == 2 && counted.after == 2 && counted.closed.book().count() == 2);
    Ok(())
}
