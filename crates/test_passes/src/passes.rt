//! Passes that are opened, handed back, and given to the closing of a line.

ghost use Rattle.std.specs.Prelude.{◌≡◌, All, IfOk};
ghost use Rattle.dp_shared.specs.Passes.{table_of};

use dp_line::Device;
use dp_shared::{CloseFault, Line, Pass, PassFault};
use std::alloc::Global;
use std::sync::Wait;
use std::test::Fail;
use test_fixtures::line_specs::line_spec;
use test_fixtures::rows::{close, many_passes};

/// A line, and some of its passes.
#[derive(Drop)]
struct Desk {
    line: Line,
    passes: Vec<Pass>,
    ghost ours: { All (λ pass. pass.table ≡ table_of line) passes.items },
}

/// Opens a line, and this many passes of master 1.
fn fresh_desk<R: Wait>(rt: &R, alloc: Global, count: usize) -> Result<Desk, Fail> {
    let line = Line::open(alloc, &line_spec(alloc, 1, 1000, Device::Still)?)?;
    let passes = many_passes(rt, alloc, &line, 1, count)?;
    Ok(Desk { line, passes })
}

impl Desk {
    /// Opens a pass of this address. Returns why it is refused.
    fn open<R: Wait>(&mut self, rt: &R, address: u8) -> Result<Option<PassFault>, Fail> {
        match self.line.open_pass(rt, address) {
            Ok(pass) => {
                self.passes.push(pass)?;
                Ok(None)
            }
            Err(fault) => Ok(Some(fault)),
        }
    }

    /// Hands the last pass back.
    fn hand_back<R: Wait>(&mut self, rt: &R) -> Result<(), Fail> {
        let Some(pass) = self.passes.pop() else {
            return Err(Fail::new("no pass"));
        };
        self.line.hand_back(rt, pass);
        Ok(())
    }
}

/// Closes the line of a desk with all its passes. Returns whether the journal has no entry.
fn closes_without_entries(desk: Desk) -> Result<bool, Fail> {
    let Desk { line, passes } = desk;
    match close(line, passes) {
        Ok(closed) => Ok(closed.book().count() == 0),
        Err(_) => Err(Fail::new("a pass is out")),
    }
}

/// Opens the 64th pass of a line, and tries to open one more, before and after a pass is handed back. The line is closed
/// with all passes, the last of which is the operator's.
#[test]
fn pass_65(rt: HostRuntime) -> Result<(), Fail> {
    let mut desk = fresh_desk(&rt, rt.alloc(), 63)?;
    assert!(rt; desk.open(&rt, 9)? == Some(PassFault::UnknownMaster));
    assert!(rt; desk.open(&rt, 1)?.is_none());
    assert!(rt; desk.open(&rt, 1)? == Some(PassFault::TooMany));
    assert!(rt; desk.open(&rt, 127)? == Some(PassFault::TooMany));
    assert!(rt; desk.open(&rt, 9)? == Some(PassFault::UnknownMaster));
    desk.hand_back(&rt)?;
    assert!(rt; desk.open(&rt, 2)?.is_none());
    assert!(rt; desk.open(&rt, 1)? == Some(PassFault::TooMany));
    desk.hand_back(&rt)?;
    assert!(rt; desk.open(&rt, 127)?.is_none());
    assert!(rt; closes_without_entries(desk)?);
    Ok(())
}

#[test]
fn close_succeeds(rt: HostRuntime) -> Result<(), Fail> {
    assert!(rt; closes_without_entries(fresh_desk(&rt, rt.alloc(), 0)?)?);
    Ok(())
}

/// Closes a line of two passes with one of them, which the fault gives back, and then with both.
#[test]
fn passes_out(rt: HostRuntime) -> Result<(), Fail> {
    let Desk { line, mut passes } = fresh_desk(&rt, rt.alloc(), 2)?;
    let Some(last) = passes.pop() else {
        return Err(Fail::new("no pass"));
    };
    let Err(fault) = close(line, passes) else {
        return Err(Fail::new("closed with a pass out"));
    };
    assert!(rt; fault.code() == 1);
    let CloseFault::PassesOut { line, mut passes } = fault;
    assert!(rt; passes.len() == 1);
    passes.push(last)?;
    assert!(rt; closes_without_entries(Desk { line, passes })?);
    Ok(())
}
