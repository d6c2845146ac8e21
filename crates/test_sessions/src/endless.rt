//! Trails of an endless line that stores at most two entries.

ghost use Rattle.std.specs.Prelude.{◌≡◌};
ghost use Rattle.dp_shared.specs.Passes.{table_of};

use audit_trail::{Tail, WriteParts};
use dp_line::{Device, Op};
use dp_shared::{Line, Pass};
use std::alloc::Global;
use std::io::{Result as IoResult, Write};
use std::sync::Wait;
use std::test::Fail;
use test_fixtures::line_specs::line_spec;
use test_fixtures::rows::{ARROW, is_reported};

/// A writer of a text that has one part.
#[derive(Drop)]
struct OnePart {
    text: Vec<u8>,
}

impl Write for OnePart {
    fn write(&mut self, buf: &[u8]) -> IoResult<usize> {
        self.text.extend_from_slice(buf)?;
        Ok(buf.len())
    }

    fn flush(&mut self) -> IoResult<()> {
        Ok(())
    }
}

impl WriteParts for OnePart {
    fn part_is_due(&self) -> bool {
        false
    }

    fn begin_part(&mut self) -> IoResult<()> {
        Ok(())
    }
}

/// A line, its trail, and a pass of its operator.
#[derive(Drop)]
struct Desk<'l> {
    line: &'l Line,
    operator: Pass,
    tail: Tail<'l, OnePart>,
    ghost ours: { operator.table ≡ table_of line.now },
    ghost address: { operator.view.address ≡ 127 },
}

impl Desk<'_> {
    /// Reports one tick as the operator.
    fn tick<R: Wait>(&mut self, rt: &R) {
        self.line.operate(rt, &mut self.operator, Op::Tick(1));
    }

    /// Reports one tick `ticks` times as the operator, and then lets the trail catch up. Returns whether it could, and
    /// why it is broken.
    fn play<R: Wait>(&mut self, rt: &R, alloc: Global, ticks: u32) -> Result<String, Fail> {
        for _ in 0..ticks {
            self.tick(rt);
        }
        let written_up_to = self.tail.catch_up(rt).is_ok();
        let why = self.tail.broken();
        Ok(format!(in alloc; "caught up {written_up_to}, broken {why:?}")?)
    }

    /// Carries out each line of a transcript that has an arrow. Returns each line with its result.
    fn play_rows<R: Wait>(&mut self, rt: &R, alloc: Global, rows: &str) -> Result<String, Fail> {
        let mut played = String::new(alloc);
        for row in rows.lines() {
            if let Some((ticks, _)) = row.split_once(ARROW) {
                let result = self.play(rt, alloc, ticks.parse::<u32>()?)?;
                played.push_str(&format!(in alloc; "{ticks}{ARROW}{result}\n")?)?;
            }
        }
        Ok(played)
    }
}

/// Checks the transcript of a new line and its trail: in each line with an arrow the number of ticks before the trail catches
/// up, and the result; then the text that the trail wrote.
fn check_trail<R: Wait>(rt: &R, alloc: Global, transcript: &str) -> Result<(), Fail> {
    let mut spec = line_spec(alloc, 1, 2, Device::Still)?;
    let line = Line::open_endless(alloc, &mut spec)?;
    let operator = line.open_pass(rt, 127)?;
    let writer = OnePart {
        text: Vec::new(alloc),
    };
    let tail = Tail::open(rt, alloc, &line, writer)?;
    let mut desk = Desk {
        line: &line,
        operator,
        tail,
    };
    let mut played = desk.play_rows(rt, alloc, transcript)?;
    let Desk { tail, .. } = desk;
    let (written, _) = tail.close(rt);
    played.push_str(&String::from_utf8(written.text)?)?;
    is_reported(played, transcript)
}

/// After one or two ticks the entry of the trail's next place is still there, and after three it is forgotten. A broken trail
/// stays broken, and writes nothing.
#[test]
fn three_ticks_break_a_trail(rt: HostRuntime) -> Result<(), Fail> {
    check_trail(
        &rt,
        rt.alloc(),
        "\
1 -> caught up true, broken None
2 -> caught up true, broken None
3 -> caught up false, broken Some(Overtaken)
0 -> caught up false, broken Some(Overtaken)
1 -> caught up false, broken Some(Overtaken)
rack-audit 3 line 1
1 tick 1 | none | released
2 tick 1 | none | released
3 tick 1 | none | released
",
    )
}
