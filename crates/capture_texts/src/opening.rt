//! What stands before the packets: the section, and an interface for each line.

ghost use Rattle.std.specs.Prelude.{◌≡◌, ◌++◌, ◌≤◌, ◌<◌, ◌+◌, ◌^◌, length, map, OnOk};
ghost use Rattle.capture_texts.specs.Blocks.{block_octets, capture_octets};
ghost use Rattle.rack_file.specs.Rack.{line_described};
ghost use Rattle.capture_texts.specs.Captured.{interface_among, line_interface, opening_blocks};
ghost use Rattle.capture_texts.specs.Captures.{LeavesPackets};

use crate::capture::Capture;
use crate::row_fault::Cut;
use dp_audit::is_header_of;
use dp_text::{Text, write_whole};
use rack_file::RackLine;
use std::alloc::{AllocError, Global};
use std::io::Write;

/// The comment of the section.
const TIME_COMMENT: &str =
    "Times are not those of a clock: 10 ms for each unit of the ticks before an entry, and 1 us for each place.";

/// Writes the section and an interface for each of these lines.
pub(crate) fn write_opening<W: Write>(
    alloc: Global,
    lines: &[RackLine],
    writer: &mut W,
) -> Result<(), Cut>
    ensures { LeavesPackets (opening_blocks (map line_described lines.now)) (W.contents writer.old) (W.contents writer.new) result }
{
    let mut capture = Capture::new(alloc);
    if push_opening(&mut capture, lines).is_err() {
        return Err(Cut::OutOfMemory);
    }
    match write_whole(writer, capture.as_bytes()) {
        Ok(()) => Ok(()),
        Err(_) => Err(Cut::WriteFault),
    }
}

/// Appends the section and an interface for each of these lines. `AllocError` if memory runs out.
fn push_opening(capture: &mut Capture, lines: &[RackLine]) -> Result<(), AllocError>
    ensures { OnOk result (capture.new ≡ capture.old ++ capture_octets (opening_blocks (map line_described lines.now))) }
{
    capture.push_section(TIME_COMMENT.as_bytes())?;
    push_lines(capture, lines)
}

/// Appends an interface for each of these lines. `AllocError` if memory runs out.
fn push_lines(capture: &mut Capture, lines: &[RackLine]) -> Result<(), AllocError>
    ensures { OnOk result (capture.new ≡ capture.old ++ capture_octets (map line_interface (map line_described lines.now))) }
{
    let mut left = lines;
    while let [line, others @ ..] = left {
        push_line(capture, line)?;
        left = others;
    }
    Ok(())
}

/// Appends the interface of a line. `AllocError` if memory runs out.
fn push_line(capture: &mut Capture, line: &RackLine) -> Result<(), AllocError>
    ensures { OnOk result (capture.new ≡ capture.old ++ block_octets (line_interface (line_described line.now))) }
{
    let mut name = Text::new();
    name.push_str("line ");
    name.push_octet(line.spec.number);
    capture.push_interface(name.as_bytes())
}

/// Returns the number of the interface of the line with this header: the number of lines before the first one that accepts
/// it, which is the number of all lines if none does.
pub(crate) fn interface_named(lines: &[RackLine], header: &[u8]) -> u32
    requires { length lines.now < 2 ^ 32 }
    ensures number { result ≡ interface_among (map line_described lines.now) header.now }
    ensures bound { result ≤ length lines.now }
{
    match lines {
        [] => 0,
        [line, others @ ..] => {
            if is_header_of(header, &line.spec) {
                0
            } else {
                interface_named(others, header) + 1
            }
        }
    }
}
