//! Opening the line on which an audit text is judged.

ghost use Rattle.std.specs.Prelude.{◌≡◌, if◌then◌else◌, None, IfSome, MatchResult, Err};
ghost use Rattle.dp_line.specs.World.{description_of, opening_fault};
ghost use Rattle.dp_line.specs.Walk.{starting_line};
ghost use Rattle.dp_line.specs.Endless.{endless_places};
ghost use Rattle.dp_text.specs.Words.{lines_of, same_text};
ghost use Rattle.dp_audit.specs.AuditText.{header_text};
ghost use Rattle.dp_audit.specs.Check.{places_of_lines};

use crate::checking::is_of_version;
use crate::writing::ENDLESS_VERSION;
use dp_line::{LineSpec, LineState, OpenFault};
use dp_text::{Lines, Text};
use std::alloc::Global;

/// Opens the line on which an audit text is judged: the endless line if the header of the text names version 3,
/// otherwise the line as it is described (own).
///
/// Returns the faults of [`LineState::open`].
pub fn open_line(alloc: Global, line: &LineSpec, text: &str) -> Result<LineState, OpenFault>
    ensures refused { IfSome (opening_fault (description_of line.now)) (λ fault. result ≡ Err fault) }
    ensures opened { opening_fault (description_of line.now) ≡ None
        → MatchResult result
        (λ state. state ≡ starting_line (record (description_of line.now) { capacity = places_of_lines (description_of line.now) (lines_of text.now) }))
        (λ fault. fault ≡ OpenFault.OutOfMemory) }
{
    let mut state = LineState::open(alloc, line)?;
    if let Some(header) = Lines::new(text.as_bytes()).next() {
        lift_by_header(&mut state, header, line.number);
    }
    Ok(state)
}

/// Makes the line an endless one if this is the header of an endless line with this number.
fn lift_by_header(state: &mut LineState, header: &[u8], number: u8)
    ensures { state.new ≡ (if same_text header.now (header_text 3 number) then record state.old { world = record state.old.world { capacity = endless_places } } else state.old) }
{
    if is_of_version(header, ENDLESS_VERSION, number, &mut Text::new()) {
        state.lift_limit();
    }
}
