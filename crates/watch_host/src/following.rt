//! Following the audit texts of all lines of a rack.

use crate::host::WatchHost;
use crate::line_text::{Followed, LineText, Turn};
use crate::processor_share::ProcessorShare;
use crate::watch_fault::WatchFault;
use rack_file::Rack;
use std::thread;
use std::time::{Duration, Instant};

/// The number of rounds after which it looks for the next texts.
const ROUNDS_TO_LOOK: u32 = 6;

/// Follows the audit texts of all lines of a rack, with this share of a processor. It ends only with a fault.
pub(crate) fn follow_lines<'a, H: WatchHost>(
    followed: &Followed<'a, '_, H>,
    rack: &Rack,
    share: ProcessorShare,
) -> Result<(), WatchFault> {
    let mut lines = Vec::new(followed.alloc);
    for line in rack.lines.as_slice() {
        let text = LineText::new(followed.alloc, line.spec.number, lines.len());
        lines.push(text)?;
    }
    let mut round: u32 = 0;
    for _ in followed.host.forever() {
        let begun = Instant::now(followed.host);
        let has_more = follow_round(followed, lines.as_mut_slice(), round == 0)?;
        round = next_round(round);
        let took = match begun {
            Ok(begun) => begun.elapsed(followed.host).unwrap_or(Duration::ZERO),
            Err(_) => Duration::ZERO,
        };
        thread::sleep(followed.host, share.pause(took, has_more));
    }
    unreachable!()
}

/// Gives each line its turn. `looks` is whether a line of which all is read looks for its next text. Returns whether there
/// may be more to read.
fn follow_round<'a, H: WatchHost>(
    followed: &Followed<'a, '_, H>,
    lines: &mut [LineText<'a, H>],
    looks: bool,
) -> Result<bool, WatchFault> {
    let mut has_more = false;
    for line in lines.iter_mut() {
        let turn = line.take_turn(followed)?;
        if turn == Turn::HasMore {
            has_more = true;
        } else if looks && line.begin_next(followed)? {
            has_more = true;
        }
    }
    Ok(has_more)
}

/// Returns the number of the next round, which is 0 for a round that looks for the next texts.
fn next_round(round: u32) -> u32 {
    if round < ROUNDS_TO_LOOK - 1 {
        round + 1
    } else {
        0
    }
}
