//! A client of the clock of a line: what a program that advances the time concludes of the journal from public
//! contracts and laws only. The prover reads it, and nothing runs it.

ghost use Rattle.std.specs.Prelude.{◌≡◌, ◌≤◌, ◌+◌, ℕ, [], ◌∷◌, false, IfSome};
ghost use Rattle.dp_shared.specs.Content.{world_now};
ghost use Rattle.serve_clock.specs.Advances.{events_under, ticks_of, units_in};
ghost use Rattle.serve_clock.specs.Moments.{advances_at_each, cut_off_in_all, first_time, units_passed};

use dp_shared::{Closed, Line};
use serve_clock::Ticker;
use serve_clock::laws::the_ticks_are_the_time_that_passed;
use std::alloc::Global;
use std::sync::Wait;

/// Advances the time of a line to two moments and closes the line. If the line is not halted then, the journal has
/// the ticks of these moments under the number of one pass. If the second moment is not the earlier one, these ticks
/// have all units that have passed by then, except for those that were cut off.
///
/// Returns None if the line gives no pass, memory is refused, or another pass is out.
pub fn tick_twice<T: Wait>(
    rt: &T,
    alloc: Global,
    line: Line,
    tick: u32,
    first: u64,
    second: u64,
) -> Option<Closed>
    ensures { IfSome result (λ closed. (number : ℕ)
        × ((world_now closed).halted ≡ false → events_under closed number ≡ ticks_of (advances_at_each (first_time tick) (first ∷ second ∷ [])))
        × ((world_now closed).halted ≡ false → first ≤ second
        → units_in (events_under closed number) + cut_off_in_all (advances_at_each (first_time tick) (first ∷ second ∷ [])) ≡ units_passed second)) }
{
    the_ticks_are_the_time_that_passed();
    let mut ticker = Ticker::open(rt, &line, tick)?;
    ticker.advance(rt, first);
    ticker.advance(rt, second);
    ticker.prove_ticked();
    let Ok(mut returned) = Vec::with_capacity(alloc, 1) else {
        return None;
    };
    returned.push_reserved(ticker.close(rt));
    let Ok(closed) = line.close_with(Vec::new(alloc), &mut returned) else {
        return None;
    };
    Some(closed)
}
