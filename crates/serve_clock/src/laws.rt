//! Laws of time and of regular times: each is the contract of an empty function.

ghost use Rattle.std.specs.Prelude.{◌≡◌, ◌≤◌, ◌<◌, ◌+◌, ◌*◌, ◌/◌, ◌++◌, ℕ, List, [], ◌∷◌, true, false, All};
ghost use Rattle.dp_shared.specs.Content.{Content};
ghost use Rattle.dp_shared.specs.LineLock.{FitsPass};
ghost use Rattle.dp_shared.specs.declared.line_view.PassView.{PassView};
ghost use Rattle.serve_clock.specs.declared.beat.Beat.{Beat};
ghost use Rattle.serve_clock.specs.declared.line_time.LineTime.{LineTime};
ghost use Rattle.serve_clock.specs.Advances.{HasTicked, events_under, started, ticks_of, units_in};
ghost use Rattle.serve_clock.specs.Moments.{advance_at, advances_at_each, cut_off_in_all, first_beat, first_time, is_due, time_after_all, times_due, units_in_all, units_passed, wait_at};

/// No time is lost: over any list of moments, of which the last is the latest, each unit that has passed by then has
/// passed on the line or was cut off.
pub fn no_time_is_lost()
    ensures { (tick : ℕ) (moments : List ℕ) (moment : ℕ)
        → All (λ earlier. earlier ≤ moment) moments
        → units_in_all (advances_at_each (first_time tick) (moments ++ moment ∷ [])) + cut_off_in_all (advances_at_each (first_time tick) (moments ++ moment ∷ [])) ≡ units_passed moment }
{}

/// No time passes twice: over any list of moments, in any order, the units that pass on the line and those that are cut
/// off have passed by the latest of them.
pub fn no_time_passes_twice()
    ensures { (tick : ℕ) (moments : List ℕ) (latest : ℕ)
        → All (λ moment. moment ≤ latest) moments
        → units_in_all (advances_at_each (first_time tick) moments) + cut_off_in_all (advances_at_each (first_time tick) moments) ≤ units_passed latest }
{}

/// No tick is longer than twice its milliseconds, at any moment after any others.
pub fn no_tick_is_too_long()
    ensures { (tick : ℕ) (moments : List ℕ) (moment : ℕ)
        → 10 * (advance_at (time_after_all (first_time tick) moments) moment).units ≤ 2 * tick }
{}

/// Only late time is cut off: if a unit is, more than twice the milliseconds of a tick have passed since each moment
/// before, less than one unit apart.
pub fn only_late_time_is_cut_off()
    ensures { (tick : ℕ) (moments : List ℕ) (before moment : ℕ)
        → 0 < (advance_at (time_after_all (first_time tick) (moments ++ before ∷ [])) moment).cut_off
        → before + 2 * tick < moment + 10 }
{}

/// The ticks in the journal are the time that passed. A clock was advanced to any moments, and no answer to its pass said that
/// the line is halted. Then the entries of the journal under the number of its pass are exactly the ticks of these moments, in
/// order. If the last moment is the latest one, these ticks have all units that passed by then, except for those that were cut
/// off. On a halted line they have no more than that.
///
/// [`Ticker::prove_ticked`](crate::Ticker::prove_ticked) gives the premise `HasTicked`, and the law
/// [`a_pass_has_its_entries`](dp_shared::laws::a_pass_has_its_entries) or the contract of
/// [`Line::close_with`](dp_shared::Line::close_with) gives `FitsPass`.
pub fn the_ticks_are_the_time_that_passed()
    ensures ticks { (time : LineTime) (moments : List ℕ) (pass : PassView) (content : Content)
        → HasTicked time moments pass → FitsPass content pass → pass.saw_halt ≡ false
        → events_under content pass.number ≡ ticks_of (advances_at_each (started time) moments) }
    ensures units { (tick : ℕ) (moments : List ℕ) (moment : ℕ) (pass : PassView) (content : Content)
        → All (λ earlier. earlier ≤ moment) moments
        → HasTicked (time_after_all (first_time tick) (moments ++ moment ∷ [])) (moments ++ moment ∷ []) pass → FitsPass content pass → pass.saw_halt ≡ false
        → units_in (events_under content pass.number) + cut_off_in_all (advances_at_each (first_time tick) (moments ++ moment ∷ [])) ≡ units_passed moment }
    ensures most { (tick : ℕ) (moments : List ℕ) (latest : ℕ) (pass : PassView) (content : Content)
        → All (λ moment. moment ≤ latest) moments
        → HasTicked (time_after_all (first_time tick) moments) moments pass → FitsPass content pass
        → units_in (events_under content pass.number) + cut_off_in_all (advances_at_each (first_time tick) moments) ≤ units_passed latest }
{}

/// Nothing is done twice for one multiple: over any list of moments an action is done no more often than multiples have
/// passed by the latest of them. So what is late is done once.
pub fn nothing_is_done_twice()
    ensures { (every : ℕ) (moments : List ℕ) (latest : ℕ)
        → 0 < every → All (λ moment. moment ≤ latest) moments
        → times_due (first_beat every) moments ≤ latest / every }
{}

/// Nothing is due before the waiting time is over.
pub fn nothing_is_due_before()
    ensures { (beat : Beat) (moment milliseconds : ℕ) → 0 < beat.every → milliseconds < wait_at beat moment
        → is_due beat (moment + milliseconds) ≡ false }
{}

/// An action is due as soon as its waiting time is over.
pub fn all_is_due_afterwards()
    ensures { (beat : Beat) (moment : ℕ) → 0 < beat.every → beat.last ≤ moment → is_due beat (moment + wait_at beat moment) ≡ true }
{}
