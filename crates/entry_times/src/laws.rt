//! Laws of times: each is the contract of a function that does nothing.

ghost use Rattle.std.specs.Prelude.{◌≡◌, ◌≤◌, ◌<◌, ℕ, List, IfSome, Some};
ghost use Rattle.entry_times.specs.TimeRows.{IsTimeRow, time_row_text};
ghost use Rattle.entry_times.specs.declared.time_row.TimeRow.{TimeRow};
ghost use Rattle.entry_times.specs.declared.entry_time.EntryTime.{EntryTime};
ghost use Rattle.entry_times.specs.PlaceTimes.{DoNotGoBack, interpolated, time_milliseconds, time_of};

/// A time that is interpolated lies between those of its rows.
pub fn an_interpolation_lies_between_its_rows()
    ensures { (before after : TimeRow) (place : ℕ) → before.milliseconds ≤ after.milliseconds → before.place < place → place < after.place
        → (before.milliseconds ≤ interpolated before after place) × (interpolated before after place ≤ after.milliseconds) }
{}

/// If the times of the rows do not go back, a later place has no earlier time.
pub fn a_later_place_has_no_earlier_time()
    ensures { (rows : List TimeRow) (place later : ℕ) (first second : EntryTime) → DoNotGoBack rows → place ≤ later → time_of rows place ≡ Some first → time_of rows later ≡ Some second
        → time_milliseconds first ≤ time_milliseconds second }
{}

/// No two rows have the same text, so what is read is what was written.
pub fn only_what_is_written_is_read()
    ensures { (row other : TimeRow) → IsTimeRow row → IsTimeRow other → time_row_text row ≡ time_row_text other → row ≡ other }
{}
