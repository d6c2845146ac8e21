//! The query of a request for the state.

ghost use Rattle.std.specs.Prelude.{◌≡◌, ◌<◌, ◌==◌};
ghost use Rattle.std.specs.List.{after_first, before_first};
ghost use Rattle.std.specs.Option.{option_copied};
ghost use Rattle.watch_page.specs.Queries.{entries_after, number_named, number_of};

/// Returns the number of the last entry that a client has: N if the query is exactly `run=R&after=N` and R is this
/// run, else 0. R and N are decimal digits without a sign, from 0 to 2^64 - 1 (own).
pub fn entries_after(query: Option<&str>, run: u64) -> u64
    ensures { result ≡ entries_after (option_copied query.entry) run }
{
    let Some(query) = query else {
        return 0;
    };
    let (first, second) = cut(query, '&');
    if number_named("run", first) == Some(run) {
        number_named("after", second).unwrap_or(0)
    } else {
        0
    }
}

/// Returns the number of a field `NAME=DIGITS` with this name, or None for any other field.
fn number_named(name: &str, field: &str) -> Option<u64>
    ensures { result ≡ number_named name.now field.now }
{
    let (key, digits) = cut(field, '=');
    if key == name { number_of(digits) } else { None }
}

/// Returns the number that decimal digits are, from 0 to 2^64 - 1, or None for any other text.
fn number_of(digits: &str) -> Option<u64>
    ensures { result ≡ number_of digits.now }
{
    // `parse` accepts a sign.
    if digits.starts_with('+') {
        return None;
    }
    digits.parse::<u64>().ok()
}

/// Returns the text before the first such character and the text behind it. If there is no such character, returns the
/// whole text and an empty one.
fn cut(text: &str, at: char) -> (&str, &str)
    requires { at < 128 }
    ensures before { result.0.now ≡ before_first (λ byte. byte == at) text.now }
    ensures behind { result.1.now ≡ after_first (λ byte. byte == at) text.now }
{
    match text.split_once(at) {
        Some((before, behind)) => (before, behind),
        None => (text, ""),
    }
}
