//! The form of the command in a line of a script.

use serve_options::script_form;

/// Returns the form of the command in the line of a script with this number, from 1.
pub(crate) fn form_in(script: &str, number: u64) -> &'static str {
    let mut before = number;
    for line in script.lines() {
        before = before.saturating_sub(1);
        if before == 0 {
            return script_form(line);
        }
    }
    script_form("")
}
