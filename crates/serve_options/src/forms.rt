//! The form of each command of scripts and operators, for whoever wrote another line.

/// The commands of an operator, which scripts have too: the first word, and the form of each line that begins with it.
const OPERATOR: [(&str, &str); 8] = [
    (
        "in",
        "in A HEX: A is an address, HEX is at most 244 octets, or -",
    ),
    (
        "diag",
        "diag A FLAGS HEX: A is an address, FLAGS are those set of eso, or -, HEX is at most 238 octets, or -",
    ),
    (
        "busy",
        "busy A POINT on, or off: A is an address, POINT is default, or 0 to 255",
    ),
    ("tick", "tick N: N is a number of 10 ms, 0 to 4294967295"),
    ("halt", "halt: no word follows"),
    ("step", "step: no word follows"),
    ("owned", "owned M: M is an address"),
    ("show", "show A: A is an address"),
];

/// The commands that only scripts have.
const SCRIPT: [(&str, &str); 3] = [
    (
        "m",
        "m M HEX..: M is a master of the line, HEX is octets as pairs of hex digits",
    ),
    ("line", "line N: N is the number of a line of the rack"),
    ("journal", "journal: no word follows"),
];

/// What is reported of a line whose first word begins no command.
const NO_COMMAND: &str = "no such command; 'rackd run --help' lists them";

/// Returns the form of the command of an operator that the first word of a line names.
pub fn operator_form(line: &str) -> &'static str {
    form_in(&OPERATOR, line).unwrap_or(NO_COMMAND)
}

/// Returns the form of the command of a script that the first word of a line names.
pub fn script_form(line: &str) -> &'static str {
    match form_in(&SCRIPT, line) {
        Some(form) => form,
        None => operator_form(line),
    }
}

/// Returns the form of the command, among these, that the first word of a line names.
fn form_in(forms: &[(&'static str, &'static str)], line: &str) -> Option<&'static str> {
    let (first, _) = line.split_once(' ').unwrap_or((line, ""));
    for (word, form) in forms {
        if *word == first {
            return Some(*form);
        }
    }
    None
}
