//! Finds the row of a rack file that a cause is about.
//!
//! A cause names its place by the positions of the line and the slave in the file. The rows are found by the headers
//! `[[line]]` and `[[line.slave]]`. In a file that writes its tables in another form no row is found.

/// The place that a cause begins with, as rack_file and rack_file_faults write it.
#[derive(Clone, Copy)]
struct Place<'c> {
    /// The position of the line in the file, from 1; 0 for the file itself.
    line: usize,
    /// The position of the slave among those of its line, from 1; 0 for none.
    slave: usize,
    /// The key; empty for none.
    key: &'c str,
}

/// The row of a rack file that a cause is about.
#[derive(Clone, Copy)]
pub(crate) struct FoundRow<'t> {
    /// The number of the row, from 1.
    pub(crate) number: usize,
    /// The row, without the blanks around it.
    pub(crate) row: &'t str,
    /// Whether it is only the header of the table that the cause is about.
    pub(crate) is_header: bool,
    /// The address of the slave that the cause is about, as the file writes it; empty if there is none.
    pub(crate) address: &'t str,
}

/// What was read of a rack file.
#[derive(Clone, Copy)]
struct Reading<'t> {
    /// The position of the line whose rows are read, from 1; 0 before the first line.
    line: usize,
    /// The position of the slave whose rows are read, from 1; 0 before the first slave of the line.
    slave: usize,
    found: Option<FoundRow<'t>>,
    address: &'t str,
}

/// Returns the row of a rack text that a cause is about: the row with the number that the cause begins with, or the one with its
/// key, or else the header of its table. Returns None if there is none.
pub(crate) fn found_row<'t>(text: &'t str, cause: &str) -> Option<FoundRow<'t>> {
    // A value of several rows may have one that looks like a header.
    if text.contains("\"\"\"") || text.contains("'''") {
        return None;
    }
    match numbered_row(cause) {
        Some(number) => row_numbered(text, number),
        None => row_of(text, place_in(cause)?),
    }
}

/// Returns the number of the row that a cause begins with.
fn numbered_row(cause: &str) -> Option<usize> {
    let (number, _) = cause.strip_prefix("row ")?.split_once(':')?;
    number.parse().ok()
}

/// Returns the row with this number, from 1.
fn row_numbered(text: &str, number: usize) -> Option<FoundRow<'_>> {
    let row = text.lines().nth(number.checked_sub(1)?)?;
    Some(FoundRow {
        number,
        row: row.trim(),
        is_header: false,
        address: "",
    })
}

/// Returns the place that a cause begins with.
fn place_in(cause: &str) -> Option<Place<'_>> {
    let (line, rest) = numbered(cause, "line ")?;
    let (slave, rest) = numbered(rest, "slave ")?;
    let key = match rest.strip_prefix("key \"") {
        Some(rest) => rest.split_once('"')?.0,
        None => "",
    };
    Some(Place { line, slave, key })
}

/// Returns the number behind a word at the front of a text, and what follows it; 0 and the text if the word is not there.
fn numbered<'c>(text: &'c str, word: &str) -> Option<(usize, &'c str)> {
    match text.strip_prefix(word) {
        None => Some((0, text)),
        Some(behind) => {
            let (digits, rest) = behind.split_once(ends_number)?;
            let number = digits.parse().ok()?;
            Some((number, rest.trim_start()))
        }
    }
}

/// Returns whether a sign follows the number of a line or of a slave in a cause.
fn ends_number(sign: char) -> bool {
    sign == ',' || sign == ':'
}

/// Returns the row of a rack text that is in this place.
fn row_of<'t>(text: &'t str, place: Place<'_>) -> Option<FoundRow<'t>> {
    let mut reading = Reading {
        line: 0,
        slave: 0,
        found: None,
        address: "",
    };
    for (before, row) in text.lines().enumerate() {
        read_row(&mut reading, &place, before + 1, row.trim());
    }
    let found = reading.found?;
    Some(FoundRow {
        address: reading.address,
        ..found
    })
}

/// Reads one more row of a rack text.
fn read_row<'t>(reading: &mut Reading<'t>, place: &Place<'_>, number: usize, row: &'t str) {
    if let Some(header) = row.strip_prefix("[[") {
        match header.split_once(']') {
            Some((name, _)) => begin_table(reading, name.trim()),
            None => return,
        }
        if is_inside(reading, place) {
            reading.found = Some(FoundRow {
                number,
                row,
                is_header: true,
                address: "",
            });
        }
    } else if is_inside(reading, place) {
        read_key(reading, place, number, row);
    }
}

/// Begins the table with this name.
fn begin_table(reading: &mut Reading<'_>, name: &str) {
    if name == "line" {
        reading.line = reading.line.saturating_add(1);
        reading.slave = 0;
    } else if name == "line.slave" {
        reading.slave = reading.slave.saturating_add(1);
    }
}

/// Returns whether the rows that are read are those of the table of a place.
fn is_inside(reading: &Reading<'_>, place: &Place<'_>) -> bool {
    reading.line == place.line && reading.slave == place.slave
}

/// Reads a row with a key in the table of the place.
fn read_key<'t>(reading: &mut Reading<'t>, place: &Place<'_>, number: usize, row: &'t str) {
    let Some((key, value)) = row.split_once('=') else {
        return;
    };
    let key = key.trim();
    if key == "address" && place.slave > 0 {
        reading.address = value_in(value);
    }
    if key == place.key {
        reading.found = Some(FoundRow {
            number,
            row,
            is_header: false,
            address: "",
        });
    }
}

/// Returns a value without the comment behind it.
fn value_in(value: &str) -> &str {
    match value.split_once('#') {
        Some((value, _)) => value.trim(),
        None => value.trim(),
    }
}
