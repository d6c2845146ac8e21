//! A slave as a table of a rack file.

ghost use Rattle.std.specs.Prelude.{◌≡◌, ◌+◌, ◌≤◌, ◌++◌, length};
ghost use Rattle.gsd_slaves.specs.SlaveText.{truth_row, ident_row, cfg_row, user_max_row, user_count_row, user_default_row, user_rows, left_row, left_rows, slave_text};

use dp_text::Text;
use gsd_files::{LeftOut, PluggedSlave};

/// The first rows.
const HEAD: &str = "# choose the address\n[[line.slave]]\naddress = 5\n";

/// Appends a row with a truth value, behind a key of at most 20 octets with `=`.
fn push_truth(text: &mut Text, key: &str, value: bool)
    requires room { length text.old + 30 ≤ 1800 }
    requires short { length key.now ≤ 20 }
    ensures text { text.new ≡ text.old ++ truth_row key.now value }
    ensures most { length text.new ≤ length text.old + 30 }
{
    text.push_str(key);
    if value {
        text.push_str("true\n");
    } else {
        text.push_str("false\n");
    }
}

/// Appends the row of the ident number.
fn push_ident(text: &mut Text, ident: u32)
    requires { length text.old + 20 ≤ 1800 }
    ensures text { text.new ≡ text.old ++ ident_row ident }
    ensures most { length text.new ≤ length text.old + 20 }
{
    text.push_str("ident = 0x");
    text.push_hex(&[(ident / 256 % 256) as u8, (ident % 256) as u8]);
    text.push(b'\n');
}

/// Appends the row of the configuration.
fn push_cfg(text: &mut Text, octets: &[u8])
    requires room { length text.old + 500 ≤ 1800 }
    requires octets { length octets.now ≤ 244 }
    ensures text { text.new ≡ text.old ++ cfg_row octets.now }
    ensures most { length text.new ≤ length text.old + 500 }
{
    text.push_str("cfg = \"");
    text.push_hex(octets);
    text.push_str("\"\n");
}

/// Appends the row of the largest number of octets of user parameters.
fn push_user_max(text: &mut Text, most: u32)
    requires { length text.old + 30 ≤ 1800 }
    ensures text { text.new ≡ text.old ++ user_max_row most }
    ensures most { length text.new ≤ length text.old + 30 }
{
    text.push_str("user_max = ");
    text.push_number(most);
    text.push(b'\n');
}

/// Appends a comment with the number of default octets of the user parameters.
fn push_user_count(text: &mut Text, count: u32)
    requires { length text.old + 80 ≤ 1800 }
    ensures text { text.new ≡ text.old ++ user_count_row count }
    ensures most { length text.new ≤ length text.old + 80 }
{
    text.push_str("# user parameters of a master: ");
    text.push_number(count);
    text.push_str(" octets, by default\n");
}

/// Appends a comment with the default octets of the user parameters.
fn push_user_default(text: &mut Text, octets: &[u8])
    requires room { length text.old + 500 ≤ 1800 }
    requires octets { length octets.now ≤ 237 }
    ensures text { text.new ≡ text.old ++ user_default_row octets.now }
    ensures most { length text.new ≤ length text.old + 500 }
{
    text.push_str("# user_default = \"");
    text.push_hex(octets);
    text.push_str("\"\n");
}

/// Appends comments with the default octets of the user parameters and their number, if there are any.
fn push_user(text: &mut Text, octets: &[u8])
    requires room { length text.old + 580 ≤ 1800 }
    requires octets { length octets.now ≤ 237 }
    ensures text { text.new ≡ text.old ++ user_rows octets.now }
    ensures most { length text.new ≤ length text.old + 580 }
{
    match octets {
        [] => {}
        [_octet, ..] => {
            push_user_count(text, octets.len() as u32);
            push_user_default(text, octets);
        }
    }
}

/// Appends a comment of at most 60 octets, if rows of its kind were read over.
#[tactic(auto, unfolding(crate::specs::SlaveText::left_row))]
fn push_left(text: &mut Text, comment: &str, is_left: bool)
    requires room { length text.old + 60 ≤ 1800 }
    requires short { length comment.now ≤ 60 }
    ensures text { text.new ≡ text.old ++ left_row comment.now is_left }
    ensures most { length text.new ≤ length text.old + 60 }
{
    if is_left {
        text.push_str(comment);
    }
}

/// Appends a comment for each kind of rows that were read over.
fn push_all_left(text: &mut Text, left: LeftOut)
    requires { length text.old + 180 ≤ 1800 }
    ensures { text.new ≡ text.old ++ left_rows left }
{
    push_left(
        text,
        "# left out: names, ranges and texts of parameters\n",
        left.parameters,
    );
    push_left(
        text,
        "# left out: the diagnosis and its texts\n",
        left.diagnosis,
    );
    push_left(text, "# left out: other keys\n", left.others);
}

/// Returns the table `[[line.slave]]` of a slave, with an address to choose. Comments give the default octets of the user
/// parameters, and name what is left out.
pub(crate) fn slave_text(slave: &PluggedSlave) -> Text
    ensures { result ≡ slave_text slave.now }
{
    let mut text = Text::new();
    text.push_str(HEAD);
    push_ident(&mut text, slave.ident);
    push_cfg(&mut text, slave.octets.as_slice());
    push_truth(&mut text, "sync = ", slave.sync);
    push_truth(&mut text, "freeze = ", slave.freeze);
    push_user_max(&mut text, slave.user_max);
    push_truth(&mut text, "failsafe = ", slave.failsafe);
    push_user(&mut text, slave.user.as_slice());
    push_all_left(&mut text, slave.left);
    text
}
