//! The commands of a script.

ghost use Rattle.std.specs.Prelude.{◌≡◌, option_and_then};
ghost use Rattle.rack_script.specs.Commands.{command_of, send_of, journal_of};
ghost use Rattle.rack_script.specs.CommandView.{command_view};

use dp_text::{Words, is_text, octet_in, only_octet_in};

/// What one line of a script asks for.
#[derive(Drop)]
pub(crate) enum Command<'a> {
    /// `line N`: chooses the rack's line of this number for the commands that follow.
    ChooseLine(u8),
    /// `m M HEX..`: sends octets as a master.
    Send {
        /// The address of the master.
        master: u8,
        /// The words of the octets, as they are in the script's line. They are checked and decoded in one pass, when
        /// the command is obeyed.
        digits: &'a [u8],
    },
    /// `journal`: writes the audit text of the line.
    WriteJournal,
    /// Any other line. It is a command if it is one of the operator's. That is read only when the command is obeyed,
    /// because an operator's command takes much space.
    Operate(&'a [u8]),
}

/// Returns the command of a script's line; None if it is none. The octets of a master, and a line that may be the
/// operator's, are not read yet.
pub(crate) fn command_in(line: &[u8]) -> Option<Command<'_>>
    ensures { option_and_then command_view result ≡ command_of line.now }
{
    let mut words = Words::new(line);
    let first = words.next()?;
    if is_text(first, b"m") {
        return send(&mut words);
    }
    if is_text(first, b"line") {
        return only_octet_in(&mut words).map(|number| Command::ChooseLine(number));
    }
    if is_text(first, b"journal") {
        return journal(&mut words);
    }
    Some(Command::Operate(line))
}

/// Returns the command `journal`; None if another word follows.
fn journal<'a>(words: &mut Words<'a>) -> Option<Command<'a>>
    ensures { option_and_then command_view result ≡ journal_of words.old }
{
    match words.next() {
        None => Some(Command::WriteJournal),
        Some(_) => None,
    }
}

/// Returns the command of a master that sends: its address, and one or more words that are not read yet. None if the
/// address or the words are missing.
fn send<'a>(words: &mut Words<'a>) -> Option<Command<'a>>
    ensures { option_and_then command_view result ≡ send_of words.old }
{
    let master = octet_in(words.next()?)?;
    let digits = words.rest()?;
    Some(Command::Send { master, digits })
}
