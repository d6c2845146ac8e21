//! The contents of a telegram, in rows.

ghost use Rattle.std.specs.Prelude.{Some};
ghost use Rattle.explain_octets.specs.Replies.{reply_text};
ghost use Rattle.explain_events.specs.TelegramRows.{row_where, sent_row, unread_row};

use explain_octets::{Contents, Hex, ReadOctets, Reply};
use std::fmt;

/// The row that shows the data of a request; writes nothing if there are none.
#[derive(Clone, Copy)]
struct ContentsRow<'a>(&'a ReadOctets<'a>);

impl<'a> fmt::Display for ContentsRow<'a> {
    ghost use Rattle.explain_octets.specs.Contents.{contents_text};

    ghost output = { λ row. Some (row_where (contents_text row.0.now)) };

    fn fmt<W: fmt::Write>(&self, f: &mut fmt::Formatter<W>) -> fmt::Result {
        match Contents::from_octets(self.0) {
            Some(contents) => write!(f, "       {contents}\n"),
            None => Ok(()),
        }
    }
}

/// The row that shows octets that are no frame; writes nothing if there are none.
#[derive(Clone, Copy)]
struct UnreadRow<'a>(&'a [u8]);

impl<'a> fmt::Display for UnreadRow<'a> {
    ghost output = { λ row. Some (unread_row row.0.now) };

    fn fmt<W: fmt::Write>(&self, f: &mut fmt::Formatter<W>) -> fmt::Result {
        match self.0 {
            [] => Ok(()),
            [_, ..] => {
                let octets = Hex(self.0);
                write!(f, "       octets      {octets}\n")
            }
        }
    }
}

/// The row that shows the octets of a request: the data of a frame, or all octets if they are no frame.
#[derive(Clone, Copy)]
pub(crate) struct SentRow<'a>(pub(crate) &'a ReadOctets<'a>);

impl<'a> fmt::Display for SentRow<'a> {
    ghost output = { λ row. Some (sent_row row.0.now) };

    fn fmt<W: fmt::Write>(&self, f: &mut fmt::Formatter<W>) -> fmt::Result {
        match self.0.frame() {
            Some(_) => {
                let row = ContentsRow(self.0);
                write!(f, "{row}")
            }
            None => {
                let row = UnreadRow(self.0.octets());
                write!(f, "{row}")
            }
        }
    }
}

/// The row that shows the reply to a request; writes nothing if the octets are no reply.
#[derive(Clone, Copy)]
pub(crate) struct ReplyRow<'a> {
    pub(crate) request: &'a ReadOctets<'a>,
    pub(crate) reply: &'a [u8],
    /// Whether the slave judges the request only after its reply.
    pub(crate) is_judged_afterwards: bool,
}

impl<'a> fmt::Display for ReplyRow<'a> {
    ghost output = { λ row. Some (row_where (reply_text row.is_judged_afterwards row.request.now row.reply.now)) };

    fn fmt<W: fmt::Write>(&self, f: &mut fmt::Formatter<W>) -> fmt::Result {
        let reply = ReadOctets::new(self.reply);
        match Reply::from_octets(self.request, &reply, self.is_judged_afterwards) {
            Some(reply) => write!(f, "       {reply}\n"),
            None => Ok(()),
        }
    }
}
