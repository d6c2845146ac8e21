//! Encodes frames into octets.

ghost use Rattle.std.specs.Prelude.{◌≡◌, ◌+◌, ◌≤◌, ◌++◌, [], length};
ghost use Rattle.dp_telegram.specs.declared.frame.Frame.TheVariants as frames;
ghost use Rattle.dp_telegram.specs.FrameText.{Spells, text_of, checked, body_of, reading_of};
ghost use Rattle.dp_telegram.specs.Encoding.{head_text};
ghost use Rattle.dp_telegram.specs.Replies.{reply_telegram};

use crate::access::push_point;
use crate::delimiter::{ED, SC, SD1, SD2, SD4, check_sum};
use crate::frame::{Frame, Octets, Telegram};
use arrayvec::ArrayVec;

/// Returns the text of a frame, at most 255 octets: SD1 for a telegram without a data unit, SD2 for
/// one with a data unit. It never fails.
pub fn encode(frame: &Frame) -> Octets
    ensures text { result.items ≡ text_of frame.now }
    ensures spells { Spells result.items frame.now }
    ensures reads_back { reading_of result.items ≡ Ok frame.now }
{
    let mut text = ArrayVec::new();
    match frame {
        Frame::Token { da, sa } => {
            text.push(SD4);
            text.push(*da);
            text.push(*sa);
        }
        Frame::Ack => text.push(SC),
        Frame::Telegram(telegram) => {
            push_head(&mut text, telegram.du.len());
            push_checked(&mut text, telegram);
        }
    }
    text
}

/// Replaces `text` with the short acknowledgement.
///
/// It does what [`encode`] does, without the copy of the text, 264 bytes.
pub fn acknowledge_into(text: &mut Octets)
    ensures { text.new.items ≡ text_of frames.Ack }
{
    text.clear();
    text.push(SC);
}

impl Telegram {
    /// Replaces `text` with the text of the telegram. See [`acknowledge_into`].
    pub fn encode_into(&self, text: &mut Octets)
        ensures { text.new.items ≡ text_of (frames.Telegram self.now) }
    {
        text.clear();
        push_head(text, self.du.len());
        push_checked(text, self);
    }
}

/// A reply with data that is not written yet. Nothing of it is copied (IEC 61158-4-3, response
/// telegrams).
#[derive(Clone, Copy, Debug)]
pub struct DataReply<'a> {
    /// Destination address octet.
    pub da: u8,
    /// Source address octet.
    pub sa: u8,
    /// Function code.
    pub fc: u8,
    /// The source point, if there is one: the first octet of the data unit.
    pub ssap: Option<u8>,
    /// The destination point, if there is one: it follows the source point.
    pub dsap: Option<u8>,
    /// The octets after the points. Points and octets are at most 246 together.
    pub data: &'a [u8],
}

impl DataReply<'_> {
    /// Replaces `text` with the telegram of this reply.
    pub fn encode_into(&self, text: &mut Octets)
        requires { length (reply_telegram self.now).du.items ≤ 246 }
        ensures { text.new.items ≡ text_of (frames.Telegram (reply_telegram self.now)) }
    {
        text.clear();
        push_head(text, self.length());
        push_reply(text, self);
    }

    /// Returns the number of octets of its data unit.
    fn length(&self) -> usize
        ensures { result ≡ length (reply_telegram self.now).du.items }
    {
        usize::from(self.ssap.is_some()) + usize::from(self.dsap.is_some()) + self.data.len()
    }
}

/// Writes the octets before DA: SD1 if there is no data unit, else SD2, the length twice and SD2
/// again.
fn push_head(text: &mut Octets, data_length: usize)
    requires empty { text.old.items ≡ [] }
    requires most { data_length ≤ 246 }
    ensures { text.new.items ≡ head_text data_length }
{
    if data_length == 0 {
        text.push(SD1);
    } else {
        let le = (data_length + 3) as u8;
        text.try_extend_from_slice(&[SD2, le, le, SD2]).unwrap();
    }
}

/// Appends DA to the end of the data unit, the check sequence and the end delimiter.
fn push_checked(text: &mut Octets, telegram: &Telegram)
    requires { length text.old.items ≤ 4 }
    ensures { text.new.items ≡ text.old.items ++ checked (body_of telegram.now) }
{
    let head = text.len();
    text.push(telegram.da);
    text.push(telegram.sa);
    text.push(telegram.fc);
    text.try_extend_from_slice(&telegram.du).unwrap();
    let check_sequence = check_sum(&text[head..]);
    text.push(check_sequence);
    text.push(ED);
}

/// Appends the octets of a reply from DA to the end delimiter. See [`push_checked`].
fn push_reply(text: &mut Octets, reply: &DataReply<'_>)
    requires head { length text.old.items ≤ 4 }
    requires most { length (reply_telegram reply.now).du.items ≤ 246 }
    ensures { text.new.items ≡ text.old.items ++ checked (body_of (reply_telegram reply.now)) }
{
    let head = text.len();
    text.push(reply.da);
    text.push(reply.sa);
    text.push(reply.fc);
    push_point(text, reply.ssap);
    push_point(text, reply.dsap);
    text.try_extend_from_slice(reply.data).unwrap();
    let check_sequence = check_sum(&text[head..]);
    text.push(check_sequence);
    text.push(ED);
}
