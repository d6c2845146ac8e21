//! Lines of standard input as texts.

ghost use Rattle.std.specs.Prelude.{◌≡◌, ◌+◌, ◌≤◌, ◌∷◌, ◌++◌, length};
ghost use Rattle.std.specs.Fmt.{decimal};
ghost use Rattle.dp_text.specs.Numbers.{number_to};
ghost use Rattle.cable_faults.specs.LineTexts.{address_of_words, count_in as count_of, kind_of_words, kind_text, line_of, line_of_words, line_text, milliseconds_of_words, milliseconds_text, order_of_words, order_text, short_kind_of};

use crate::order::{Line, Order, OrderKind};
use dp_text::{Text, Words, is_text, number_in};

/// The last address of a slave.
const LAST_ADDRESS: u32 = 126;

/// The most replies that a line may count.
const MOST_REPLIES: u32 = 1_000_000;

/// The most milliseconds for which a telegram may be late.
pub const MOST_MILLISECONDS: u32 = 60_000;

/// Returns what a line of standard input, without its LF, asks for: `off A`, `on A`, `lose A N`, `spoil A N`, `cut A N`,
/// `late A N MS` or `clear`; None for any other line.
///
/// One space separates two words. A is 0 to 126, N is 1 to 1,000,000, and MS is 0 to 60,000, in plain decimal (own).
pub fn read_line(line: &[u8]) -> Option<Line>
    ensures { result ≡ line_of line.now }
{
    let mut words = Words::new(line);
    let kind = words.next()?;
    line_in(kind, &mut words)
}

/// Returns what a line asks for, by its first word and the words after it.
fn line_in(kind: &[u8], words: &mut Words<'_>) -> Option<Line>
    ensures { result ≡ line_of_words (kind.now ∷ words.old) }
{
    if is_text(kind, b"off") {
        return only_address(words).map(|address| Line::Off(address));
    }
    if is_text(kind, b"on") {
        return only_address(words).map(|address| Line::On(address));
    }
    if is_text(kind, b"clear") {
        return match words.next() {
            None => Some(Line::Clear),
            Some(_) => None,
        };
    }
    order_in(kind, words).map(|order| Line::Faults(order))
}

/// Returns the address that is the only word.
fn only_address(words: &mut Words<'_>) -> Option<u8>
    ensures { result ≡ address_of_words words.old }
{
    let address = words.next()?;
    match words.next() {
        None => address_in(address),
        Some(_) => None,
    }
}

/// Returns the address that a word is.
fn address_in(word: &[u8]) -> Option<u8>
    ensures { result ≡ number_to 126 word.now }
{
    match number_in(word, LAST_ADDRESS) {
        Some(address) => Some(address as u8),
        None => None,
    }
}

/// Returns the number of replies that a word is.
fn count_in(word: &[u8]) -> Option<u32>
    ensures { result ≡ count_of word.now }
{
    match number_in(word, MOST_REPLIES) {
        Some(0) => None,
        Some(count) => Some(count),
        None => None,
    }
}

/// Returns the order of a line, by its first word and the words after it.
fn order_in(kind: &[u8], words: &mut Words<'_>) -> Option<Order>
    ensures { result ≡ order_of_words kind.now words.old }
{
    let slave = address_in(words.next()?)?;
    let count = count_in(words.next()?)?;
    let kind = kind_in(kind, words)?;
    Some(Order {
        kind,
        slave,
        count,
        left: count,
    })
}

/// Returns the kind of an order, by its first word and the words behind the number of replies.
fn kind_in(kind: &[u8], words: &mut Words<'_>) -> Option<OrderKind>
    ensures { result ≡ kind_of_words kind.now words.old }
{
    if is_text(kind, b"late") {
        return only_milliseconds(words).map(|milliseconds| OrderKind::Late { milliseconds });
    }
    match words.next() {
        None => short_kind_in(kind),
        Some(_) => None,
    }
}

/// Returns the milliseconds that are the only word.
fn only_milliseconds(words: &mut Words<'_>) -> Option<u32>
    ensures { result ≡ milliseconds_of_words words.old }
{
    let milliseconds = words.next()?;
    match words.next() {
        None => number_in(milliseconds, MOST_MILLISECONDS),
        Some(_) => None,
    }
}

/// Returns the kind of an order that a word is and that no number follows.
fn short_kind_in(kind: &[u8]) -> Option<OrderKind>
    ensures { result ≡ short_kind_of kind.now }
{
    if is_text(kind, b"lose") {
        return Some(OrderKind::Lose);
    }
    if is_text(kind, b"spoil") {
        return Some(OrderKind::Spoil);
    }
    if is_text(kind, b"cut") {
        return Some(OrderKind::Cut);
    }
    None
}

/// Appends the text of a line, without an LF.
pub(crate) fn push_line(text: &mut Text, line: Line)
    requires { length text.old + 40 ≤ 1800 }
    ensures text { text.new ≡ text.old ++ line_text line }
    ensures most { length text.new ≤ length text.old + 40 }
{
    match line {
        Line::Off(address) => push_word_and_octet(text, "off ", address),
        Line::On(address) => push_word_and_octet(text, "on ", address),
        Line::Faults(order) => push_order(text, order),
        Line::Clear => text.push_str("clear"),
    }
}

/// Appends a word of at most 8 octets and a number.
fn push_word_and_octet(text: &mut Text, word: &str, number: u8)
    requires room { length text.old + 11 ≤ 1800 }
    requires short { length word.now ≤ 8 }
    ensures text { text.new ≡ text.old ++ (word.now ++ decimal number) }
    ensures most { length text.new ≤ length text.old + 11 }
{
    text.push_str(word);
    text.push_octet(number);
}

/// Appends the text of an order.
fn push_order(text: &mut Text, order: Order)
    requires { length text.old + 40 ≤ 1800 }
    ensures text { text.new ≡ text.old ++ order_text order }
    ensures most { length text.new ≤ length text.old + 40 }
{
    push_word_and_octet(text, kind_word(order.kind), order.slave);
    text.push(b' ');
    text.push_number(order.count);
    push_milliseconds(text, order.kind);
}

/// Returns the first word of an order, with a space.
fn kind_word(kind: OrderKind) -> &'static str
    ensures word { result.now ≡ kind_text kind }
    ensures short { length result.now ≤ 8 }
{
    match kind {
        OrderKind::Lose => "lose ",
        OrderKind::Spoil => "spoil ",
        OrderKind::Cut => "cut ",
        OrderKind::Late { .. } => "late ",
    }
}

/// Appends the last word of an order, with a space, if it has milliseconds.
fn push_milliseconds(text: &mut Text, kind: OrderKind)
    requires { length text.old + 11 ≤ 1800 }
    ensures text { text.new ≡ text.old ++ milliseconds_text kind }
    ensures most { length text.new ≤ length text.old + 11 }
{
    match kind {
        OrderKind::Lose => {}
        OrderKind::Spoil => {}
        OrderKind::Cut => {}
        OrderKind::Late { milliseconds } => {
            text.push(b' ');
            text.push_number(milliseconds);
        }
    }
}
