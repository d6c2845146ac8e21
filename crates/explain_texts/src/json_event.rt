//! An event as an object of JSON.

use crate::json_field::{
    Field, Fields, Value, number_or_null, octet_or_null, truth, with, word, word_or_null,
};
use crate::json_names::{frame_name, service_name};
use crate::json_text::JsonText;
use dp_line::{Event, Op};
use dp_telegram::{ADDRESS_BITS, FrameLent, PartsLent, TelegramLent};
use explain_events::{EventKind, ReadEvent, ReadOctets};
use explain_octets::Contents;

/// The number of columns of the label of data in words.
pub(crate) const LABEL_COLUMNS: usize = 12;

/// FCB and FCV in FC (IEC 61158-4-3, function code of a request).
const FCB: u8 = 0x20;

const FCV: u8 = 0x10;

/// The bits of FC that name the function.
const FUNCTION: u8 = 0x0F;

impl JsonText {
    /// Appends a field with an event.
    pub(crate) fn event(&mut self, event: &ReadEvent<'_>) {
        self.open("event");
        match event.event() {
            Event::Request { .. } => self.request(event.request()),
            Event::Operator(op) => self.operation(op),
        }
        self.words("words", &EventKind(event));
        self.close();
    }

    /// Appends the fields of a request.
    fn request(&mut self, request: &ReadOctets<'_>) {
        self.one(word("kind", "request"));
        self.fields(&frame_fields(request));
        match request.frame() {
            Some(FrameLent::Telegram(telegram)) => self.telegram(&telegram),
            Some(FrameLent::Token { .. }) => self.no_telegram(),
            Some(FrameLent::Ack) => self.no_telegram(),
            None => self.no_telegram(),
        }
        self.hex("octets", request.octets());
        self.decoded(request);
    }

    /// Appends the fields of the function and of the access points of a telegram.
    fn telegram(&mut self, telegram: &TelegramLent<'_>) {
        self.fields(&function_fields(telegram));
        match telegram.parts() {
            Some(parts) => {
                self.fields(&point_fields(telegram, &parts));
                self.hex("data", parts.payload());
            }
            None => self.no_parts(),
        }
    }

    /// Appends the fields of the function and of the access points of what is no telegram.
    fn no_telegram(&mut self) {
        self.null("function");
        self.null("fcb");
        self.null("fcv");
        self.no_parts();
    }

    /// Appends the fields of access points that cannot be read.
    fn no_parts(&mut self) {
        self.null("dsap");
        self.null("ssap");
        self.null("service");
        self.null("data");
    }

    /// Appends a field with the meaning of the data of a request, in words; `null` if there are none.
    fn decoded(&mut self, request: &ReadOctets<'_>) {
        match Contents::from_octets(request) {
            Some(contents) => {
                self.open("decoded");
                self.first_word("as", &contents);
                self.words_behind("words", LABEL_COLUMNS, &contents);
                self.close();
            }
            None => self.null("decoded"),
        }
    }

    /// Appends the fields of an event of the operator.
    fn operation(&mut self, op: &Op) {
        match op {
            Op::Input { octets, .. } => {
                self.one(word("kind", "in"));
                self.hex("octets", octets.as_slice());
            }
            Op::Diag {
                ext,
                stat,
                overflow,
                octets,
                ..
            } => {
                self.fields(&flag_fields(*ext, *stat, *overflow));
                self.hex("octets", octets.as_slice());
            }
            Op::Busy { point, on, .. } => self.fields(&busy_fields(*point, *on)),
            Op::Tick(units) => self.fields(&tick_fields(*units)),
            Op::Halt => self.one(word("kind", "halt")),
        }
    }
}

/// Returns the format of a frame and its addresses.
fn frame_fields(request: &ReadOctets<'_>) -> Fields {
    match request.frame() {
        Some(FrameLent::Telegram(telegram)) => [
            word_or_null("frame", frame_name(request.octets())),
            octet_or_null("da", Some(telegram.destination())),
            octet_or_null("sa", Some(telegram.source())),
            None,
            None,
        ],
        Some(FrameLent::Token { da, sa }) => [
            word_or_null("frame", frame_name(request.octets())),
            octet_or_null("da", Some(da & ADDRESS_BITS)),
            octet_or_null("sa", Some(sa & ADDRESS_BITS)),
            None,
            None,
        ],
        Some(FrameLent::Ack) => no_addresses(frame_name(request.octets())),
        None => no_addresses(None),
    }
}

fn no_addresses(frame: Option<&'static str>) -> Fields {
    [
        word_or_null("frame", frame),
        octet_or_null("da", None),
        octet_or_null("sa", None),
        None,
        None,
    ]
}

/// Returns the function of a telegram; FCB and FCV are those of a request.
fn function_fields(telegram: &TelegramLent<'_>) -> Fields {
    let fc = telegram.fc();
    let is_request = telegram.is_request();
    [
        octet_or_null("function", Some(fc & FUNCTION)),
        bit_or_null("fcb", is_request, fc & FCB != 0),
        bit_or_null("fcv", is_request, fc & FCV != 0),
        None,
        None,
    ]
}

fn bit_or_null(key: &'static str, is_there: bool, bit: bool) -> Option<Field> {
    if is_there {
        truth(key, bit)
    } else {
        with(key, Value::Null)
    }
}

fn point_fields(telegram: &TelegramLent<'_>, parts: &PartsLent<'_>) -> Fields {
    let service = if telegram.is_request() {
        service_name(telegram.function(), parts.dsap())
    } else {
        None
    };
    [
        octet_or_null("dsap", parts.dsap()),
        octet_or_null("ssap", parts.ssap()),
        word_or_null("service", service),
        None,
        None,
    ]
}

fn flag_fields(ext: bool, stat: bool, overflow: bool) -> Fields {
    [
        word("kind", "diag"),
        truth("ext_diag", ext),
        truth("stat_diag", stat),
        truth("overflow", overflow),
        None,
    ]
}

fn busy_fields(point: Option<u8>, on: bool) -> Fields {
    [
        word("kind", "busy"),
        octet_or_null("point", point),
        truth("on", on),
        None,
        None,
    ]
}

fn tick_fields(units: u32) -> Fields {
    [
        word("kind", "tick"),
        number_or_null("units", Some(u64::from(units))),
        None,
        None,
        None,
    ]
}
