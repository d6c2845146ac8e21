//! Whether a slave can remember what it remembers of masters.

ghost use Rattle.std.specs.Prelude.{◌≡◌, map, Some};
ghost use Rattle.std.specs.List.{list_all};
ghost use Rattle.dp_cfg.specs.Choosing.{same_octets};
ghost use Rattle.dp_line.specs.RememberedReplies.{has_data_from, has_data_function, has_data_parts, has_no_data, is_data_reply, is_memory_of, is_remembered, is_reply_of, is_reply_telegram, is_short_reply};

use dp_responder::MasterEntry;
use dp_sap::{GET_CFG, MOST_DATA, RD_INP, RD_OUTP, SLAVE_DIAG};
use dp_slave::Slave;
use dp_telegram::function_code::{DH, DL, RR, RS, UE};
use dp_telegram::{Frame, Parts, Telegram, decode};

/// The start delimiter of a telegram with eight octets of data, which no slave writes (IEC 61158-4-3, delimiters).
const SD3: u8 = 0xA2;

/// The octets of a diagnosis before its extended ones (IEC 61158-6-3, Slave_Diag response).
const LEAST_DIAGNOSIS: usize = 6;

/// Returns whether the slave can remember these entries on a line with these masters: the entries are of the masters,
/// in their order, and what it remembers of each is a reply that it can have sent to this master.
pub(crate) fn is_memory_of(masters: &[u8], slave: &Slave, entries: &[MasterEntry]) -> bool
    ensures { result ≡ is_memory_of masters.now slave.now.slave.description entries.now }
{
    are_of(entries, masters) && all_remembered(slave, entries)
}

/// Returns whether the entries are of these masters, in their order.
fn are_of(entries: &[MasterEntry], masters: &[u8]) -> bool
    ensures { result ≡ same_octets (map (λ m. m.master) entries.now) masters.now }
{
    match entries {
        [] => masters.is_empty(),
        [entry, others @ ..] => match masters {
            [] => false,
            [master, rest @ ..] => entry.master == *master && are_of(others, rest),
        },
    }
}

/// Returns whether the slave can remember each of the entries.
fn all_remembered(slave: &Slave, entries: &[MasterEntry]) -> bool
    ensures { result ≡ list_all (is_remembered slave.now.slave.description) entries.now }
{
    entries.iter().all(|entry| is_remembered(slave, entry))
}

/// Returns whether the entry has no reply, or one that the slave can have sent to its master.
fn is_remembered(slave: &Slave, entry: &MasterEntry) -> bool
    ensures { result ≡ is_remembered slave.now.slave.description entry.now }
{
    match &entry.last {
        Some(last) => is_reply_of(entry.master, slave, &last.reply),
        None => true,
    }
}

/// Returns whether the slave can have sent these octets to the master as a reply to an SRD: the short acknowledgement, or
/// a telegram to the master.
fn is_reply_of(master: u8, slave: &Slave, octets: &[u8]) -> bool
    ensures { result ≡ is_reply_of master slave.now.slave.description octets.now }
{
    if octets.first() == Some(&SD3) {
        return false;
    }
    match decode(octets) {
        Ok(Frame::Ack) => true,
        Ok(Frame::Telegram(telegram)) => is_reply_telegram(master, slave, &telegram),
        Ok(Frame::Token { .. }) => false,
        Err(_) => false,
    }
}

/// Returns whether the telegram is one of the slave to the master, without data unit or with points and data.
fn is_reply_telegram(master: u8, slave: &Slave, telegram: &Telegram) -> bool
    ensures { result ≡ is_reply_telegram master slave.now.slave.description telegram.now }
{
    if telegram.du.is_empty() {
        is_short_reply(master, slave, telegram)
    } else {
        is_data_reply(master, slave, telegram)
    }
}

/// Returns whether the telegram is one of the slave to the master with a function of a reply without data.
fn is_short_reply(master: u8, slave: &Slave, telegram: &Telegram) -> bool
    ensures { result ≡ is_short_reply master slave.now.slave.description telegram.now }
{
    telegram.da == master && telegram.sa == slave.address() && has_no_data(slave, telegram.fc)
}

/// Returns whether the slave can have sent a reply without data with this function.
fn has_no_data(slave: &Slave, fc: u8) -> bool
    ensures { result ≡ has_no_data slave.now.slave.description fc }
{
    fc == UE || fc == RR || fc == RS || fc == DH && slave.has_inputs(0)
}

/// Returns whether the telegram is one of the slave to the master with points and data of a reply.
fn is_data_reply(master: u8, slave: &Slave, telegram: &Telegram) -> bool
    ensures { result ≡ is_data_reply master slave.now.slave.description telegram.now }
{
    telegram.destination() == master
        && telegram.source() == slave.address()
        && has_data_parts(slave, telegram.fc, telegram.parts())
}

/// Returns whether these are points and data of a reply of the slave with this function.
fn has_data_parts(slave: &Slave, fc: u8, parts: Option<Parts>) -> bool
    ensures { result ≡ has_data_parts slave.now.slave.description fc parts }
{
    match parts {
        Some(parts) => {
            has_data_function(fc, parts.ssap)
                && parts.payload.len() >= 1
                && parts.payload.len() <= MOST_DATA
                && has_data_from(slave, parts.ssap, parts.payload.as_slice())
        }
        None => false,
    }
}

/// Returns whether a reply with data from this point can have this function.
fn has_data_function(fc: u8, point: Option<u8>) -> bool
    ensures { result ≡ has_data_function fc point }
{
    fc == DL || fc == DH && point.is_none()
}

/// Returns whether these can be the data of a reply of the slave from this point.
fn has_data_from(slave: &Slave, point: Option<u8>, octets: &[u8]) -> bool
    ensures { result ≡ has_data_from slave.now.slave.description point octets.now }
{
    match point {
        None => slave.has_inputs(octets.len()),
        Some(number) => has_data_at(slave, number, octets),
    }
}

/// Returns whether these can be the data of a reply of the slave from the point of this number.
fn has_data_at(slave: &Slave, number: u8, octets: &[u8]) -> bool
    ensures { result ≡ has_data_from slave.now.slave.description (Some number) octets.now }
{
    match number {
        RD_INP => slave.has_inputs(octets.len()),
        RD_OUTP => slave.has_outputs(octets.len()),
        GET_CFG => slave.has_configuration(octets),
        SLAVE_DIAG => octets.len() >= LEAST_DIAGNOSIS,
        _ => false,
    }
}
