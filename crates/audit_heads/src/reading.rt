//! Reading the rows of a head: what the words of a row say.

ghost use Rattle.std.specs.Prelude.{◌≡◌, ◌≤◌, length};
ghost use Rattle.dp_text.specs.Words.{words_of};
ghost use Rattle.audit_heads.specs.SlaveRows.{data_in as data_said, data_of_row, diag_in as diag_said, diag_of, diag_of_row, last_in as last_said, last_of_row, prm_in as prm_said, prm_of, prm_of_row, settings_in as settings_said, settings_of_row, hold_state_in as hold_state_said, hold_state_of_row};
ghost use Rattle.audit_heads.specs.Head.{place_in as place_said, place_of_row, running_in as running_said, running_of_row};

use crate::field_words::{
    bit_in, busy_in, halted_in, is_letter, octet_or_none_in, octets_word_in, state_in, three_in,
    time_or_none_in, time_or_off_in, two_in,
};
use crate::running::Running;
use crate::writing::{
    set_data, set_diag, set_header, set_hold_state, set_last, set_prm, set_running, set_settings,
};
use arrayvec::ArrayVec;
use dp_diag::{Diag, MOST_EXTENDED};
use dp_prm::Prm;
use dp_responder::Last;
use dp_slave::{DataPair, HoldState, Settings};
use dp_text::{Text, Words, is_text, number_in, octet_in};

/// Returns the place that the words of a header name.
fn place_in(row: &[u8]) -> Option<u32>
    ensures { result ≡ place_said (words_of row.now) }
{
    let mut words = Words::new(row);
    words.next()?;
    words.next()?;
    words.next()?;
    words.next()?;
    words.next()?;
    let place = words.next()?;
    if words.next().is_some() {
        return None;
    }
    number_in(place, u32::MAX)
}

/// Returns the place that the header of a part of the line of this number names, or None if the row is no such
/// header. `text` is a buffer.
pub fn place_in_row(number: u8, row: &[u8], text: &mut Text) -> Option<u32>
    ensures { result ≡ place_of_row number row.now }
{
    let place = place_in(row)?;
    set_header(text, number, place);
    if is_text(row, text.as_bytes()) {
        Some(place)
    } else {
        None
    }
}

fn running_in(row: &[u8]) -> Option<Running>
    ensures { result ≡ running_said (words_of row.now) }
{
    let mut words = Words::new(row);
    words.next()?;
    let halted = words.next()?;
    let time = words.next()?;
    if words.next().is_some() {
        return None;
    }
    Some(Running {
        halted: halted_in(halted)?,
        time: time_or_none_in(time)?,
    })
}

/// Returns what the row of the line says, or None if the row is not `line running TIME` or `line halted TIME`, exactly
/// as [`crate::set_running`] writes it. `text` is a buffer.
pub fn running_in_row(row: &[u8], text: &mut Text) -> Option<Running>
    ensures { result ≡ running_of_row row.now }
{
    let running = running_in(row)?;
    set_running(text, running);
    if is_text(row, text.as_bytes()) {
        Some(running)
    } else {
        None
    }
}

fn hold_state_in(row: &[u8]) -> Option<HoldState>
    ensures { result ≡ hold_state_said (words_of row.now) }
{
    let mut words = Words::new(row);
    words.next()?;
    words.next()?;
    let state = words.next()?;
    let holder = words.next()?;
    let since = words.next()?;
    let left = words.next()?;
    let busy = words.next()?;
    if words.next().is_some() {
        return None;
    }
    Some(HoldState {
        state: state_in(state)?,
        holder: octet_or_none_in(holder)?,
        since: number_in(since, u32::MAX)?,
        left: time_or_off_in(left)?,
        busy: busy_in(busy)?,
    })
}

/// Returns the state and the hold of the slave of this address, 0 to 255, or None if the row is not the one that
/// [`crate::set_hold_state`] writes for it. `text` is a buffer.
pub fn hold_state_in_row(address: u8, row: &[u8], text: &mut Text) -> Option<HoldState>
    ensures { result ≡ hold_state_of_row address row.now }
{
    let hold_state = hold_state_in(row)?;
    set_hold_state(text, address, &hold_state);
    if is_text(row, text.as_bytes()) {
        Some(hold_state)
    } else {
        None
    }
}

fn settings_in(row: &[u8]) -> Option<Settings>
    ensures { result ≡ settings_said (words_of row.now) }
{
    let mut words = Words::new(row);
    words.next()?;
    words.next()?;
    let min_tsdr = words.next()?;
    let cfg = words.next()?;
    let shape = words.next()?;
    let modes = words.next()?;
    if words.next().is_some() {
        return None;
    }
    let min_tsdr = octet_in(min_tsdr)?;
    let cfg = octet_or_none_in(cfg)?;
    let shape = octet_in(shape)?;
    let (sync_mode, freeze_mode, cleared) = three_in(modes)?;
    Some(Settings {
        min_tsdr,
        cfg,
        shape,
        sync_mode,
        freeze_mode,
        cleared,
    })
}

/// Returns the settings of the slave of this address, 0 to 255, or None if the row is not the one that
/// [`crate::set_settings`] writes for them. `text` is a buffer.
pub fn settings_in_row(address: u8, row: &[u8], text: &mut Text) -> Option<Settings>
    ensures { result ≡ settings_of_row address row.now }
{
    let settings = settings_in(row)?;
    set_settings(text, address, settings);
    if is_text(row, text.as_bytes()) {
        Some(settings)
    } else {
        None
    }
}

fn data_in(row: &[u8]) -> Option<DataPair>
    ensures { result ≡ data_said (words_of row.now) }
{
    let mut words = Words::new(row);
    words.next()?;
    words.next()?;
    let first = words.next()?;
    let second = words.next()?;
    if words.next().is_some() {
        return None;
    }
    Some(DataPair {
        first: octets_word_in(first)?,
        second: octets_word_in(second)?,
    })
}

/// Returns the inputs (`key` is `in`) or the outputs (`out`) of the slave of this address, 0 to 255, or None if the row
/// is not the one that [`crate::set_data`] writes for them. `key` has at most 3 octets. `text` is a buffer.
pub fn data_in_row(key: &str, address: u8, row: &[u8], text: &mut Text) -> Option<DataPair>
    requires { length key.now ≤ 3 }
    ensures { result ≡ data_of_row key.now address row.now }
{
    let pair = data_in(row)?;
    set_data(text, key, address, &pair);
    if is_text(row, text.as_bytes()) {
        Some(pair)
    } else {
        None
    }
}

fn diag_in(row: &[u8]) -> Option<Diag>
    ensures { result ≡ diag_said (words_of row.now) }
{
    let mut words = Words::new(row);
    words.next()?;
    words.next()?;
    let flags = words.next()?;
    let octets = words.next()?;
    if words.next().is_some() {
        return None;
    }
    diag_with(flags, octets_word_in(octets)?)
}

/// Returns a diagnosis with these flags and octets, or None for a word that does not have seven octets.
fn diag_with(flags: &[u8], octets: ArrayVec<u8, MOST_EXTENDED>) -> Option<Diag>
    ensures { result ≡ diag_of flags.now octets.items }
{
    match flags {
        [e, s, o, u, p, c, n] => Some(Diag {
            ext: is_letter(*e),
            stat: is_letter(*s),
            overflow: is_letter(*o),
            octets,
            unread: is_letter(*u),
            prm_fault: is_letter(*p),
            cfg_fault: is_letter(*c),
            not_supported: is_letter(*n),
        }),
        _ => None,
    }
}

/// Returns the diagnosis of the slave of this address, 0 to 255, or None if the row is not the one that
/// [`crate::set_diag`] writes for it. `text` is a buffer.
pub fn diag_in_row(address: u8, row: &[u8], text: &mut Text) -> Option<Diag>
    ensures { result ≡ diag_of_row address row.now }
{
    let diag = diag_in(row)?;
    set_diag(text, address, &diag);
    if is_text(row, text.as_bytes()) {
        Some(diag)
    } else {
        None
    }
}

fn prm_in(row: &[u8]) -> Option<Option<Prm>>
    ensures { result ≡ prm_said (words_of row.now) }
{
    let mut words = Words::new(row);
    words.next()?;
    words.next()?;
    let first = words.next()?;
    match words.next() {
        None => Some(None),
        Some(reqs) => Some(Some(prm_with(first, reqs, &mut words)?)),
    }
}

/// Returns the parameters of these words and those that are left.
fn prm_with(watchdog: &[u8], reqs: &[u8], words: &mut Words<'_>) -> Option<Prm>
    ensures { result ≡ prm_of watchdog.now reqs.now words.old }
{
    let min_tsdr = words.next()?;
    let group = words.next()?;
    let user = words.next()?;
    if words.next().is_some() {
        return None;
    }
    let watchdog = time_or_off_in(watchdog)?;
    let (sync_req, freeze_req) = two_in(reqs)?;
    Some(Prm {
        watchdog,
        sync_req,
        freeze_req,
        min_tsdr: octet_in(min_tsdr)?,
        group: octet_in(group)?,
        user: octets_word_in(user)?,
    })
}

/// Returns the parameters of the slave of this address, 0 to 255, `Some(None)` if it has none, or None if the row is not
/// the one that [`crate::set_prm`] writes for them. `text` is a buffer.
pub fn prm_in_row(address: u8, row: &[u8], text: &mut Text) -> Option<Option<Prm>>
    ensures { result ≡ prm_of_row address row.now }
{
    let prm = prm_in(row)?;
    set_prm(text, address, &prm);
    if is_text(row, text.as_bytes()) {
        Some(prm)
    } else {
        None
    }
}

fn last_in(row: &[u8]) -> Option<Option<Last>>
    ensures { result ≡ last_said (words_of row.now) }
{
    let mut words = Words::new(row);
    words.next()?;
    words.next()?;
    words.next()?;
    let fcb = words.next()?;
    let Some(reply) = words.next() else {
        return Some(None);
    };
    if words.next().is_some() {
        return None;
    }
    Some(Some(Last {
        fcb: bit_in(fcb)?,
        reply: octets_word_in(reply)?,
    }))
}

/// Returns what the slave of this address, 0 to 255, remembers of this master, `Some(None)` if nothing, or None if the
/// row is not the one that [`crate::set_last`] writes for it. `text` is a buffer.
pub fn last_in_row(address: u8, master: u8, row: &[u8], text: &mut Text) -> Option<Option<Last>>
    ensures { result ≡ last_of_row address master row.now }
{
    let last = last_in(row)?;
    set_last(text, address, master, &last);
    if is_text(row, text.as_bytes()) {
        Some(last)
    } else {
        None
    }
}
