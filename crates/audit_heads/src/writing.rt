//! Writing the rows of a head, each without its LF.

ghost use Rattle.std.specs.Prelude.{◌≡◌, ◌+◌, ◌≤◌, ◌++◌, codes, length};
ghost use Rattle.std.specs.Fmt.{decimal};
ghost use Rattle.dp_text.specs.declared.text.TheConstants.{LONGEST};
ghost use Rattle.dp_sap.specs.Names.{state_name};
ghost use Rattle.audit_heads.specs.FieldWords.{none_word, off_word, optional_word};
ghost use Rattle.audit_heads.specs.Rows.{spaced};
ghost use Rattle.audit_heads.specs.SlaveRows.{busy_word, data_words, diag_word, diag_words, last_words, modes_word, prm_values, prm_words, reqs_word, settings_words, hold_state_words};
ghost use Rattle.audit_heads.specs.Head.{header_words, running_words};

use crate::running::Running;
use crate::words::{
    push_bit, push_flag, push_halted, push_octet_or_none, push_octets, push_time_or_none,
    push_time_or_off,
};
use dp_diag::Diag;
use dp_prm::Prm;
use dp_responder::Last;
use dp_sap::BusyMarks;
use dp_slave::{DataPair, HoldState, Settings};
use dp_text::Text;

/// Sets the text to the header of a part: `rack-audit 3 line N from P`.
#[tactic(auto, using(crate::proofs::Lengths::lengths))]
pub fn set_header(text: &mut Text, number: u8, place: u32)
    ensures row { text.new ≡ spaced (header_words number place) }
    ensures most { length text.new ≤ 37 }
{
    text.clear();
    text.push_str("rack-audit 3 line ");
    text.push_octet(number);
    text.push_str(" from ");
    text.push_number(place);
}

/// Sets the text to the row of the line: `line running TIME` or `line halted TIME`.
#[tactic(auto, using(crate::proofs::Lengths::lengths))]
pub fn set_running(text: &mut Text, running: Running)
    ensures row { text.new ≡ spaced (running_words running) }
    ensures most { length text.new ≤ 33 }
{
    text.clear();
    text.push_str("line ");
    push_halted(text, running.halted);
    text.push_str(" ");
    push_time_or_none(text, running.time);
}

/// Sets the text to `slave A STATE HOLDER SINCE WATCHDOG BUSY`.
#[tactic(auto, using(crate::proofs::Lengths::lengths))]
pub fn set_hold_state(text: &mut Text, address: u8, hold_state: &HoldState)
    ensures row { text.new ≡ spaced (hold_state_words address hold_state.now) }
    ensures most { length text.new ≤ 54 }
{
    text.clear();
    text.push_str("slave ");
    text.push_octet(address);
    text.push_str(" ");
    push_holding(text, hold_state);
    text.push_str(" ");
    push_watching(text, hold_state);
}

/// Appends `STATE HOLDER`.
#[tactic(auto, using(crate::proofs::Lengths::lengths))]
fn push_holding(text: &mut Text, hold_state: &HoldState)
    requires { length text.old + 13 ≤ LONGEST }
    ensures text { text.new ≡ text.old ++ (state_name hold_state.now.state ++ codes " " ++ optional_word none_word hold_state.now.holder) }
    ensures most { length text.new ≤ length text.old + 13 }
{
    text.push_str(hold_state.state.name());
    text.push_str(" ");
    push_octet_or_none(text, hold_state.holder);
}

/// Appends `SINCE WATCHDOG BUSY`.
#[tactic(auto, using(crate::proofs::Lengths::lengths))]
fn push_watching(text: &mut Text, hold_state: &HoldState)
    requires { length text.old + 30 ≤ LONGEST }
    ensures text { text.new ≡ text.old ++ (decimal hold_state.now.since ++ codes " " ++ optional_word off_word hold_state.now.left ++ codes " " ++ busy_word hold_state.now.busy) }
    ensures most { length text.new ≤ length text.old + 30 }
{
    text.push_number(hold_state.since);
    text.push_str(" ");
    push_time_or_off(text, hold_state.left);
    text.push_str(" ");
    push_busy(text, &hold_state.busy);
}

/// Appends the busy marks, in the order of the access table.
#[tactic(auto, using(crate::proofs::Lengths::lengths))]
fn push_busy(text: &mut Text, busy: &BusyMarks)
    requires { length text.old + 8 ≤ LONGEST }
    ensures text { text.new ≡ text.old ++ busy_word busy.now }
    ensures most { length text.new ≤ length text.old + 8 }
{
    push_flag(text, busy.data_exchange, b'x');
    push_flag(text, busy.rd_inp, b'i');
    push_flag(text, busy.rd_outp, b'o');
    push_flag(text, busy.global_control, b'g');
    push_flag(text, busy.get_cfg, b'c');
    push_flag(text, busy.slave_diag, b'd');
    push_flag(text, busy.set_prm, b'p');
    push_flag(text, busy.chk_cfg, b'k');
}

/// Sets the text to `set A MIN_TSDR CFG SHAPE MODES`.
#[tactic(auto, using(crate::proofs::Lengths::lengths))]
pub fn set_settings(text: &mut Text, address: u8, settings: Settings)
    ensures row { text.new ≡ spaced (settings_words address settings) }
    ensures most { length text.new ≤ 24 }
{
    text.clear();
    text.push_str("set ");
    text.push_octet(address);
    text.push_str(" ");
    text.push_octet(settings.min_tsdr);
    text.push_str(" ");
    push_shape(text, settings);
}

/// Appends `CFG SHAPE MODES`.
#[tactic(auto, using(crate::proofs::Lengths::lengths))]
fn push_shape(text: &mut Text, settings: Settings)
    requires { length text.old + 12 ≤ LONGEST }
    ensures text { text.new ≡ text.old ++ (optional_word none_word settings.cfg ++ codes " " ++ decimal settings.shape ++ codes " "
        ++ modes_word settings.sync_mode settings.freeze_mode settings.cleared) }
    ensures most { length text.new ≤ length text.old + 12 }
{
    push_octet_or_none(text, settings.cfg);
    text.push_str(" ");
    text.push_octet(settings.shape);
    text.push_str(" ");
    push_modes(text, settings);
}

/// Appends the modes.
#[tactic(auto, using(crate::proofs::Lengths::lengths))]
fn push_modes(text: &mut Text, settings: Settings)
    requires { length text.old + 3 ≤ LONGEST }
    ensures text { text.new ≡ text.old ++ modes_word settings.sync_mode settings.freeze_mode settings.cleared }
    ensures most { length text.new ≤ length text.old + 3 }
{
    push_flag(text, settings.sync_mode, b's');
    push_flag(text, settings.freeze_mode, b'f');
    push_flag(text, settings.cleared, b'c');
}

/// Sets the text to `prm A none`, or to `prm A WATCHDOG REQS MIN_TSDR GROUP OCTETS`.
#[tactic(auto, using(crate::proofs::Lengths::lengths))]
pub fn set_prm(text: &mut Text, address: u8, prm: &Option<Prm>)
    ensures row { text.new ≡ spaced (prm_words address prm.now) }
    ensures most { length text.new ≤ 504 }
{
    text.clear();
    text.push_str("prm ");
    text.push_octet(address);
    text.push_str(" ");
    match prm {
        None => text.push_str("none"),
        Some(prm) => push_prm(text, prm),
    }
}

/// Appends parameters: `WATCHDOG REQS MIN_TSDR GROUP OCTETS`.
#[tactic(auto, using(crate::proofs::Lengths::lengths))]
fn push_prm(text: &mut Text, prm: &Prm)
    requires { length text.old + 496 ≤ LONGEST }
    ensures text { text.new ≡ text.old ++ spaced (prm_values prm.now) }
    ensures most { length text.new ≤ length text.old + 496 }
{
    push_time_or_off(text, prm.watchdog);
    text.push_str(" ");
    push_reqs(text, prm);
    text.push_str(" ");
    push_group(text, prm);
    text.push_str(" ");
    push_octets(text, &prm.user);
}

/// Appends Sync_Req and Freeze_Req.
#[tactic(auto, using(crate::proofs::Lengths::lengths))]
fn push_reqs(text: &mut Text, prm: &Prm)
    requires { length text.old + 2 ≤ LONGEST }
    ensures text { text.new ≡ text.old ++ reqs_word prm.now.sync_req prm.now.freeze_req }
    ensures most { length text.new ≤ length text.old + 2 }
{
    push_flag(text, prm.sync_req, b's');
    push_flag(text, prm.freeze_req, b'f');
}

/// Appends `MIN_TSDR GROUP`.
#[tactic(auto, using(crate::proofs::Lengths::lengths))]
fn push_group(text: &mut Text, prm: &Prm)
    requires { length text.old + 7 ≤ LONGEST }
    ensures text { text.new ≡ text.old ++ (decimal prm.now.min_tsdr ++ codes " " ++ decimal prm.now.group) }
    ensures most { length text.new ≤ length text.old + 7 }
{
    text.push_octet(prm.min_tsdr);
    text.push_str(" ");
    text.push_octet(prm.group);
}

/// Sets the text to `KEY A OCTETS OCTETS`.
#[tactic(auto, using(crate::proofs::Lengths::lengths))]
pub fn set_data(text: &mut Text, key: &str, address: u8, pair: &DataPair)
    requires { length key.now ≤ 3 }
    ensures row { text.new ≡ spaced (data_words key.now address pair.now) }
    ensures most { length text.new ≤ 985 }
{
    text.clear();
    text.push_str(key);
    text.push_str(" ");
    text.push_octet(address);
    text.push_str(" ");
    push_octets(text, &pair.first);
    text.push_str(" ");
    push_octets(text, &pair.second);
}

/// Sets the text to `diag A FLAGS OCTETS`.
#[tactic(auto, using(crate::proofs::Lengths::lengths))]
pub fn set_diag(text: &mut Text, address: u8, diag: &Diag)
    ensures row { text.new ≡ spaced (diag_words address diag.now) }
    ensures most { length text.new ≤ 493 }
{
    text.clear();
    text.push_str("diag ");
    text.push_octet(address);
    text.push_str(" ");
    push_diag_flags(text, diag);
    text.push_str(" ");
    push_octets(text, &diag.octets);
}

/// Appends the flags of a diagnosis.
#[tactic(auto, using(crate::proofs::Lengths::lengths))]
fn push_diag_flags(text: &mut Text, diag: &Diag)
    requires { length text.old + 7 ≤ LONGEST }
    ensures text { text.new ≡ text.old ++ diag_word diag.now }
    ensures most { length text.new ≤ length text.old + 7 }
{
    push_flag(text, diag.ext, b'e');
    push_flag(text, diag.stat, b's');
    push_flag(text, diag.overflow, b'o');
    push_flag(text, diag.unread, b'u');
    push_flag(text, diag.prm_fault, b'p');
    push_flag(text, diag.cfg_fault, b'c');
    push_flag(text, diag.not_supported, b'n');
}

/// Sets the text to `last A M none`, or to `last A M FCB OCTETS`.
#[tactic(auto, using(crate::proofs::Lengths::lengths))]
pub fn set_last(text: &mut Text, address: u8, master: u8, last: &Option<Last>)
    ensures row { text.new ≡ spaced (last_words address master last.now) }
    ensures most { length text.new ≤ 525 }
{
    text.clear();
    text.push_str("last ");
    text.push_octet(address);
    text.push_str(" ");
    text.push_octet(master);
    text.push_str(" ");
    match last {
        None => text.push_str("none"),
        Some(last) => {
            push_bit(text, last.fcb);
            text.push_str(" ");
            push_octets(text, &last.reply);
        }
    }
}
