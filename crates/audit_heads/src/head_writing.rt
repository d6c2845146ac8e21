//! Writing a head.

ghost use Rattle.std.specs.Prelude.{◌≡◌, ◌≤◌, ◌++◌, codes, length, OnOk};
ghost use Rattle.std.specs.List.{flat_map};
ghost use Rattle.dp_sap.specs.AccessTable.{most_data};
ghost use Rattle.dp_line.specs.Stations.{slaves_of};
ghost use Rattle.audit_heads.specs.Rows.{row_text, rows_text};
ghost use Rattle.audit_heads.specs.SlaveRows.{data_words, diag_words, inputs_of, last_words, memory_rows, outputs_of, prm_words, settings_of, settings_words, slave_rows, hold_state_of, hold_state_words};
ghost use Rattle.audit_heads.specs.Head.{head_text};

use crate::running::Running;
use crate::writing::{
    set_data, set_diag, set_header, set_hold_state, set_last, set_prm, set_running, set_settings,
};
use arrayvec::ArrayVec;
use dp_line::{LineState, Slave};
use dp_prm::Prm;
use dp_responder::MasterEntry;
use dp_sap::MOST_DATA;
use dp_slave::{DataPair, HoldState, Settings};
use dp_text::Text;
use std::alloc::AllocError;

/// Appends the head of a line of this number: the text of its world, and of the sum of the ticks until then in units of
/// 10 ms, `None` before the first tick. `text` is a buffer. `AllocError` if memory runs out.
pub fn push_head(
    out: &mut Vec<u8>,
    number: u8,
    line: &LineState,
    time: Option<u64>,
    text: &mut Text,
) -> Result<(), AllocError>
    ensures { OnOk result (out.new.items ≡ out.old.items ++ head_text number (record { world = line.now.world; time = time })) }
{
    set_header(text, number, line.count());
    push_row(out, text)?;
    set_running(
        text,
        Running {
            halted: line.is_halted(),
            time,
        },
    );
    push_row(out, text)?;
    push_slaves(out, line.slaves(), text)
}

/// Appends the row in the buffer, and an LF.
fn push_row(out: &mut Vec<u8>, text: &Text) -> Result<(), AllocError>
    ensures { OnOk result (out.new.items ≡ out.old.items ++ (text.now ++ codes "\n")) }
{
    out.extend_from_slice(text.as_bytes())?;
    out.extend_from_slice(b"\n")
}

/// Appends the rows of slaves.
fn push_slaves(out: &mut Vec<u8>, slaves: &[Slave], text: &mut Text) -> Result<(), AllocError>
    ensures { OnOk result (out.new.items ≡ out.old.items ++ rows_text (flat_map slave_rows (slaves_of slaves.now))) }
{
    match slaves {
        [] => Ok(()),
        [slave, others @ ..] => {
            push_slave(out, slave, text)?;
            push_slaves(out, others, text)
        }
    }
}

/// Appends the rows of a slave.
fn push_slave(out: &mut Vec<u8>, slave: &Slave, text: &mut Text) -> Result<(), AllocError>
    ensures { OnOk result (out.new.items ≡ out.old.items ++ rows_text (slave_rows slave.now.slave)) }
{
    push_lock(out, slave, text)?;
    push_data(out, slave, text)?;
    push_memory(out, slave.address(), slave.memory().entries(), text)
}

/// Appends the rows of the state, the settings and the parameters of a slave.
fn push_lock(out: &mut Vec<u8>, slave: &Slave, text: &mut Text) -> Result<(), AllocError>
    ensures { OnOk result (out.new.items ≡ out.old.items
        ++ (row_text (hold_state_words slave.now.slave.description.address (hold_state_of slave.now.slave))
        ++ (row_text (settings_words slave.now.slave.description.address (settings_of slave.now.slave))
        ++ row_text (prm_words slave.now.slave.description.address slave.now.slave.prm)))) }
{
    set_hold_state(text, slave.address(), &hold_state_of(slave));
    push_row(out, text)?;
    set_settings(text, slave.address(), settings_of(slave));
    push_row(out, text)?;
    set_prm(text, slave.address(), &prm_of(slave));
    push_row(out, text)
}

/// Appends the rows of the inputs, the outputs and the diagnosis of a slave.
fn push_data(out: &mut Vec<u8>, slave: &Slave, text: &mut Text) -> Result<(), AllocError>
    ensures { OnOk result (out.new.items ≡ out.old.items
        ++ (row_text (data_words (codes "in") slave.now.slave.description.address (inputs_of slave.now.slave))
        ++ (row_text (data_words (codes "out") slave.now.slave.description.address (outputs_of slave.now.slave))
        ++ row_text (diag_words slave.now.slave.description.address slave.now.slave.diag)))) }
{
    let inputs = pair_of(slave.inputs(), slave.frozen_inputs());
    set_data(text, "in", slave.address(), &inputs);
    push_row(out, text)?;
    let outputs = pair_of(slave.rd_outp(), slave.latest());
    set_data(text, "out", slave.address(), &outputs);
    push_row(out, text)?;
    set_diag(text, slave.address(), slave.diag());
    push_row(out, text)
}

/// Appends what the slave of this address remembers of each master.
fn push_memory(
    out: &mut Vec<u8>,
    address: u8,
    entries: &[MasterEntry],
    text: &mut Text,
) -> Result<(), AllocError>
    ensures { OnOk result (out.new.items ≡ out.old.items ++ rows_text (memory_rows address entries.now)) }
{
    match entries {
        [] => Ok(()),
        [entry, others @ ..] => {
            set_last(text, address, entry.master, &entry.last);
            push_row(out, text)?;
            push_memory(out, address, others, text)
        }
    }
}

/// Returns the state, the holder, the watchdog and the busy marks of a slave.
fn hold_state_of(slave: &Slave) -> HoldState
    ensures { result ≡ hold_state_of slave.now.slave }
{
    HoldState {
        state: slave.state(),
        holder: slave.holder(),
        since: slave.since(),
        left: slave.left(),
        busy: slave.points().busy().copied(),
    }
}

/// Returns what masters set of a slave beside its parameters.
fn settings_of(slave: &Slave) -> Settings
    ensures { result ≡ settings_of slave.now.slave }
{
    Settings {
        min_tsdr: slave.min_tsdr(),
        cfg: slave.configuration(),
        shape: slave.shape(),
        sync_mode: slave.is_in_sync_mode(),
        freeze_mode: slave.is_in_freeze_mode(),
        cleared: slave.is_cleared(),
    }
}

/// Returns a copy of the parameters of a slave.
fn prm_of(slave: &Slave) -> Option<Prm>
    ensures { result ≡ slave.now.slave.prm }
{
    match slave.parameters() {
        Some(prm) => Some(prm.clone().unwrap()),
        None => None,
    }
}

/// Returns these octets, at most 244 of each.
fn pair_of(first: &[u8], second: &[u8]) -> DataPair
    requires { (length first.now ≤ most_data) × (length second.now ≤ most_data) }
    ensures { result ≡ record { first = record { items = first.now }; second = record { items = second.now } } }
{
    let first: ArrayVec<u8, MOST_DATA> = ArrayVec::try_from(first).unwrap();
    let second: ArrayVec<u8, MOST_DATA> = ArrayVec::try_from(second).unwrap();
    DataPair { first, second }
}
