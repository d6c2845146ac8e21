//! What one line of an operator does.

ghost use Rattle.std.specs.Prelude.{◌≡◌, ◌≤◌, length, OnErr, OnOk, IfOk, MatchOption};
ghost use Rattle.std.specs.Io.KnownBytes.{Appends};
ghost use Rattle.dp_shared.specs.Passes.{table_of};
ghost use Rattle.rack_devices.specs.declared.driven_slave.TheConstants.{MOST_DRIVEN};
ghost use Rattle.dp_sessions.specs.Recording.{Gains, GainsRecorded};
ghost use Rattle.dp_sessions.specs.Operators.{AreFed, IsAnswered, IsFed, IsFedAsSeen, IsOperated, fault_text};

use crate::gate::{Gate, NotRecorded};
use dp_line::{Op, SlaveView};
use dp_shared::{Line, Pass};
use dp_text::{LineFault, OpLine, Text, read_line};
use rack_devices::DrivenSlave;
use std::sync::Wait;

/// Carries out a line by an operator's pass, and sets `text` to the answer: none for an empty line or a comment.
/// `driven` are the slaves of the line that devices drive.
///
/// Returns `NotRecorded` if the gate has not recorded an entry of the line; the rest of the line is carried out then.
pub(crate) fn answer_line<T: Wait, G: Gate>(
    rt: &T,
    line: &Line,
    gate: &G,
    driven: &[DrivenSlave],
    pass: &mut Pass,
    octets: &[u8],
    text: &mut Text,
) -> Result<(), NotRecorded>
    requires ours { pass.old.table ≡ table_of line.now }
    requires operator { pass.old.view.address ≡ 127 }
    requires few { length driven.now ≤ MOST_DRIVEN }
    ensures ours { pass.new.table ≡ pass.old.table }
    ensures number { pass.new.line ≡ pass.old.line }
    ensures address { pass.new.view.address ≡ pass.old.view.address }
    ensures answered { IsAnswered driven.now octets.now pass.old.view pass.new.view text.new }
    ensures recorded { OnOk result (GainsRecorded (G.recorded gate.now pass.old.line) pass.old.view.receipts pass.new.view.receipts) }
    ensures unrecorded { OnErr result (Gains pass.old.view.receipts pass.new.view.receipts) }
{
    match read_line(octets) {
        Ok(op_line) => operate(rt, line, gate, driven, pass, op_line, text),
        Err(fault) => {
            gate.faulty_line(rt, pass.line(), octets, fault);
            set_fault(text, fault);
            Ok(())
        }
    }
}

/// Sets the text to the line `fault FAULT`.
fn set_fault(text: &mut Text, fault: LineFault)
    ensures { text.new ≡ fault_text fault }
{
    text.clear();
    text.push_str("fault ");
    text.push_str(fault.name());
    text.push_str("\n");
}

/// Carries out what is asked for, and sets `text` to the answer.
fn operate<T: Wait, G: Gate>(
    rt: &T,
    line: &Line,
    gate: &G,
    driven: &[DrivenSlave],
    pass: &mut Pass,
    op_line: OpLine,
    text: &mut Text,
) -> Result<(), NotRecorded>
    requires ours { pass.old.table ≡ table_of line.now }
    requires operator { pass.old.view.address ≡ 127 }
    requires few { length driven.now ≤ MOST_DRIVEN }
    ensures ours { pass.new.table ≡ pass.old.table }
    ensures number { pass.new.line ≡ pass.old.line }
    ensures address { pass.new.view.address ≡ pass.old.view.address }
    ensures operated { IsOperated driven.now op_line pass.old.view pass.new.view text.new }
    ensures recorded { OnOk result (GainsRecorded (G.recorded gate.now pass.old.line) pass.old.view.receipts pass.new.view.receipts) }
    ensures unrecorded { OnErr result (Gains pass.old.view.receipts pass.new.view.receipts) }
{
    match op_line {
        OpLine::Event(op) => {
            let number = pass.line();
            gate.operates(rt, number, &op);
            let receipt = line.operate(rt, pass, op);
            gate.operated(rt, number, &receipt);
            text.set_outcome(&receipt.outcome);
            gate.record(rt, number, receipt.place)
        }
        OpLine::Owned(master) => {
            text.set_owned(line.owned(rt, pass, master).value.as_slice());
            Ok(())
        }
        OpLine::Show(address) => {
            text.set_show(&line.snapshot(rt, pass, address).value);
            Ok(())
        }
        OpLine::Step => {
            let fed = feed_each(rt, line, gate, driven, pass);
            text.set_stepped(fed.count);
            fed.recorded
        }
        OpLine::Nothing => {
            text.clear();
            Ok(())
        }
    }
}

/// The inputs that devices gave their slaves.
#[derive(Clone, Copy)]
struct Fed {
    /// The number of inputs that have a place in the journal.
    count: u8,
    /// Whether the gate has recorded their entries.
    recorded: Result<(), NotRecorded>,
}

/// Gives these slaves the next inputs of their devices, one after another, also if the gate does not record one.
fn feed_each<T: Wait, G: Gate>(
    rt: &T,
    line: &Line,
    gate: &G,
    driven: &[DrivenSlave],
    pass: &mut Pass,
) -> Fed
    requires ours { pass.old.table ≡ table_of line.now }
    requires operator { pass.old.view.address ≡ 127 }
    requires few { length driven.now ≤ MOST_DRIVEN }
    ensures ours { pass.new.table ≡ pass.old.table }
    ensures number { pass.new.line ≡ pass.old.line }
    ensures address { pass.new.view.address ≡ pass.old.view.address }
    ensures fed { AreFed driven.now pass.old.view pass.new.view result.count }
    ensures recorded { OnOk result.recorded (GainsRecorded (G.recorded gate.now pass.old.line) pass.old.view.receipts pass.new.view.receipts) }
    ensures unrecorded { OnErr result.recorded (Gains pass.old.view.receipts pass.new.view.receipts) }
{
    let mut count = 0;
    let mut recorded: Result<(), NotRecorded> = Ok(());
    let mut left = driven;
    while let Some((slave, rest)) = left.split_first() {
        let fed = feed(rt, line, gate, *slave, pass);
        count += fed.count;
        recorded = recorded.and(fed.recorded);
        left = rest;
    }
    Fed { count, recorded }
}

/// Gives a slave the next input of its device, computed from the inputs and outputs of the slave at that moment.
fn feed<T: Wait, G: Gate>(
    rt: &T,
    line: &Line,
    gate: &G,
    driven: DrivenSlave,
    pass: &mut Pass,
) -> Fed
    requires ours { pass.old.table ≡ table_of line.now }
    requires operator { pass.old.view.address ≡ 127 }
    ensures ours { pass.new.table ≡ pass.old.table }
    ensures number { pass.new.line ≡ pass.old.line }
    ensures address { pass.new.view.address ≡ pass.old.view.address }
    ensures most { result.count ≤ 1 }
    ensures fed { IsFed driven pass.old.view pass.new.view result.count }
    ensures recorded { OnOk result.recorded (GainsRecorded (G.recorded gate.now pass.old.line) pass.old.view.receipts pass.new.view.receipts) }
    ensures unrecorded { OnErr result.recorded (Gains pass.old.view.receipts pass.new.view.receipts) }
{
    let seen = line.snapshot(rt, pass, driven.address).value;
    feed_as_seen(rt, line, gate, driven, &seen, pass)
}

/// Gives a slave the next input of its device, computed from what a look saw.
fn feed_as_seen<T: Wait, G: Gate>(
    rt: &T,
    line: &Line,
    gate: &G,
    driven: DrivenSlave,
    seen: &Option<SlaveView>,
    pass: &mut Pass,
) -> Fed
    requires ours { pass.old.table ≡ table_of line.now }
    requires operator { pass.old.view.address ≡ 127 }
    ensures ours { pass.new.table ≡ pass.old.table }
    ensures number { pass.new.line ≡ pass.old.line }
    ensures address { pass.new.view.address ≡ pass.old.view.address }
    ensures most { result.count ≤ 1 }
    ensures fed { IsFedAsSeen driven seen.now pass.old.view pass.new.view result.count }
    ensures recorded { OnOk result.recorded (GainsRecorded (G.recorded gate.now pass.old.line) pass.old.view.receipts pass.new.view.receipts) }
    ensures unrecorded { OnErr result.recorded (Gains pass.old.view.receipts pass.new.view.receipts) }
{
    let Some(slave) = seen else {
        return Fed {
            count: 0,
            recorded: Ok(()),
        };
    };
    let op = driven.next_input(slave);
    let number = pass.line();
    gate.operates(rt, number, &op);
    let receipt = line.operate(rt, pass, op);
    gate.operated(rt, number, &receipt);
    let recorded = gate.record(rt, number, receipt.place);
    match receipt.place {
        Some(_) => Fed { count: 1, recorded },
        None => Fed { count: 0, recorded },
    }
}
