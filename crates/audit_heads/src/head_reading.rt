//! Reading a head.

ghost use Rattle.std.specs.Prelude.{◌≡◌, ◌≢◌, ◌+◌, ◌≤◌, length, map, true, None, Some, Ok, Err, IfOk, IfErr};
ghost use Rattle.std.specs.List.{list_all};
ghost use Rattle.dp_slave.specs.SlaveRecord.{can_be_parsed, configurations as configurations_of};
ghost use Rattle.audit_heads.specs.Rows.{read_row};
ghost use Rattle.dp_line.specs.World.{ascending, description_of, has_configurations, opening_fault};
ghost use Rattle.dp_line.specs.SoundWorld.{restore_fault};
ghost use Rattle.dp_line.specs.Stations.{restored_world, slaves_of};
ghost use Rattle.dp_line.specs.declared.fault.RestoreFault.{RestoreFault as RestoreFaults};
ghost use Rattle.audit_heads.specs.HeadLines.{line_read};
ghost use Rattle.audit_heads.specs.Reading.{AreRead, behind, behind_slaves, data_read, described_from, lock_read, read_as, slave_as};
ghost use Rattle.audit_heads.specs.SlaveRows.{data_of_row, diag_of_row, last_of_row, memory_read, prm_of_row, settings_of_row, slave_read, hold_state_of_row};
ghost use Rattle.audit_heads.specs.Head.{place_of_row, running_of_row, slaves_read};

use crate::head_fault::HeadFault;
use crate::reading::{
    data_in_row, diag_in_row, hold_state_in_row, last_in_row, place_in_row, prm_in_row,
    running_in_row, settings_in_row,
};
use crate::rows::Rows;
use crate::running::Running;
use dp_diag::Diag;
use dp_line::{LineSpec, LineState, RestoreFault, described};
use dp_prm::Prm;
use dp_responder::{FrameMemory, Last, MasterEntry};
use dp_slave::{DataPair, HoldState, Settings, Slave, SlaveImage, SlaveSpec};
use dp_telegram::LAST_STATION;
use dp_text::Text;
use std::alloc::Global;

/// The first three rows of a slave.
#[derive(Drop)]
struct LockRows {
    hold_state: HoldState,
    settings: Settings,
    prm: Option<Prm>,
}

/// The next three rows of a slave.
#[derive(Drop)]
struct DataRows {
    inputs: DataPair,
    outputs: DataPair,
    diag: Diag,
}

/// Reads the next row as the state and the hold of the slave of this address, or returns the number of the row.
fn read_hold_state(address: u8, rows: &mut Rows<'_>, text: &mut Text) -> Result<HoldState, u64>
    ensures { read_as result rows.new ≡ read_row (hold_state_of_row address) rows.old }
{
    let number = rows.number();
    let row = rows.next()?;
    match hold_state_in_row(address, row, text) {
        Some(hold_state) => Ok(hold_state),
        None => Err(number),
    }
}

/// Reads the next row as the settings of the slave of this address, or returns the number of the row.
fn read_settings(address: u8, rows: &mut Rows<'_>, text: &mut Text) -> Result<Settings, u64>
    ensures { read_as result rows.new ≡ read_row (settings_of_row address) rows.old }
{
    let number = rows.number();
    let row = rows.next()?;
    match settings_in_row(address, row, text) {
        Some(settings) => Ok(settings),
        None => Err(number),
    }
}

/// Reads the next row as the parameters of the slave of this address, or returns the number of the row.
fn read_prm(address: u8, rows: &mut Rows<'_>, text: &mut Text) -> Result<Option<Prm>, u64>
    ensures { read_as result rows.new ≡ read_row (prm_of_row address) rows.old }
{
    let number = rows.number();
    let row = rows.next()?;
    match prm_in_row(address, row, text) {
        Some(prm) => Ok(prm),
        None => Err(number),
    }
}

/// Reads the next row as the data of this key of the slave of this address, or returns the number of the row.
fn read_data(key: &str, address: u8, rows: &mut Rows<'_>, text: &mut Text) -> Result<DataPair, u64>
    requires { length key.now ≤ 3 }
    ensures { read_as result rows.new ≡ read_row (data_of_row key.now address) rows.old }
{
    let number = rows.number();
    let row = rows.next()?;
    match data_in_row(key, address, row, text) {
        Some(pair) => Ok(pair),
        None => Err(number),
    }
}

/// Reads the next row as the diagnosis of the slave of this address, or returns the number of the row.
fn read_diag(address: u8, rows: &mut Rows<'_>, text: &mut Text) -> Result<Diag, u64>
    ensures { read_as result rows.new ≡ read_row (diag_of_row address) rows.old }
{
    let number = rows.number();
    let row = rows.next()?;
    match diag_in_row(address, row, text) {
        Some(diag) => Ok(diag),
        None => Err(number),
    }
}

/// Reads the next row as what the slave of this address remembers of this master, or returns the number of the row.
fn read_last(
    address: u8,
    master: u8,
    rows: &mut Rows<'_>,
    text: &mut Text,
) -> Result<Option<Last>, u64>
    ensures { read_as result rows.new ≡ read_row (last_of_row address master) rows.old }
{
    let number = rows.number();
    let row = rows.next()?;
    match last_in_row(address, master, row, text) {
        Some(last) => Ok(last),
        None => Err(number),
    }
}

/// Reads the next row as the header of a part of the line of this number, or returns the number of the row.
fn read_place(number: u8, rows: &mut Rows<'_>, text: &mut Text) -> Result<u32, u64>
    ensures { read_as result rows.new ≡ read_row (place_of_row number) rows.old }
{
    let first = rows.number();
    let row = rows.next()?;
    match place_in_row(number, row, text) {
        Some(place) => Ok(place),
        None => Err(first),
    }
}

/// Reads the next row as that of the line, or returns the number of the row.
fn read_running(rows: &mut Rows<'_>, text: &mut Text) -> Result<Running, u64>
    ensures { read_as result rows.new ≡ read_row running_of_row rows.old }
{
    let number = rows.number();
    let row = rows.next()?;
    match running_in_row(row, text) {
        Some(running) => Ok(running),
        None => Err(number),
    }
}

/// Reads what the slave of this address remembers of each of these masters, and appends it to a memory, or returns the
/// number of the first wrong row.
fn read_memory(
    address: u8,
    masters: &[u8],
    memory: FrameMemory,
    rows: &mut Rows<'_>,
    text: &mut Text,
) -> Result<FrameMemory, u64>
    requires { length memory + length masters.now ≤ 16 }
    ensures { read_as result rows.new ≡ behind memory (memory_read address masters.now rows.old) }
{
    let mut memory = memory;
    match masters {
        [] => Ok(memory),
        [master, others @ ..] => {
            let last = read_last(address, *master, rows, text)?;
            memory.push(MasterEntry {
                master: *master,
                last,
            });
            read_memory(address, others, memory, rows, text)
        }
    }
}

/// Reads the first three rows of the slave of this address, or returns the number of the first wrong one.
fn read_lock(address: u8, rows: &mut Rows<'_>, text: &mut Text) -> Result<LockRows, u64>
    ensures { read_as result rows.new ≡ lock_read address rows.old }
{
    let hold_state = read_hold_state(address, rows, text)?;
    let settings = read_settings(address, rows, text)?;
    let prm = read_prm(address, rows, text)?;
    Ok(LockRows {
        hold_state,
        settings,
        prm,
    })
}

/// Reads the next three rows of the slave of this address, or returns the number of the first wrong one.
fn read_data_rows(address: u8, rows: &mut Rows<'_>, text: &mut Text) -> Result<DataRows, u64>
    ensures { read_as result rows.new ≡ data_read address rows.old }
{
    let inputs = read_data("in", address, rows, text)?;
    let outputs = read_data("out", address, rows, text)?;
    let diag = read_diag(address, rows, text)?;
    Ok(DataRows {
        inputs,
        outputs,
        diag,
    })
}

/// Reads the rows of the slave of this description, or returns the number of the first wrong row; that of the first row
/// of the slave if its data have other lengths than its shape.
pub(crate) fn read_slave(
    description: &SlaveSpec,
    masters: &[u8],
    rows: &mut Rows<'_>,
    text: &mut Text,
) -> Result<Slave, u64>
    requires parsed { list_all can_be_parsed (configurations_of description.now) ≡ true }
    requires masters { length masters.now ≤ 16 }
    ensures { slave_as result rows.new ≡ slave_read masters.now description.now rows.old }
{
    let number = rows.number();
    let LockRows {
        hold_state,
        settings,
        prm,
    } = read_lock(description.address, rows, text)?;
    let DataRows {
        inputs,
        outputs,
        diag,
    } = read_data_rows(description.address, rows, text)?;
    let memory = read_memory(
        description.address,
        masters,
        FrameMemory::of_no_master(),
        rows,
        text,
    )?;
    let image = SlaveImage {
        hold_state,
        settings,
        prm,
        inputs,
        outputs,
        diag,
        memory,
    };
    match Slave::restore(description, image) {
        Some(slave) => Ok(slave),
        None => Err(number),
    }
}

/// Reads the rows of the slaves of a line, for this number of addresses from this one on, and appends the slaves to
/// others.
fn read_slaves(
    line: &LineSpec,
    address: u8,
    count: u8,
    slaves: Vec<Slave>,
    rows: &mut Rows<'_>,
    text: &mut Text,
) -> Result<Vec<Slave>, HeadFault>
    requires configured { list_all has_configurations line.now.slaves.items ≡ true }
    requires within { address + count ≤ 127 }
    ensures { AreRead (λ v. v.items) result rows.new (behind_slaves (slaves_of slaves.items) (slaves_read line.now.masters.items (described_from line.now.slaves.items address count) rows.old)) }
{
    if count == 0 {
        return Ok(slaves);
    }
    let Some(description) = described(&line.slaves, address) else {
        return read_slaves(line, address + 1, count - 1, slaves, rows, text);
    };
    match read_slave(description, &line.masters, rows, text) {
        Ok(slave) => {
            let mut slaves = slaves;
            if slaves.push(slave).is_err() {
                return Err(HeadFault::OutOfMemory);
            }
            read_slaves(line, address + 1, count - 1, slaves, rows, text)
        }
        Err(number) => Err(HeadFault::WrongRow(number)),
    }
}

/// What a head says, and what is left of its text.
#[derive(Drop)]
pub struct ReadHead<'a> {
    /// The line, which goes on from the world of the head.
    pub line: LineState,
    /// The sum of the ticks until then, in units of 10 ms; `None` before the first tick.
    pub time: Option<u64>,
    /// The rows behind the head.
    pub rows: Rows<'a>,
}

/// Reads the head of a line at the beginning of a text, and makes a line that goes on from its world. `buffer` is a buffer.
/// Requires that a line can be opened from the description.
///
/// Returns `WrongRow` with the first wrong row, or else `Unsound` if no line goes on from the world; or `OutOfMemory`.
pub fn read_head<'a>(
    alloc: Global,
    line: &LineSpec,
    text: &'a [u8],
    buffer: &mut Text,
) -> Result<ReadHead<'a>, HeadFault>
    requires { opening_fault (description_of line.now) ≡ None }
    ensures ok { IfOk result (λ read. line_read (description_of line.now) text.now ≡ Ok (record { world = read.line.world; time = read.time }, read.rows)) }
    ensures err { IfErr result (λ fault. fault ≢ HeadFault.OutOfMemory → line_read (description_of line.now) text.now ≡ Err fault) }
{
    let mut rows = Rows::new(text);
    let place = match read_place(line.number, &mut rows, buffer) {
        Ok(place) => place,
        Err(number) => return Err(HeadFault::WrongRow(number)),
    };
    let running = match read_running(&mut rows, buffer) {
        Ok(running) => running,
        Err(number) => return Err(HeadFault::WrongRow(number)),
    };
    let Ok(slaves) = Vec::with_capacity(alloc, line.slaves.len()) else {
        return Err(HeadFault::OutOfMemory);
    };
    let slaves = match read_slaves(line, 0, LAST_STATION + 1, slaves, &mut rows, buffer) {
        Ok(slaves) => slaves,
        Err(fault) => return Err(fault),
    };
    match restored(alloc, line, place, running.halted, &slaves) {
        Ok(line) => Ok(ReadHead {
            line,
            time: running.time,
            rows,
        }),
        Err(fault) => Err(fault),
    }
}

/// Returns the line that goes on from these slaves.
fn restored(
    alloc: Global,
    line: &LineSpec,
    count: u32,
    halted: bool,
    slaves: &[Slave],
) -> Result<LineState, HeadFault>
    requires opens { opening_fault (description_of line.now) ≡ None }
    requires slaves { map (λ p. p.slave.description) slaves.now ≡ ascending (description_of line.now).slaves }
    ensures ok { IfOk result (λ state. (state.world ≡ restored_world line.now.masters.items count halted slaves.now) × (restore_fault (restored_world line.now.masters.items count halted slaves.now) ≡ None)) }
    ensures err { IfErr result (λ fault. fault ≢ HeadFault.OutOfMemory
        → (why : RestoreFaults) × (fault ≡ HeadFault.Unsound why) × (restore_fault (restored_world line.now.masters.items count halted slaves.now) ≡ Some why)) }
{
    match LineState::restore(alloc, line, count, halted, slaves) {
        Ok(line) => Ok(line),
        Err(RestoreFault::OutOfMemory) => Err(HeadFault::OutOfMemory),
        Err(fault) => Err(HeadFault::Unsound(fault)),
    }
}
