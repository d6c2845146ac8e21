//! A slave as data, from which a slave goes on (own).

ghost use Rattle.std.specs.Prelude.{◌≡◌, true};
ghost use Rattle.std.specs.List.{list_all};
ghost use Rattle.dp_owners.specs.Chain.{no_links};
ghost use Rattle.dp_slave.specs.SlaveRecord.{can_be_parsed, configurations as configurations_of, outputs_of};
ghost use Rattle.dp_slave.specs.Images.{are_long, has_lengths, restored_slave, slave_of_image};
ghost use Rattle.dp_slave.specs.SlaveParts.{with_slave};

use crate::data_octets::DataOctets;
use crate::description::{MOST_CONFIGURATIONS, SlaveSpec};
use crate::slave::{Slave, copied, data_lengths, parsed};
use crate::view::copied as copied_prm;
use arrayvec::ArrayVec;
use dp_cfg::CfgIds;
use dp_diag::Diag;
use dp_owners::Links;
use dp_prm::Prm;
use dp_responder::FrameMemory;
use dp_sap::{BusyMarks, MOST_DATA, Points, State};

/// The state of a slave, who holds it, its watchdog and its busy marks.
#[derive(Debug, Drop)]
pub struct HoldState {
    /// Its state.
    pub state: State,
    /// The address of the master that holds it, 0 to 126, if one does.
    pub holder: Option<u8>,
    /// The place of the event that began its holder's hold; 0 if nobody holds it.
    pub since: u32,
    /// The time that its watchdog has left, in units of 10 ms; `None` if it is off.
    pub left: Option<u32>,
    /// Which of its points are busy.
    pub busy: BusyMarks,
}

/// What masters set of a slave beside its parameters.
#[derive(Clone, Copy, Debug, PartialEq, Eq)]
pub struct Settings {
    /// Min TSDR in bit times.
    pub min_tsdr: u8,
    /// The number of the configuration that its holder sent.
    pub cfg: Option<u8>,
    /// The number of the configuration whose lengths are in force.
    pub shape: u8,
    /// It is in sync mode.
    pub sync_mode: bool,
    /// It is in freeze mode.
    pub freeze_mode: bool,
    /// It is fail-safe and its data were cleared (see [`SlaveView::cleared`](crate::SlaveView)).
    pub cleared: bool,
}

/// The inputs and the frozen inputs, or the outputs and the data that came last.
#[derive(Debug, Drop)]
pub struct DataPair {
    /// The inputs or the outputs, 0 to 244 octets.
    pub first: ArrayVec<u8, MOST_DATA>,
    /// The frozen inputs, or the data that came last, 0 to 244 octets.
    pub second: ArrayVec<u8, MOST_DATA>,
}

/// All that events change of a slave.
#[derive(Drop)]
pub struct SlaveImage {
    /// Its state, its holder, its watchdog and its busy marks.
    pub hold_state: HoldState,
    /// What masters set beside its parameters.
    pub settings: Settings,
    /// The parameters of its holder.
    pub prm: Option<Prm>,
    /// Its inputs, and the frozen inputs.
    pub inputs: DataPair,
    /// Its outputs, and the data that came last.
    pub outputs: DataPair,
    /// Its diagnosis.
    pub diag: Diag,
    /// What it remembers of each master.
    pub memory: FrameMemory,
}

impl Slave {
    /// Returns the slave of a description that is as its image says and is in no list; `None` exactly if the
    /// inputs, the frozen inputs, the outputs or the data that came last are not as long as the shape of the image says.
    /// Requires that each configuration of the description can be parsed.
    pub fn restore(description: &SlaveSpec, image: SlaveImage) -> Option<Slave>
        requires { list_all can_be_parsed (configurations_of description.now) ≡ true }
        ensures { result ≡ restored_slave description.now image }
    {
        let configurations = parsed(&description.cfgs);
        let (inputs, outputs) = data_lengths(&configurations, image.settings.shape);
        if !are_long(&image.inputs, inputs) || !are_long(&image.outputs, outputs) {
            return None;
        }
        Some(made(description, configurations, outputs, image))
    }

    /// Copies from another slave of the same description all that events change. The links stay.
    pub fn copy_state_from(&mut self, other: &Slave)
        requires { self.old.slave.description ≡ other.now.slave.description }
        ensures { self.new ≡ with_slave self.old other.now.slave }
    {
        self.points.move_to(
            other.points.state(),
            other.points.holder(),
            other.points.out_len(),
            other.points.empty(),
        );
        self.points.set_marks(other.points.busy().copied());
        self.since = other.since;
        self.min_tsdr = other.min_tsdr;
        self.prm = copied_prm(&other.prm);
        self.cfg = other.cfg;
        self.shape = other.shape;
        self.inputs.copy_from(&other.inputs);
        self.frozen_inputs.copy_from(&other.frozen_inputs);
        self.outputs.copy_from(&other.outputs);
        self.latest.copy_from(&other.latest);
        self.sync_mode = other.sync_mode;
        self.freeze_mode = other.freeze_mode;
        self.left = other.left;
        self.diag = other.diag.clone().unwrap();
        self.memory.copy_from(&other.memory);
    }
}

/// Returns whether both have this number of octets.
fn are_long(pair: &DataPair, count: u8) -> bool
    ensures { result ≡ are_long pair.now count }
{
    pair.first.len() == usize::from(count) && pair.second.len() == usize::from(count)
}

/// Returns the slave of an image whose lengths are right, with its configurations and its output length.
fn made(
    description: &SlaveSpec,
    configurations: ArrayVec<CfgIds, MOST_CONFIGURATIONS>,
    output_length: u8,
    image: SlaveImage,
) -> Slave
    requires long { has_lengths description.now image ≡ true }
    requires configurations { configurations.items ≡ configurations_of description.now }
    requires outputs { output_length ≡ outputs_of description.now image.settings.shape }
    ensures slave { result.slave ≡ slave_of_image description.now image }
    ensures links { result.links ≡ no_links }
{
    let SlaveImage {
        hold_state,
        settings,
        prm,
        inputs,
        outputs,
        diag,
        memory,
    } = image;
    let mut points = Points::at_state(
        hold_state.state,
        hold_state.holder,
        output_length,
        settings.cleared,
        &description.lists,
    );
    points.set_marks(hold_state.busy);
    Slave {
        description: copied(description),
        configurations,
        points,
        since: hold_state.since,
        min_tsdr: settings.min_tsdr,
        prm,
        cfg: settings.cfg,
        shape: settings.shape,
        inputs: DataOctets::of(inputs.first),
        frozen_inputs: DataOctets::of(inputs.second),
        outputs: DataOctets::of(outputs.first),
        latest: DataOctets::of(outputs.second),
        sync_mode: settings.sync_mode,
        freeze_mode: settings.freeze_mode,
        left: hold_state.left,
        diag,
        memory,
        links: Links {
            prev: None,
            next: None,
        },
    }
}
