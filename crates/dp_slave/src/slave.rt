//! A slave.

ghost use Rattle.std.specs.Prelude.{◌≡◌, ◌≤◌, [], length, map, slice_get, unwrap_or, true, None};
ghost use Rattle.std.specs.List.{list_all};
ghost use Rattle.dp_cfg.specs.Reading.{input_octets, output_octets};
ghost use Rattle.dp_sap.specs.AccessTable.{most_data};
ghost use Rattle.dp_responder.specs.Memory.{with_remembered};
ghost use Rattle.dp_slave.specs.SlaveRecord.{can_be_parsed, configuration as configuration_of, configurations as configurations_of, group_of, input_length, output_length, points_of, shown_inputs, starting_slave};
ghost use Rattle.dp_slave.specs.SlaveParts.{with_slave};

use crate::data_octets::DataOctets;
use crate::description::{Configuration, MOST_CONFIGURATIONS, SlaveSpec};
use arrayvec::ArrayVec;
use dp_cfg::CfgIds;
use dp_diag::Diag;
use dp_owners::{Links, MOST_MASTERS};
use dp_prm::Prm;
use dp_responder::FrameMemory;
use dp_sap::{Points, State};
use dp_telegram::Octets;
use std::marker::Model;

/// Min TSDR until a master sets another, in bit times (IEC 61158-6-3, Set_Prm request).
const FIRST_MIN_TSDR: u8 = 11;

/// A DP-V0 slave of a line (IEC 61158-6-3, slave state machine). Contracts see its record, and its
/// links, which thread it into the list of the master that holds it.
///
/// State and holder are stored only in `points`.
#[derive(Drop)]
pub struct Slave {
    pub(crate) description: SlaveSpec,
    pub(crate) configurations: ArrayVec<CfgIds, MOST_CONFIGURATIONS>,
    pub(crate) points: Points,
    pub(crate) since: u32,
    pub(crate) min_tsdr: u8,
    pub(crate) prm: Option<Prm>,
    pub(crate) cfg: Option<u8>,
    pub(crate) shape: u8,
    pub(crate) inputs: DataOctets,
    pub(crate) frozen_inputs: DataOctets,
    pub(crate) outputs: DataOctets,
    pub(crate) latest: DataOctets,
    pub(crate) sync_mode: bool,
    pub(crate) freeze_mode: bool,
    pub(crate) left: Option<u32>,
    pub(crate) diag: Diag,
    pub(crate) memory: FrameMemory,
    pub(crate) links: Links,
}

impl Model for Slave {
    ghost use Rattle.std.specs.Prelude.{◌≡◌};
    ghost use Rattle.dp_slave.specs.SlaveParts.{SlaveParts};
    ghost use Rattle.dp_slave.specs.SlaveRecord.{configurations as described, outputs_of};
    ghost use Rattle.dp_slave.specs.SlaveLengths.{HaveLengths};

    ghost Value = { SlaveParts };

    ghost view = { λ s. record {
      slave = record {
        description = s.description;
        state = s.points.state;
        holder = s.points.holder;
        since = s.since;
        min_tsdr = s.min_tsdr;
        prm = s.prm;
        cfg = s.cfg;
        shape = s.shape;
        inputs = s.inputs;
        frozen_inputs = s.frozen_inputs;
        outputs = s.outputs;
        latest = s.latest;
        sync_mode = s.sync_mode;
        freeze_mode = s.freeze_mode;
        cleared = s.points.empty;
        left = s.left;
        diag = s.diag;
        busy = s.points.busy;
        memory = s.memory;
      };
      links = s.links;
    } };

    ghost invariant = { λ s. HaveLengths s.description s.shape s.inputs s.frozen_inputs s.outputs s.latest
        × (s.points.out_len ≡ outputs_of s.description s.shape)
        × (s.configurations.items ≡ described s.description)
        × (s.points.lists ≡ s.description.lists) };
}

impl Slave {
    /// Returns a slave at its start, on a line with these masters. Requires that each of its
    /// configurations can be parsed.
    pub fn open(description: &SlaveSpec, masters: &ArrayVec<u8, MOST_MASTERS>) -> Slave
        requires { list_all can_be_parsed (configurations_of description.now) ≡ true }
        ensures slave { result.slave ≡ starting_slave masters.now.items description.now }
        ensures links { result.links ≡ record { prev = None; next = None } }
    {
        let configurations = parsed(&description.cfgs);
        let (input_length, output_length) = data_lengths(&configurations, 0);
        Slave {
            description: copied(description),
            configurations,
            points: Points::at_state(
                State::WaitPrm,
                None,
                output_length,
                false,
                &description.lists,
            ),
            since: 0,
            min_tsdr: FIRST_MIN_TSDR,
            prm: None,
            cfg: None,
            shape: 0,
            inputs: DataOctets::zeros(input_length),
            frozen_inputs: DataOctets::zeros(input_length),
            outputs: DataOctets::zeros(output_length),
            latest: DataOctets::zeros(output_length),
            sync_mode: false,
            freeze_mode: false,
            left: None,
            diag: Diag::new(),
            memory: FrameMemory::new(masters),
            links: Links {
                prev: None,
                next: None,
            },
        }
    }

    /// Returns its station address, 0 to 126.
    pub fn address(&self) -> u8
        ensures { result ≡ self.now.slave.description.address }
    {
        self.description.address
    }

    /// Returns its service access points. They have its state, its holder, its output length, its busy
    /// marks and its lists, and whether it takes an empty Data_Exchange.
    pub fn points(&self) -> &Points
        ensures { result.now ≡ points_of self.now.slave }
    {
        &self.points
    }

    /// Returns what it remembers of each master.
    pub fn memory(&self) -> &FrameMemory
        ensures { result.now ≡ self.now.slave.memory }
    {
        &self.memory
    }

    /// Stores what a request of the sender leaves, if it isn't a repeat. See
    /// [`FrameMemory::remember`].
    pub fn remember(&mut self, sender: u8, fc: u8, reply: &Octets)
        ensures { self.new ≡ with_slave self.old (record self.old.slave { memory = with_remembered self.old.slave.memory sender fc reply.now.items }) }
    {
        self.memory.remember(sender, fc, reply);
    }

    /// Returns the inputs that a master sees, 0 to 244 octets: in freeze mode the frozen inputs.
    pub fn rd_inp(&self) -> &[u8]
        ensures inputs { result.now ≡ shown_inputs self.now.slave }
        ensures long { length result.now ≡ input_length self.now.slave }
        ensures most { length result.now ≤ most_data }
    {
        self.shown().as_slice()
    }

    /// Returns the inputs, or in freeze mode the frozen inputs.
    pub(crate) fn shown(&self) -> &DataOctets
        ensures inputs { result.now ≡ shown_inputs self.now.slave }
        ensures long { length result.now ≡ input_length self.now.slave }
    {
        if self.freeze_mode {
            &self.frozen_inputs
        } else {
            &self.inputs
        }
    }

    /// Returns the outputs, 0 to 244 octets.
    pub fn rd_outp(&self) -> &[u8]
        ensures outputs { result.now ≡ self.now.slave.outputs }
        ensures long { length result.now ≡ output_length self.now.slave }
        ensures most { length result.now ≤ most_data }
    {
        self.outputs.as_slice()
    }

    /// Returns the octets of the configuration of the shape in force, 0 to 244 of them.
    pub fn get_cfg(&self) -> &[u8]
        ensures octets { result.now ≡ configuration_of self.now.slave.description self.now.slave.shape }
        ensures most { length result.now ≤ most_data }
    {
        match self.configurations.get(usize::from(self.shape)) {
            Some(configuration) => configuration.octets(),
            None => &[],
        }
    }

    /// Returns the groups that it belongs to, one bit each, as its holder's parameters say; 0 if it
    /// has no parameters (IEC 61158-6-3, Set_Prm request, Group_Ident).
    pub fn group(&self) -> u8
        ensures { result ≡ group_of self.now.slave }
    {
        match &self.prm {
            Some(prm) => prm.group,
            None => 0,
        }
    }
}

/// Parses these configurations. Requires that each of them can be parsed.
pub(crate) fn parsed(cfgs: &[Configuration]) -> ArrayVec<CfgIds, MOST_CONFIGURATIONS>
    requires read { list_all can_be_parsed (map (λ cfg. cfg.items) cfgs.now) ≡ true }
    requires few { length cfgs.now ≤ 4 }
    ensures { result.items ≡ map (λ cfg. cfg.items) cfgs.now }
{
    let mut configurations = ArrayVec::new();
    for cfg in cfgs {
        configurations.push(CfgIds::parse(cfg).unwrap());
    }
    configurations
}

/// Returns the number of input octets and of output octets, 0 to 244 each, of the configuration of
/// this number; zeros if there is no such configuration.
pub(crate) fn data_lengths(configurations: &[CfgIds], number: u8) -> (u8, u8)
    ensures inputs { result.0 ≡ input_octets (unwrap_or (slice_get configurations.now number) []) }
    ensures outputs { result.1 ≡ output_octets (unwrap_or (slice_get configurations.now number) []) }
    ensures most { (result.0 ≤ most_data) × (result.1 ≤ most_data) }
{
    match configurations.get(usize::from(number)) {
        Some(configuration) => (configuration.input_len(), configuration.output_len()),
        None => (0, 0),
    }
}

pub(crate) fn copied(description: &SlaveSpec) -> SlaveSpec
    ensures { result ≡ description.now }
{
    description.clone().unwrap()
}
