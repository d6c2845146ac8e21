//! What the services of a slave do (IEC 61158-6-3, DP-V0 services), each for a request that passed the
//! rows of the verdict.

ghost use Rattle.std.specs.Prelude.{◌≡◌, ◌≤◌, ◌<◌, ◌==◌, false, length, Some};
ghost use Rattle.dp_prm.specs.Meaning.{most_octets as most_parameters, most_user_parameters};
ghost use Rattle.dp_prm.specs.Lent.{prm_lent};
ghost use Rattle.dp_diag.specs.Diagnosis.{is_due_high};
ghost use Rattle.dp_diag.specs.DiagnosisText.{diagnosis_text};
ghost use Rattle.dp_slave.specs.SlaveRecord.{diag_facts, is_held_by as is_held_by_master, limits_of, output_length, released};
ghost use Rattle.dp_slave.specs.SlaveParts.{with_slave};
ghost use Rattle.dp_slave.specs.Acts.{configures, exchanges, exchanges_none, faults, locks, misconfigures, sets_min_tsdr, sends_diagnosis, unlocks};
ghost use Rattle.dp_slave.specs.Fields.{acted, left_again as left_again_of};
ghost use Rattle.dp_slave.specs.Services.{chk_cfg_act, exchange_act, set_prm_act};
ghost use Rattle.dp_slave.specs.Reshaping.{reshaped};

use crate::data_octets::DataOctets;
use crate::slave::{Slave, data_lengths};
use arrayvec::ArrayVec;
use dp_cfg::choose;
use dp_diag::DiagFactsLent;
use dp_prm::{Limits, PrmLent, PrmVerdictLent, read_lent};
use dp_sap::{MOST_DATA, State};

impl Slave {
    /// Executes Set_Prm by the sender, a master 0 to 126, at this place of the journal, with 0 to
    /// 244 octets. Depending on their meaning, the sender locks the slave or stays its holder, the
    /// slave is released, or only min TSDR is set. The request is always answered without data.
    pub fn set_prm(&mut self, sender: u8, place: u32, octets: &[u8])
        requires { length octets.now ≤ most_parameters }
        ensures { self.new ≡ with_slave self.old (acted self.old.slave (set_prm_act self.old.slave sender place octets.now)) }
    {
        match read_lent(octets, &self.limits()) {
            PrmVerdictLent::MinTsdr(min_tsdr) => self.set_min_tsdr(sender, min_tsdr),
            PrmVerdictLent::Unlock => self.unlock(),
            PrmVerdictLent::Lock(prm) => self.lock(sender, place, &prm),
            PrmVerdictLent::Fault { not_supported } => self.refuse_parameters(not_supported),
        }
    }

    /// Returns the limits of the parameters that the slave takes.
    fn limits(&self) -> Limits
        ensures { result ≡ limits_of self.now.slave }
    {
        Limits {
            ident: self.description.ident,
            sync: self.description.sync,
            freeze: self.description.freeze,
            user_max: self.description.user_max,
        }
    }

    /// Locks the slave for the sender, at this place of the journal. A master that holds the slave
    /// already keeps its place.
    #[tactic(auto, unfolding(crate::specs::Fields::acted))]
    fn lock(&mut self, sender: u8, place: u32, prm: &PrmLent<'_>)
        requires { length prm.now.user.now ≤ most_user_parameters }
        ensures { self.new ≡ with_slave self.old (acted self.old.slave (locks sender place (prm_lent prm.now))) }
    {
        if prm.min_tsdr != 0 {
            self.min_tsdr = prm.min_tsdr;
        }
        self.left = prm.watchdog;
        self.keep_parameters(prm);
        if !self.is_held_by(sender) {
            self.since = place;
        }
        let out_len = self.points.out_len();
        self.points
            .move_to(State::WaitCfg, Some(sender), out_len, false);
        self.cfg = None;
        self.outputs.clear();
        self.latest.clear();
        self.sync_mode = false;
        self.freeze_mode = false;
        self.diag.prm_fault = false;
        self.diag.cfg_fault = false;
        self.diag.not_supported = false;
    }

    /// Stores the parameters. If there are parameters already, they are overwritten in place.
    fn keep_parameters(&mut self, prm: &PrmLent<'_>)
        requires { length prm.now.user.now ≤ most_user_parameters }
        ensures { self.new ≡ with_slave self.old (record self.old.slave { prm = Some (prm_lent prm.now) }) }
    {
        match &mut self.prm {
            Some(kept) => prm.keep_in(kept),
            None => self.keep_first_parameters(prm),
        }
    }

    /// Stores the parameters of a slave that has none.
    fn keep_first_parameters(&mut self, prm: &PrmLent<'_>)
        requires { length prm.now.user.now ≤ most_user_parameters }
        ensures { self.new ≡ with_slave self.old (record self.old.slave { prm = Some (prm_lent prm.now) }) }
    {
        self.prm = Some(prm.kept());
    }

    /// Refuses parameters: releases the slave, and reports the fault in its diagnosis.
    #[tactic(auto, unfolding(crate::specs::Fields::acted, crate::specs::SlaveRecord::released))]
    fn refuse_parameters(&mut self, not_supported: bool)
        ensures { self.new ≡ with_slave self.old (acted self.old.slave (faults not_supported)) }
    {
        self.release();
        self.diag.prm_fault = true;
        self.diag.cfg_fault = false;
        self.diag.not_supported = not_supported;
    }

    /// Unlocks the slave, which releases it.
    #[tactic(auto, unfolding(crate::specs::Fields::acted, crate::specs::SlaveRecord::released))]
    fn unlock(&mut self)
        ensures { self.new ≡ with_slave self.old (acted self.old.slave unlocks) }
    {
        self.release();
    }

    /// Sets only min TSDR, which 0 leaves unchanged. If the sender holds the slave, the watchdog
    /// gets its full time again.
    #[tactic(auto, unfolding(crate::specs::Fields::acted))]
    fn set_min_tsdr(&mut self, sender: u8, min_tsdr: u8)
        ensures { self.new ≡ with_slave self.old (acted self.old.slave (sets_min_tsdr sender min_tsdr)) }
    {
        if min_tsdr != 0 {
            self.min_tsdr = min_tsdr;
        }
        if self.is_held_by(sender) {
            self.left = self.left_again();
        }
    }

    /// Executes Chk_Cfg with these octets. If they are a configuration of the slave, data exchange
    /// begins, and the lengths of this configuration are in force. Else the slave is released with
    /// the fault. The request is always answered without data.
    pub fn chk_cfg(&mut self, octets: &[u8])
        ensures { self.new ≡ with_slave self.old (acted self.old.slave (chk_cfg_act self.old.slave octets.now)) }
    {
        match choose(&self.configurations, octets) {
            Some(number) => self.configure(number),
            None => self.refuse_configuration(),
        }
    }

    /// Puts the good configuration of this number in force: data are exchanged from now on.
    #[tactic(auto, unfolding(crate::specs::Fields::acted))]
    fn configure(&mut self, number: u8)
        ensures { self.new ≡ with_slave self.old (acted self.old.slave (configures number)) }
    {
        if number != self.shape {
            self.reshape(number);
        }
        let (holder, out_len) = (self.points.holder(), self.points.out_len());
        let cleared = self.points.empty();
        self.points
            .move_to(State::DataExch, holder, out_len, cleared);
        self.cfg = Some(number);
        self.diag.cfg_fault = false;
        self.left = self.left_again();
    }

    /// Puts the shape of this number in force: cuts the inputs and the frozen inputs or fills them with zeros,
    /// sets outputs and latest data to zeros, ends both modes, and marks the slave as not cleared.
    fn reshape(&mut self, number: u8)
        ensures { self.new ≡ with_slave self.old (reshaped self.old.slave number) }
    {
        let (input_length, output_length) = data_lengths(&self.configurations, number);
        let (state, holder) = (self.points.state(), self.points.holder());
        self.points.move_to(state, holder, output_length, false);
        self.shape = number;
        self.inputs.resize(input_length);
        self.frozen_inputs.resize(input_length);
        self.outputs = DataOctets::zeros(output_length);
        self.latest = DataOctets::zeros(output_length);
        self.sync_mode = false;
        self.freeze_mode = false;
    }

    /// Refuses a configuration that the slave doesn't have: releases the slave with the fault.
    #[tactic(auto, unfolding(crate::specs::Fields::acted, crate::specs::SlaveRecord::released))]
    fn refuse_configuration(&mut self)
        ensures { self.new ≡ with_slave self.old (acted self.old.slave misconfigures) }
    {
        self.release();
        self.diag.cfg_fault = true;
    }

    /// Executes Data_Exchange with as many octets as the slave has outputs: they are put out, or
    /// wait in sync mode. A cleared slave also takes an empty request, which stands for zeros. Any
    /// other length never arrives, because the verdict refuses it. The reply has the inputs of
    /// `rd_inp`. Returns true if the reply is of high priority, because a diagnosis is due.
    ///
    /// It has no precondition: octets of any other number have the effect of none. Without outputs, an empty
    /// request is one of the whole length, so it ends that a fail-safe slave is cleared.
    pub fn data_exchange(&mut self, octets: &[u8]) -> bool
        ensures slave { self.new ≡ with_slave self.old (acted self.old.slave (exchange_act self.old.slave octets.now)) }
        ensures high { result ≡ is_due_high self.old.slave.diag }
    {
        let high = self.diag.due_high();
        if octets.len() == self.outputs.as_slice().len() {
            self.exchange(octets);
        } else {
            self.exchange_none();
        }
        high
    }

    /// Takes data of the whole length.
    #[tactic(auto, unfolding(crate::specs::Fields::acted))]
    fn exchange(&mut self, octets: &[u8])
        requires { length octets.now ≡ output_length self.old.slave }
        ensures { self.new ≡ with_slave self.old (acted self.old.slave (exchanges octets.now)) }
    {
        self.latest.set(octets);
        if !self.sync_mode {
            self.outputs.set(octets);
        }
        if self.points.empty() {
            self.mark_cleared(false);
        }
        self.left = self.left_again();
    }

    /// Takes an empty request, which stands for zeros.
    #[tactic(auto, unfolding(crate::specs::Fields::acted))]
    fn exchange_none(&mut self)
        ensures { self.new ≡ with_slave self.old (acted self.old.slave exchanges_none) }
    {
        self.latest.clear();
        if !self.sync_mode {
            self.outputs.clear();
        }
        self.left = self.left_again();
    }

    /// Marks the slave as cleared, so that it also takes an empty Data_Exchange, or as not cleared.
    pub(crate) fn mark_cleared(&mut self, cleared: bool)
        ensures { self.new ≡ with_slave self.old (record self.old.slave { cleared = cleared }) }
    {
        let (state, holder, out_len) = (
            self.points.state(),
            self.points.holder(),
            self.points.out_len(),
        );
        self.points.move_to(state, holder, out_len, cleared);
    }

    /// Executes Slave_Diag by the sender: returns the 6 to 244 octets of the diagnosis. If the
    /// sender holds the slave, the diagnosis is read then, and the watchdog gets its full time
    /// again. Another master changes nothing.
    pub fn slave_diag(&mut self, sender: u8) -> ArrayVec<u8, MOST_DATA>
        ensures slave { self.new ≡ with_slave self.old (acted self.old.slave (sends_diagnosis sender)) }
        ensures octets { result.items ≡ diagnosis_text (diag_facts self.old.slave) }
    {
        let mut octets = ArrayVec::new();
        self.slave_diag_into(sender, &mut octets);
        octets
    }

    /// Executes Slave_Diag, and writes its octets to `octets`. See [`Slave::slave_diag`].
    #[tactic(auto, unfolding(crate::specs::Fields::acted))]
    pub fn slave_diag_into(&mut self, sender: u8, octets: &mut ArrayVec<u8, MOST_DATA>)
        ensures slave { self.new ≡ with_slave self.old (acted self.old.slave (sends_diagnosis sender)) }
        ensures octets { octets.new.items ≡ diagnosis_text (diag_facts self.old.slave) }
    {
        let facts = DiagFactsLent {
            state: self.points.state(),
            holder: self.points.holder(),
            ident: self.description.ident,
            wd_on: self.left.is_some(),
            freeze_mode: self.freeze_mode,
            sync_mode: self.sync_mode,
            diag: &self.diag,
        };
        dp_diag::octets_lent_into(&facts, octets);
        if self.is_held_by(sender) {
            self.diag.unread = false;
            self.left = self.left_again();
        }
    }

    /// Returns true if the master holds the slave.
    pub(crate) fn is_held_by(&self, master: u8) -> bool
        ensures { result ≡ is_held_by_master master self.now.slave }
    {
        self.points.holder() == Some(master)
    }

    /// Returns the full time of its watchdog, in units of 10 ms, if it runs.
    pub(crate) fn left_again(&self) -> Option<u32>
        ensures { result ≡ left_again_of self.now.slave }
    {
        match &self.prm {
            Some(prm) if self.left.is_some() => prm.watchdog,
            _ => None,
        }
    }

    /// Releases the slave, whatever its state.
    #[tactic(auto, unfolding(crate::specs::SlaveRecord::released))]
    pub fn release(&mut self)
        ensures { self.new ≡ with_slave self.old (released self.old.slave) }
    {
        let out_len = self.points.out_len();
        self.points.move_to(State::WaitPrm, None, out_len, false);
        self.since = 0;
        self.prm = None;
        self.cfg = None;
        self.outputs.clear();
        self.latest.clear();
        self.sync_mode = false;
        self.freeze_mode = false;
        self.left = None;
    }
}
