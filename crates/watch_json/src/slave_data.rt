//! The process data, the modes and the diagnosis of a slave as JSON.

ghost use Rattle.std.specs.Prelude.{Some};
ghost use Rattle.watch_json.specs.Slaves.{content_json, data_json, diagnosis_json, faults_json, modes_json, report_json};

use crate::values::Octets;
use dp_diag::Diag;
use dp_slave::SlaveView;
use explain_texts::truth_name;
use std::fmt;

/// The process data.
#[derive(Clone, Copy)]
struct Data<'a>(&'a SlaveView);

impl<'a> fmt::Display for Data<'a> {
    ghost output = { λ s. Some (data_json s.0.now) };

    #[tactic(auto, unfolding(crate::specs::Slaves::data_json))]
    fn fmt<W: fmt::Write>(&self, f: &mut fmt::Formatter<W>) -> fmt::Result {
        let inputs = Octets(self.0.inputs.as_slice());
        let shown = Octets(self.0.shown.as_slice());
        let outputs = Octets(self.0.outputs.as_slice());
        let latest = Octets(self.0.latest.as_slice());
        write!(
            f,
            "\"inputs\":{inputs},\"shown\":{shown},\"outputs\":{outputs},\"latest\":{latest}"
        )
    }
}

/// The modes that Global_Control set.
#[derive(Clone, Copy)]
struct Modes<'a>(&'a SlaveView);

impl<'a> fmt::Display for Modes<'a> {
    ghost output = { λ s. Some (modes_json s.0.now) };

    #[tactic(auto, unfolding(crate::specs::Slaves::modes_json))]
    fn fmt<W: fmt::Write>(&self, f: &mut fmt::Formatter<W>) -> fmt::Result {
        let sync = truth_name(self.0.sync_mode);
        let freeze = truth_name(self.0.freeze_mode);
        let cleared = truth_name(self.0.cleared);
        write!(
            f,
            "\"sync\":{sync},\"freeze\":{freeze},\"cleared\":{cleared}"
        )
    }
}

/// What the application reported.
#[derive(Clone, Copy)]
struct Report<'a>(&'a Diag);

impl<'a> fmt::Display for Report<'a> {
    ghost output = { λ s. Some (report_json s.0.now) };

    #[tactic(auto, unfolding(crate::specs::Slaves::report_json))]
    fn fmt<W: fmt::Write>(&self, f: &mut fmt::Formatter<W>) -> fmt::Result {
        let ext = truth_name(self.0.ext);
        let stat = truth_name(self.0.stat);
        let overflow = truth_name(self.0.overflow);
        let unread = truth_name(self.0.unread);
        write!(
            f,
            "\"ext_diag\":{ext},\"stat_diag\":{stat},\"overflow\":{overflow},\"unread\":{unread}"
        )
    }
}

/// The faults of its last requests.
#[derive(Clone, Copy)]
struct Faults<'a>(&'a Diag);

impl<'a> fmt::Display for Faults<'a> {
    ghost output = { λ s. Some (faults_json s.0.now) };

    #[tactic(auto, unfolding(crate::specs::Slaves::faults_json))]
    fn fmt<W: fmt::Write>(&self, f: &mut fmt::Formatter<W>) -> fmt::Result {
        let prm = truth_name(self.0.prm_fault);
        let cfg = truth_name(self.0.cfg_fault);
        let not_supported = truth_name(self.0.not_supported);
        write!(
            f,
            "\"prm_fault\":{prm},\"cfg_fault\":{cfg},\"not_supported\":{not_supported}"
        )
    }
}

/// The diagnosis.
#[derive(Clone, Copy)]
struct Diagnosis<'a>(&'a Diag);

impl<'a> fmt::Display for Diagnosis<'a> {
    ghost output = { λ s. Some (diagnosis_json s.0.now) };

    #[tactic(auto, unfolding(crate::specs::Slaves::diagnosis_json))]
    fn fmt<W: fmt::Write>(&self, f: &mut fmt::Formatter<W>) -> fmt::Result {
        let report = Report(self.0);
        let faults = Faults(self.0);
        let octets = Octets(self.0.octets.as_slice());
        write!(f, "{{{report},{faults},\"octets\":{octets}}}")
    }
}

/// Its data, its modes and its diagnosis.
#[derive(Clone, Copy)]
pub(crate) struct Content<'a>(pub(crate) &'a SlaveView);

impl<'a> fmt::Display for Content<'a> {
    ghost output = { λ s. Some (content_json s.0.now) };

    #[tactic(auto, unfolding(crate::specs::Slaves::content_json))]
    fn fmt<W: fmt::Write>(&self, f: &mut fmt::Formatter<W>) -> fmt::Result {
        let data = Data(self.0);
        let modes = Modes(self.0);
        let diagnosis = Diagnosis(&self.0.diag);
        write!(f, "{data},{modes},\"diagnosis\":{diagnosis}")
    }
}
