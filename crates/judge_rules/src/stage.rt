//! How far a master has brought up a station, as its requests and their replies show.

ghost use Rattle.std.specs.Prelude.{◌≡◌};
ghost use Rattle.judge_rules.specs.ExchangeRules.{may_exchange};
ghost use Rattle.judge_rules.specs.Stages.{stage_after, after_diag, after_chk_cfg, after_exchange, after_prm, is_parametrized, refused, shown_by, shown_ready, shown_unready};

use crate::entry::{Answer, Asked, Diagnosis, Parameters, Request};

/// How far a master has brought up a station (IEC 61158-6-3, bring-up of a slave).
#[derive(Clone, Copy, Debug, PartialEq, Eq)]
pub(crate) enum Stage {
    /// No Slave_Diag was answered yet.
    Unseen,
    /// A diagnosis was read, and the station needs parameters.
    Idle,
    /// The last diagnosis showed another master.
    Taken,
    /// Set_Prm was acknowledged.
    Parametrized,
    /// Chk_Cfg was acknowledged, and no diagnosis was read since.
    Configured,
    /// The diagnosis after Chk_Cfg said that the station is not ready.
    NotReady,
    /// The diagnosis after Chk_Cfg said that the station is ready.
    Ready,
    /// Data_Exchange was answered with data.
    Exchanging,
    /// Data_Exchange was refused by RS, and no diagnosis was read since.
    Lost,
}

impl Stage {
    /// Returns whether Set_Prm was acknowledged, and nothing has shown since that the station lost the parameters.
    pub(crate) fn is_parametrized(self) -> bool
        ensures { result ≡ is_parametrized self }
    {
        match self {
            Stage::Unseen => false,
            Stage::Idle => false,
            Stage::Taken => false,
            Stage::Parametrized => true,
            Stage::Configured => true,
            Stage::NotReady => true,
            Stage::Ready => true,
            Stage::Exchanging => true,
            Stage::Lost => false,
        }
    }

    /// Returns whether the last diagnosis said that the station is ready, or Data_Exchange was answered with data.
    pub(crate) fn may_exchange(self) -> bool
        ensures { result ≡ may_exchange self }
    {
        match self {
            Stage::Unseen => false,
            Stage::Idle => false,
            Stage::Taken => false,
            Stage::Parametrized => false,
            Stage::Configured => false,
            Stage::NotReady => false,
            Stage::Ready => true,
            Stage::Exchanging => true,
            Stage::Lost => false,
        }
    }

    /// Returns the stage after a request to the station.
    pub(crate) fn after(self, request: &Request) -> Stage
        ensures { result ≡ stage_after self request.now }
    {
        if let Some(parameters) = request.asks_prm() {
            return self.after_prm(parameters, request.answer);
        }
        if request.asks_diag() {
            return self.after_diag(request.answer);
        }
        if request.asks_chk_cfg() {
            return self.after_chk_cfg(request.answer);
        }
        if request.asks_exchange() {
            return self.after_exchange(request.answer);
        }
        self
    }

    /// Returns the stage after a Set_Prm that was answered so.
    fn after_prm(self, parameters: Parameters, answer: Answer) -> Stage
        ensures { result ≡ after_prm self parameters.asked answer }
    {
        if !answer.is_done() {
            return self;
        }
        match parameters.asked {
            Asked::Lock => Stage::Parametrized,
            Asked::Unlock => Stage::Idle,
            Asked::MinTsdr => self,
            Asked::Short => Stage::Idle,
        }
    }

    /// Returns the stage after a Slave_Diag that was answered so.
    fn after_diag(self, answer: Answer) -> Stage
        ensures { result ≡ after_diag self answer }
    {
        match answer.diagnosis() {
            Some(diagnosis) => self.shown_by(diagnosis),
            None => self,
        }
    }

    /// Returns the stage after a diagnosis.
    fn shown_by(self, diagnosis: Diagnosis) -> Stage
        ensures { result ≡ shown_by self diagnosis }
    {
        if diagnosis.is_of_other {
            return Stage::Taken;
        }
        if diagnosis.needs_parameters {
            return Stage::Idle;
        }
        if diagnosis.is_ready {
            self.shown_ready()
        } else {
            self.shown_unready()
        }
    }

    /// Returns the stage after a diagnosis that says that the station is ready.
    fn shown_ready(self) -> Stage
        ensures { result ≡ shown_ready self }
    {
        match self {
            Stage::Unseen => Stage::Idle,
            Stage::Idle => Stage::Idle,
            Stage::Taken => Stage::Idle,
            Stage::Parametrized => Stage::Parametrized,
            Stage::Configured => Stage::Ready,
            Stage::NotReady => Stage::Ready,
            Stage::Ready => Stage::Ready,
            Stage::Exchanging => Stage::Exchanging,
            Stage::Lost => Stage::Idle,
        }
    }

    /// Returns the stage after a diagnosis that says that the station has parameters, and is not ready.
    fn shown_unready(self) -> Stage
        ensures { result ≡ shown_unready self }
    {
        match self {
            Stage::Unseen => Stage::Idle,
            Stage::Idle => Stage::Idle,
            Stage::Taken => Stage::Idle,
            Stage::Parametrized => Stage::Parametrized,
            Stage::Configured => Stage::NotReady,
            Stage::NotReady => Stage::NotReady,
            Stage::Ready => Stage::NotReady,
            Stage::Exchanging => Stage::NotReady,
            Stage::Lost => Stage::Idle,
        }
    }

    /// Returns the stage after a Chk_Cfg that was answered so.
    fn after_chk_cfg(self, answer: Answer) -> Stage
        ensures { result ≡ after_chk_cfg self answer }
    {
        if answer.is_done() && self.is_parametrized() {
            Stage::Configured
        } else {
            self
        }
    }

    /// Returns the stage after a Data_Exchange that was answered so.
    fn after_exchange(self, answer: Answer) -> Stage
        ensures { result ≡ after_exchange self answer }
    {
        match answer {
            Answer::Done => Stage::Exchanging,
            Answer::Dh => Stage::Exchanging,
            Answer::Rs => self.refused(),
            Answer::Silence => self,
            Answer::NoneSelected => self,
            Answer::Repeat => self,
            Answer::Rr => self,
            Answer::Ue => self,
            Answer::Diagnosis(_) => self,
        }
    }

    /// Returns the stage after a Data_Exchange that was refused by RS. Before the station was ready, RS says nothing new.
    fn refused(self) -> Stage
        ensures { result ≡ refused self }
    {
        match self {
            Stage::Unseen => Stage::Unseen,
            Stage::Idle => Stage::Idle,
            Stage::Taken => Stage::Taken,
            Stage::Parametrized => Stage::Parametrized,
            Stage::Configured => Stage::Lost,
            Stage::NotReady => Stage::NotReady,
            Stage::Ready => Stage::Lost,
            Stage::Exchanging => Stage::Lost,
            Stage::Lost => Stage::Lost,
        }
    }
}
