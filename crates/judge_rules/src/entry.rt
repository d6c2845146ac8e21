//! What the rules read of an entry of a journal.

ghost use Rattle.std.specs.Prelude.{◌≡◌};
ghost use Rattle.judge_rules.specs.Entries.{chk_cfg_asked, diag_asked, diag_read, diagnosis_in, exchange_asked, is_answered, is_dh, is_done, is_exchanged, is_none_selected, is_repeat_answer, is_rr, is_rs, is_served, is_srd, is_ue, prm_asked};

use dp_telegram::{Function, GLOBAL_ADDRESS, Octets};

/// An entry of one master.
#[derive(Debug, Drop)]
pub enum Entry {
    /// A telegram that is a request of the master.
    Request(Request),
    /// A token that the master passes on to the station of this address, 0 to 126 (IEC 61158-4-3, token passing), also
    /// one to itself, as a master that is alone in the ring passes it. It is not one of the hundred entries of `no-request`.
    PassedToken(u8),
    /// Octets that are no request of the master: no frame, a short acknowledgement, a token that is not passed on, a
    /// response, a telegram with the source address of another station, or one without an extension octet that it
    /// announces.
    Stray,
}

/// A request of a master, and its answer.
#[derive(Debug, Drop)]
pub struct Request {
    /// The destination address, 0 to 127; 127 stands for all stations.
    pub address: u8,
    /// The function that FC names.
    pub function: Function,
    /// FCB, the frame count bit.
    pub fcb: bool,
    /// FCV, whether the frame count bit is valid.
    pub fcv: bool,
    /// The service of the access point that it names.
    pub service: Service,
    /// SSAP, the access point of the master; None if it names none.
    pub ssap: Option<u8>,
    /// The octets behind the access points.
    pub payload: Payload,
    /// The octets of the whole frame.
    pub octets: Octets,
    /// The sum of the ticks before it, in units of 10 ms.
    pub time: u64,
    /// The answer.
    pub answer: Answer,
}

/// The octets of a request behind its access points.
#[derive(Clone, Copy, Debug, PartialEq, Eq)]
pub struct Payload {
    /// How many there are.
    pub count: usize,
    /// Whether each of them is 0.
    pub is_zero: bool,
    /// Whether they begin with two access points that a master names together: one of a slave, 55 to 62, and 62.
    pub has_points: bool,
}

/// The service of DP-V0 that an access point names (IEC 61158-6-3, service access points).
#[derive(Clone, Copy, Debug, PartialEq, Eq)]
pub enum Service {
    /// Data_Exchange, the default point.
    DataExchange,
    /// The functions between masters, point 54, which no simulated slave has.
    MasterToMaster,
    /// Set_Slave_Add, point 55, which no simulated slave has.
    SetSlaveAdd,
    /// RD_Inp, point 56.
    RdInp,
    /// RD_Outp, point 57.
    RdOutp,
    /// Global_Control, point 58.
    GlobalControl(Control),
    /// Get_Cfg, point 59.
    GetCfg,
    /// Slave_Diag, point 60.
    SlaveDiag,
    /// Set_Prm, point 61.
    SetPrm(Parameters),
    /// Chk_Cfg, point 62.
    ChkCfg,
    /// A point that DP-V0 does not have.
    Unknown,
}

/// The bits of Control_Command, and the groups (IEC 61158-6-3, Global_Control request).
#[derive(Clone, Copy, Debug, PartialEq, Eq)]
pub struct Control {
    /// Bit 1, Clear_Data.
    pub clear: bool,
    /// Bit 2.
    pub unfreeze: bool,
    /// Bit 3.
    pub freeze: bool,
    /// Bit 4.
    pub unsync: bool,
    /// Bit 5.
    pub sync: bool,
    /// Whether bit 0, 6 or 7 is set.
    pub reserved: bool,
    /// Whether Group_Select is 0: it selects the slaves of all groups.
    pub is_to_all_groups: bool,
}

/// What the octets of a Set_Prm ask for (IEC 61158-6-3, Set_Prm request).
#[derive(Clone, Copy, Debug, PartialEq, Eq)]
pub struct Parameters {
    /// What it asks for.
    pub asked: Asked,
    /// Min TSDR, in bit times; 0 leaves it.
    pub min_tsdr: u8,
    /// The watchdog time, in units of 10 ms, 1 to 65,025; None without WD_On, or with a factor 0.
    pub watchdog: Option<u32>,
    /// Whether WD_On is set, and a factor is 0.
    pub has_zero_factor: bool,
    /// Freeze_Req.
    pub freeze: bool,
    /// Sync_Req.
    pub sync: bool,
    /// Whether Lock_Req and Unlock_Req are both set.
    pub locks_and_unlocks: bool,
    /// Whether bit 0, 1 or 2 of the first octet is set.
    pub reserved: bool,
}

/// What a Set_Prm asks for, by Lock_Req and Unlock_Req.
#[derive(Clone, Copy, Debug, PartialEq, Eq)]
pub enum Asked {
    /// Lock_Req without Unlock_Req: the slave takes the parameters, and belongs to the sender.
    Lock,
    /// Unlock_Req: the slave is released.
    Unlock,
    /// Neither: only min TSDR is set.
    MinTsdr,
    /// It has fewer than seven octets.
    Short,
}

/// The answer to a request, as its sender sees it.
#[derive(Clone, Copy, Debug, PartialEq, Eq)]
pub enum Answer {
    /// No reply, as a Global_Control has none.
    Silence,
    /// No reply: the Global_Control selects no slave that its sender holds, though there is one.
    NoneSelected,
    /// The reply to the request before: the slave takes the request as a repeat.
    Repeat,
    /// RS: the service is not active, or not for the sender.
    Rs,
    /// RR: the service is busy.
    Rr,
    /// UE: the service does not take this number of octets.
    Ue,
    /// The service is done. The function of the reply is not DH.
    Done,
    /// Data_Exchange is done, and the reply is DH: a diagnosis waits.
    Dh,
    /// The reply to Slave_Diag.
    Diagnosis(Diagnosis),
}

/// What the reply to Slave_Diag says (IEC 61158-6-3, Slave_Diag response).
#[derive(Clone, Copy, Debug, PartialEq, Eq)]
pub struct Diagnosis {
    /// Master_Add is the address of another master.
    pub is_of_other: bool,
    /// Prm_Req: the slave waits for parameters.
    pub needs_parameters: bool,
    /// Station_Not_Ready is not set: the slave exchanges data.
    pub is_ready: bool,
}

impl Answer {
    /// Returns whether there was a reply.
    pub(crate) fn is_answered(self) -> bool
        ensures { result ≡ is_answered self }
    {
        match self {
            Answer::Silence => false,
            Answer::NoneSelected => false,
            Answer::Repeat => true,
            Answer::Rs => true,
            Answer::Rr => true,
            Answer::Ue => true,
            Answer::Done => true,
            Answer::Dh => true,
            Answer::Diagnosis(_) => true,
        }
    }

    /// Returns whether it is the reply to the request before.
    fn is_repeat(self) -> bool
        ensures { result ≡ is_repeat_answer self }
    {
        match self {
            Answer::Repeat => true,
            Answer::Silence => false,
            Answer::NoneSelected => false,
            Answer::Rs => false,
            Answer::Rr => false,
            Answer::Ue => false,
            Answer::Done => false,
            Answer::Dh => false,
            Answer::Diagnosis(_) => false,
        }
    }
}

impl Answer {
    /// Returns whether the service is done, with a reply that is neither DH nor a diagnosis.
    pub(crate) fn is_done(self) -> bool
        ensures { result ≡ is_done self }
    {
        matches!(self, Answer::Done)
    }

    /// Returns whether it is RR.
    fn is_rr(self) -> bool
        ensures { result ≡ is_rr self }
    {
        matches!(self, Answer::Rr)
    }

    /// Returns whether it is RS.
    pub(crate) fn is_rs(self) -> bool
        ensures { result ≡ is_rs self }
    {
        matches!(self, Answer::Rs)
    }

    /// Returns whether it is UE.
    pub(crate) fn is_ue(self) -> bool
        ensures { result ≡ is_ue self }
    {
        matches!(self, Answer::Ue)
    }

    /// Returns whether it is DH.
    pub(crate) fn is_dh(self) -> bool
        ensures { result ≡ is_dh self }
    {
        matches!(self, Answer::Dh)
    }

    /// Returns whether it says that the Global_Control selects no slave of its sender.
    pub(crate) fn is_none_selected(self) -> bool
        ensures { result ≡ is_none_selected self }
    {
        matches!(self, Answer::NoneSelected)
    }

    /// Returns what the reply to Slave_Diag says; None for every other answer.
    pub(crate) fn diagnosis(self) -> Option<Diagnosis>
        ensures { result ≡ diagnosis_in self }
    {
        match self {
            Answer::Diagnosis(diagnosis) => Some(diagnosis),
            Answer::Silence => None,
            Answer::NoneSelected => None,
            Answer::Repeat => None,
            Answer::Rs => None,
            Answer::Rr => None,
            Answer::Ue => None,
            Answer::Done => None,
            Answer::Dh => None,
        }
    }
}

impl Request {
    /// Returns whether it is an SRD.
    pub(crate) fn is_srd(&self) -> bool
        ensures { result ≡ is_srd self.now }
    {
        self.function.is_srd()
    }

    /// Returns whether it is an SRD to one station which was not answered as a repeat.
    pub(crate) fn is_served(&self) -> bool
        ensures { result ≡ is_served self.now }
    {
        self.is_srd() && self.address != GLOBAL_ADDRESS && !self.answer.is_repeat()
    }

    /// Returns whether it asks one station for Data_Exchange.
    pub(crate) fn asks_exchange(&self) -> bool
        ensures { result ≡ exchange_asked self.now }
    {
        self.is_served() && matches!(self.service, Service::DataExchange)
    }

    /// Returns whether it asks one station for Data_Exchange, and the reply has data, or acknowledges it.
    pub fn is_exchanged(&self) -> bool
        ensures { result ≡ is_exchanged self.now }
    {
        self.asks_exchange() && (self.answer.is_done() || self.answer.is_dh())
    }

    /// Returns whether it asks one station for Slave_Diag.
    pub(crate) fn asks_diag(&self) -> bool
        ensures { result ≡ diag_asked self.now }
    {
        self.is_served() && matches!(self.service, Service::SlaveDiag)
    }

    /// Returns whether it is a Slave_Diag that was answered with a diagnosis, or with RR: the slave asks to wait.
    pub(crate) fn reads_diag(&self) -> bool
        ensures { result ≡ diag_read self.now }
    {
        self.asks_diag() && (self.answer.diagnosis().is_some() || self.answer.is_rr())
    }

    /// Returns whether it asks one station for Chk_Cfg.
    pub(crate) fn asks_chk_cfg(&self) -> bool
        ensures { result ≡ chk_cfg_asked self.now }
    {
        self.is_served() && matches!(self.service, Service::ChkCfg)
    }

    /// Returns the parameters that it asks one station to take, if it is a Set_Prm.
    pub(crate) fn asks_prm(&self) -> Option<Parameters>
        ensures { result ≡ prm_asked self.now }
    {
        if !self.is_served() {
            return None;
        }
        match self.service {
            Service::SetPrm(parameters) => Some(parameters),
            Service::DataExchange => None,
            Service::MasterToMaster => None,
            Service::SetSlaveAdd => None,
            Service::RdInp => None,
            Service::RdOutp => None,
            Service::GlobalControl(_) => None,
            Service::GetCfg => None,
            Service::SlaveDiag => None,
            Service::ChkCfg => None,
            Service::Unknown => None,
        }
    }
}
