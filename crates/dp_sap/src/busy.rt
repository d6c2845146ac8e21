//! The busy marks of a slave's points.
//!
//! The marks are a record of eight named fields. The length of a list would be hidden, and then
//! nobody could conclude that a point is busy after `set_busy`.

ghost use Rattle.std.specs.Prelude.{◌≡◌};
ghost use Rattle.dp_sap.specs.AccessTable.{is_busy, is_in_table, no_marks, with_mark};

use crate::point::{CHK_CFG, GET_CFG, GLOBAL_CONTROL, RD_INP, RD_OUTP, SET_PRM, SLAVE_DIAG};
use std::marker::Model;

/// A busy mark for each point of the access table (own).
#[derive(Debug, Drop)]
pub struct BusyMarks {
    /// The default point, Data_Exchange.
    pub data_exchange: bool,
    /// RD_Inp.
    pub rd_inp: bool,
    /// RD_Outp.
    pub rd_outp: bool,
    /// Global_Control.
    pub global_control: bool,
    /// Get_Cfg.
    pub get_cfg: bool,
    /// Slave_Diag.
    pub slave_diag: bool,
    /// Set_Prm.
    pub set_prm: bool,
    /// Chk_Cfg.
    pub chk_cfg: bool,
}

impl Model for BusyMarks {
    ghost use Rattle.dp_sap.specs.AccessTable as table;

    ghost Value = { table.BusyMarks };

    ghost view = { λ m. record {
      data_exchange = m.data_exchange;
      rd_inp = m.rd_inp;
      rd_outp = m.rd_outp;
      global_control = m.global_control;
      get_cfg = m.get_cfg;
      slave_diag = m.slave_diag;
      set_prm = m.set_prm;
      chk_cfg = m.chk_cfg;
    } };
}

impl BusyMarks {
    /// Returns the marks with no point busy.
    pub(crate) fn none() -> BusyMarks
        ensures { result ≡ no_marks }
    {
        BusyMarks {
            data_exchange: false,
            rd_inp: false,
            rd_outp: false,
            global_control: false,
            get_cfg: false,
            slave_diag: false,
            set_prm: false,
            chk_cfg: false,
        }
    }

    /// Returns a copy.
    pub fn copied(&self) -> BusyMarks
        ensures { result ≡ self.now }
    {
        BusyMarks {
            data_exchange: self.data_exchange,
            rd_inp: self.rd_inp,
            rd_outp: self.rd_outp,
            global_control: self.global_control,
            get_cfg: self.get_cfg,
            slave_diag: self.slave_diag,
            set_prm: self.set_prm,
            chk_cfg: self.chk_cfg,
        }
    }

    /// Returns whether the point is busy. A point outside the table never is.
    pub(crate) fn is_busy(&self, number: Option<u8>) -> bool
        ensures { result ≡ is_busy self.now number }
    {
        match number {
            None => self.data_exchange,
            Some(RD_INP) => self.rd_inp,
            Some(RD_OUTP) => self.rd_outp,
            Some(GLOBAL_CONTROL) => self.global_control,
            Some(GET_CFG) => self.get_cfg,
            Some(SLAVE_DIAG) => self.slave_diag,
            Some(SET_PRM) => self.set_prm,
            Some(CHK_CFG) => self.chk_cfg,
            Some(_) => false,
        }
    }

    /// Sets or clears the mark of the point. Returns whether the table has the point; if it has
    /// not, nothing changes.
    pub(crate) fn set(&mut self, number: Option<u8>, busy: bool) -> bool
        ensures known { result ≡ is_in_table number }
        ensures set { self.new ≡ with_mark self.old number busy }
    {
        match number {
            None => self.data_exchange = busy,
            Some(RD_INP) => self.rd_inp = busy,
            Some(RD_OUTP) => self.rd_outp = busy,
            Some(GLOBAL_CONTROL) => self.global_control = busy,
            Some(GET_CFG) => self.get_cfg = busy,
            Some(SLAVE_DIAG) => self.slave_diag = busy,
            Some(SET_PRM) => self.set_prm = busy,
            Some(CHK_CFG) => self.chk_cfg = busy,
            Some(_) => return false,
        }
        true
    }
}
