//! The service access points of a slave.

ghost use Rattle.std.specs.Prelude.{◌≡◌, ℕ, is_some, is_ok, IfSome, IfErr, OnOk, OnErr};
ghost use Rattle.std.specs.Option.{option_and_then};
ghost use Rattle.dp_sap.specs.AccessTable.{access_row, admitted, column_in, is_busy, is_in_table, is_listed, row_of, unmarked, with_mark};

use crate::busy::BusyMarks;
use crate::fault::SapFault;
use crate::lists::Lists;
use crate::point::{
    Access, CHK_CFG, GET_CFG, GLOBAL_CONTROL, MOST_DATA, Point, RD_INP, RD_OUTP, SET_PRM,
    SLAVE_DIAG, Service,
};
use crate::state::State;
use std::marker::Model;

/// The service access points of a slave: its state, its holder and its output length, which decide
/// which points are on and how many octets they take; whether Data_Exchange may also be empty; a
/// busy mark for each point of the access table; and the lists of masters (own).
#[derive(Debug, Drop)]
pub struct Points {
    state: State,
    holder: Option<u8>,
    out_len: u8,
    empty: bool,
    busy: BusyMarks,
    lists: Lists,
}

impl Model for Points {
    ghost use Rattle.dp_sap.specs.AccessTable.{PointsView};

    ghost Value = { PointsView };

    ghost view = { λ p. record {
      state = p.state;
      holder = p.holder;
      out_len = p.out_len;
      empty = p.empty;
      busy = p.busy;
      lists = p.lists;
    } };
}

impl Points {
    /// Returns the points of a slave in this state, none of them busy. `holder` is the address of
    /// the master that holds it, 0 to 126, or `None` if nobody does. `out_len` is its output
    /// length, 0 to 244 octets. With `empty` the default point takes either that number of octets
    /// or none. The lists are copied.
    pub fn at_state(
        state: State,
        holder: Option<u8>,
        out_len: u8,
        empty: bool,
        lists: &Lists,
    ) -> Points
        ensures { result ≡ unmarked state holder out_len empty lists.now }
    {
        Points {
            state,
            holder,
            out_len,
            empty,
            busy: BusyMarks::none(),
            lists: lists.clone().unwrap(),
        }
    }

    /// Sets the slave's state, its holder, 0 to 126 or `None`, and its output length, 0 to 244
    /// octets. With `empty` the default point takes either that number of octets or none. The busy
    /// marks and the lists stay.
    pub fn move_to(&mut self, state: State, holder: Option<u8>, out_len: u8, empty: bool)
        ensures { self.new ≡ record self.old { state = state; holder = holder; out_len = out_len; empty = empty } }
    {
        self.state = state;
        self.holder = holder;
        self.out_len = out_len;
        self.empty = empty;
    }

    /// Returns the slave's state.
    pub const fn state(&self) -> State
        ensures { result ≡ self.now.state }
    {
        self.state
    }

    /// Returns the address of the master that holds the slave, 0 to 126; `None` if nobody does.
    pub const fn holder(&self) -> Option<u8>
        ensures { result ≡ self.now.holder }
    {
        self.holder
    }

    /// Returns the slave's output length, 0 to 244 octets.
    pub const fn out_len(&self) -> u8
        ensures { result ≡ self.now.out_len }
    {
        self.out_len
    }

    /// Returns whether the default point takes either as many octets as the output length or none.
    pub const fn empty(&self) -> bool
        ensures { result ≡ self.now.empty }
    {
        self.empty
    }

    /// Returns the busy marks.
    pub const fn busy(&self) -> &BusyMarks
        ensures { result.now ≡ self.now.busy }
    {
        &self.busy
    }

    /// Replaces all busy marks.
    pub fn set_marks(&mut self, marks: BusyMarks)
        ensures { self.new ≡ record self.old { busy = marks } }
    {
        self.busy = marks;
    }

    /// Returns whether the lists of the slave let the sender, 0 to 126, use the point of this
    /// number, which is any octet or `None` for the default point.
    ///
    /// False exactly in two cases: at Set_Prm, if the sender is not on the list of lockers; and at
    /// RD_Inp and RD_Outp, if it is neither on the list of readers nor the holder. A list that is
    /// `None` excludes nobody. Whether the point is on does not matter.
    pub fn listed(&self, number: Option<u8>, sender: u8) -> bool
        ensures { result ≡ is_listed self.now number sender }
    {
        match number {
            Some(SET_PRM) => self.lists.let_lock(sender),
            Some(RD_INP | RD_OUTP) => self.lists.let_read(sender) || self.holder == Some(sender),
            _ => true,
        }
    }

    /// Returns the point of this number, which is any octet or `None` for the default point: its
    /// row of the access table with its busy mark, and whether it may be empty. A number outside
    /// the table gives a point that is off and not busy.
    ///
    /// If a point is off, only `active` and `busy` have a meaning.
    pub fn find(&self, number: Option<u8>) -> Point
        ensures on { IfSome (access_row self.now number) (λ point. result ≡ point) }
        ensures active { result.active ≡ is_some (access_row self.now number) }
        ensures busy { result.busy ≡ is_busy self.now.busy number }
    {
        let access = admitted_at(self.state, self.holder, number);
        let (service, least, most) = request_at(number, self.out_len);
        Point {
            active: access.is_some(),
            access: access.unwrap_or(Access::All),
            service,
            least,
            most,
            empty: number.is_none() && self.empty,
            busy: self.busy.is_busy(number),
        }
    }

    /// Marks the point of this number as busy or as not busy, in each state and also if the point
    /// is off. The number is any octet or `None` for the default point. Returns `UnknownPoint`
    /// exactly for a number that is not in the access table; then nothing changes.
    pub fn set_busy(&mut self, number: Option<u8>, busy: bool) -> Result<(), SapFault>
        ensures known { is_ok result ≡ is_in_table number }
        ensures unknown { IfErr result (λ fault. fault ≡ SapFault.UnknownPoint) }
        ensures ok { OnOk result (self.new ≡ record self.old { busy = with_mark self.old.busy number busy }) }
        ensures err { OnErr result (self.new ≡ self.old) }
    {
        if self.busy.set(number, busy) {
            Ok(())
        } else {
            Err(SapFault::UnknownPoint)
        }
    }
}

/// Returns the masters whose requests the point takes; `None` if it is off.
fn admitted_at(state: State, holder: Option<u8>, number: Option<u8>) -> Option<Access>
    ensures { (out_len : ℕ)
        → result ≡ option_and_then (λ row. admitted (column_in state row) holder) (row_of out_len number) }
{
    match (state, number) {
        (_, Some(GET_CFG | SLAVE_DIAG))
        | (State::WaitPrm, Some(SET_PRM))
        | (State::DataExch, Some(RD_INP | RD_OUTP)) => Some(Access::All),
        (State::WaitCfg | State::DataExch, Some(SET_PRM | CHK_CFG))
        | (State::DataExch, None | Some(GLOBAL_CONTROL)) => holder.map(Access::Only),
        _ => None,
    }
}

/// Returns the service of the point, and the least and the greatest number of data octets.
fn request_at(number: Option<u8>, out_len: u8) -> (Service, u8, u8)
    ensures { IfSome (row_of out_len number) (λ row. result ≡ (row.service, row.least, row.most)) }
{
    match number {
        None => (Service::Srd, out_len, out_len),
        Some(GLOBAL_CONTROL) => (Service::Sdn, 2, 2),
        Some(SET_PRM | CHK_CFG) => (Service::Srd, 0, MOST_DATA as u8),
        Some(_) => (Service::Srd, 0, 0),
    }
}
