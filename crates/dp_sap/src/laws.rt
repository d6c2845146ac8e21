//! Laws of the access table: each is the contract of an empty function.

ghost use Rattle.std.specs.Prelude.{◌≡◌, ◌≢◌, ◌≤◌, ◌↔◌, ℕ, Option, Some, None, Bool, true, false, [], ◌∷◌, All, Contains, IsSome};
ghost use Rattle.dp_sap.specs.AccessTable.{BusyMarks, PointsView, Row, access_row, access_table, column_in, get_cfg, holder, is_busy, is_in_table, row_of, set_prm, slave_diag, with_mark};
ghost use Rattle.dp_sap.specs.declared.state.State.{State};

/// A point that its row opens only to the holder is off while there is no holder, in each state.
pub fn no_holder_is_off()
    ensures { (points : PointsView) (number : Option ℕ) (row : Row)
        → row_of points.out_len number ≡ Some row
        → column_in points.state row ≡ holder
        → points.holder ≡ None
        → access_row points number ≡ None }
{}

/// In Wait_Prm exactly Get_Cfg, Slave_Diag and Set_Prm are on, whoever holds the slave.
pub fn wait_prm_opens_three()
    ensures { (points : PointsView) (number : Option ℕ)
        → points.state ≡ State.WaitPrm
        → IsSome (access_row points number) ↔ Contains (get_cfg ∷ slave_diag ∷ set_prm ∷ []) number }
{}

/// No row has a least number of data octets that is above its greatest.
pub fn least_is_at_most_most()
    ensures { (out_len : ℕ) → All (λ row. row.least ≤ row.most) (access_table out_len) }
{}

/// A number outside the table is off in each state, and never busy.
pub fn outside_the_table_is_off()
    ensures off { (points : PointsView) (number : Option ℕ)
        → is_in_table number ≡ false
        → access_row points number ≡ None }
    ensures idle { (marks : BusyMarks) (number : Option ℕ)
        → is_in_table number ≡ false
        → is_busy marks number ≡ false }
{}

/// Setting or clearing the mark of a point takes effect for this point and changes no other mark.
pub fn a_mark_is_of_one_point()
    ensures own { (marks : BusyMarks) (number : Option ℕ) (busy : Bool)
        → is_in_table number ≡ true
        → is_busy (with_mark marks number busy) number ≡ busy }
    ensures others { (marks : BusyMarks) (number other : Option ℕ) (busy : Bool)
        → number ≢ other
        → is_busy (with_mark marks number busy) other ≡ is_busy marks other }
{}
