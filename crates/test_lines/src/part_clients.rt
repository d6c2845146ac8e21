//! Clients of what lines and slaves are made of: access points, configurations, and streams of octets. The prover reads
//! these functions, and nothing runs them.

ghost use Rattle.std.specs.Prelude.{◌≡◌, List, true, is_ok, IfOk, IsOkAnd, OnSome};
ghost use Rattle.dp_sap.specs.AccessTable.{is_in_table};
ghost use Rattle.dp_cfg.specs.Identifiers.{Identifier, IsSplit, input_sum, output_sum};
ghost use Rattle.dp_telegram.specs.Stream.{piece_of, left_of};

use dp_cfg::CfgIds;
use dp_sap::{Point, Points, SET_PRM, SapFault};
use dp_telegram::{Cut, Cutter};

/// Marks a point by its name. It is then found busy.
pub fn marked(points: &mut Points) -> Result<Point, SapFault>
    ensures { IsOkAnd result (λ point. point.busy ≡ true) }
{
    points.set_busy(Some(SET_PRM), true)?;
    Ok(points.find(Some(SET_PRM)))
}

/// Marks any point as busy or not. If the table has the point, it is then found as it was marked.
pub fn marked_so(points: &mut Points, number: Option<u8>, busy: bool) -> Result<Point, SapFault>
    ensures known { is_ok result ≡ is_in_table number }
    ensures found { IfOk result (λ point. point.busy ≡ busy) }
{
    dp_sap::laws::a_mark_is_of_one_point();
    points.set_busy(number, busy)?;
    Ok(points.find(number))
}

/// Returns the length of the inputs of a configuration. The configuration splits into identifiers, and the length is the
/// sum over them.
pub fn input_sum_of(configuration: &CfgIds) -> u8
    ensures { (ids : List Identifier) × IsSplit configuration.now ids × (result ≡ input_sum ids) }
{
    configuration.input_len()
}

/// Returns the lengths of the inputs and of the outputs of a configuration, which are sums over one split.
pub fn sums_of(configuration: &CfgIds) -> (u8, u8)
    ensures { (ids : List Identifier) × IsSplit configuration.now ids
        × (result.0 ≡ input_sum ids) × (result.1 ≡ output_sum ids) }
{
    dp_cfg::laws::lengths_are_sums();
    (configuration.input_len(), configuration.output_len())
}

/// Returns the first two pieces of the octets held, by two calls.
pub fn first_two(cutter: &mut Cutter) -> (Option<Cut>, Option<Cut>)
    ensures first { result.0 ≡ piece_of cutter.old }
    ensures second { result.1 ≡ piece_of (left_of cutter.old) }
    ensures left { cutter.new ≡ left_of (left_of cutter.old) }
{
    let first = cutter.next();
    (first, cutter.next())
}

/// Looks at the first piece in the cutter's memory and drops it, as `next` would. Returns its size.
pub fn pass_front(cutter: &mut Cutter) -> Option<usize>
    ensures { OnSome result (cutter.new ≡ left_of cutter.old) }
{
    let size = cutter.front()?.size();
    cutter.pass(size);
    Some(size)
}
