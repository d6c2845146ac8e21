//! Claims of masters' addresses by two seats in turn, one of which looks whether an address is held, and their end.

ghost use Rattle.std.specs.Prelude.{◌≡◌, All, IfOk, length};

use dp_line::Device;
use dp_shared::{ClaimFault, Claims, WorkerSeat};
use std::alloc::{AllocError, Global};
use std::process::Abort;
use std::test::Fail;
use test_fixtures::line_specs::line_spec;

/// The claims of a line, and its two seats.
#[derive(Drop)]
struct Desk {
    claims: Claims,
    first: WorkerSeat,
    second: WorkerSeat,
    ghost ours: { (first.table ≡ claims.table) × (second.table ≡ claims.table) × (claims.workers ≡ 2) },
}

fn fresh_desk(alloc: Global) -> Result<Desk, Fail> {
    let (claims, mut seats) = Claims::open(alloc, &line_spec(alloc, 1, 1000, Device::Still)?, 2)?;
    let second = seats.pop().unwrap();
    let first = seats.pop().unwrap();
    Ok(Desk {
        claims,
        first,
        second,
    })
}

/// Claims an address for a seat. Returns why it is refused.
fn claim(claims: &Claims, seat: &mut WorkerSeat, address: u8) -> Result<Option<ClaimFault>, Fail>
    requires { seat.old.table ≡ claims.now.table }
    ensures { seat.new.table ≡ seat.old.table }
{
    if seat.held().is_some() {
        return Err(Fail::new("a seat that holds an address claims"));
    }
    Ok(claims.claim(seat, address).err())
}

/// Releases the address that a seat holds.
fn release(claims: &Claims, seat: &mut WorkerSeat) -> Result<(), Fail>
    requires { seat.old.table ≡ claims.now.table }
    ensures { seat.new.table ≡ seat.old.table }
{
    if seat.held().is_none() {
        return Err(Fail::new("a seat that holds nothing releases"));
    }
    claims.release(seat);
    Ok(())
}

/// Returns the two seats as a list.
fn listed(
    alloc: Global,
    first: WorkerSeat,
    second: WorkerSeat,
) -> Result<Vec<WorkerSeat>, AllocError>
    requires { second.table ≡ first.table }
    ensures ours { IfOk result (λ v. All (λ s. s.table ≡ first.table) v.items) }
    ensures two { IfOk result (λ v. length v.items ≡ 2) }
{
    let mut seats = Vec::with_capacity(alloc, 2)?;
    seats.push_reserved(first);
    seats.push_reserved(second);
    Ok(seats)
}

/// The first seat holds 1, which the second cannot claim.
fn first_holds_1(
    rt: &(impl Eprint + Abort),
    claims: &Claims,
    first: &mut WorkerSeat,
    second: &mut WorkerSeat,
) -> Result<(), Fail>
    requires { (first.old.table ≡ claims.now.table) × (second.old.table ≡ claims.now.table) }
    ensures { (first.new.table ≡ first.old.table) × (second.new.table ≡ second.old.table) }
{
    assert!(rt; claim(claims, first, 1)?.is_none());
    assert!(rt; claim(claims, second, 1)? == Some(ClaimFault::Held));
    assert!(rt; claim(claims, second, 9)? == Some(ClaimFault::UnknownMaster));
    assert!(rt; claims.is_held(second, 1) == Ok(true));
    assert!(rt; claims.is_held(second, 2) == Ok(false));
    assert!(rt; claims.is_held(second, 9) == Err(ClaimFault::UnknownMaster));
    assert!(rt; claim(claims, second, 2)?.is_none());
    Ok(())
}

/// Each seat releases its address, and claims the one that the other released.
fn seats_exchange(
    rt: &(impl Eprint + Abort),
    claims: &Claims,
    first: &mut WorkerSeat,
    second: &mut WorkerSeat,
) -> Result<(), Fail>
    requires { (first.old.table ≡ claims.now.table) × (second.old.table ≡ claims.now.table) }
    ensures { (first.new.table ≡ first.old.table) × (second.new.table ≡ second.old.table) }
{
    release(claims, first)?;
    release(claims, second)?;
    assert!(rt; claim(claims, second, 1)?.is_none());
    assert!(rt; claim(claims, first, 1)? == Some(ClaimFault::Held));
    assert!(rt; claim(claims, first, 2)?.is_none());
    assert!(rt; first.held() == Some(2) && second.held() == Some(1));
    Ok(())
}

/// Each seat claims the address that the other released.
#[test]
fn an_address_is_claimed_once(rt: HostRuntime) -> Result<(), Fail> {
    let alloc = rt.alloc();
    let Desk {
        claims,
        mut first,
        mut second,
    } = fresh_desk(alloc)?;
    first_holds_1(&rt, &claims, &mut first, &mut second)?;
    seats_exchange(&rt, &claims, &mut first, &mut second)?;
    assert!(rt; claims.close(listed(alloc, first, second)?) == 2);
    Ok(())
}
