//! Endless books, which no program shows: how many entries they forget, and the text of one that forgot an entry.

use arrayvec::ArrayVec;
use dp_audit::Book;
use dp_line::{Device, Event, LineSpec, Lists, Op, SlaveSpec, Step};
use std::alloc::Global;
use std::test::Fail;

/// Returns a line with `capacity` places, master 1 and slave 5.
fn line(alloc: Global, capacity: u32) -> Result<LineSpec, Fail> {
    let mut cfgs = ArrayVec::new();
    cfgs.push(ArrayVec::new());
    let mut slaves = Vec::new(alloc);
    slaves.push(SlaveSpec {
        address: 5,
        ident: 0x80A1,
        cfgs,
        sync: true,
        freeze: true,
        user_max: 237,
        device: Device::Still,
        lists: Lists {
            lockers: None,
            readers: None,
        },
        failsafe: false,
    })?;
    let mut masters = ArrayVec::new();
    masters.push(1);
    Ok(LineSpec {
        number: 1,
        capacity,
        masters,
        slaves,
    })
}

/// Checks the number of forgotten entries of an endless book, before the first event and after each. The entries fall
/// into lots of half as many as the description has places.
fn forgets(alloc: Global, capacity: u32, forgotten: &[u32]) -> Result<(), Fail> {
    let mut book = Book::open_endless(alloc, &line(alloc, capacity)?)?;
    let mut answer = Step::blank();
    for expected in forgotten {
        if book.forgotten() != *expected {
            return Err("another number")?;
        }
        book.take_into(&Event::Operator(Op::Tick(1)), &mut answer);
    }
    Ok(())
}

#[test]
fn lots_of_one(rt: HostRuntime) -> Result<(), Fail> {
    forgets(rt.alloc(), 2, &[0, 0, 0, 1, 2])
}

#[test]
fn lots_of_two(rt: HostRuntime) -> Result<(), Fail> {
    forgets(rt.alloc(), 4, &[0, 0, 0, 0, 0, 2, 2, 4, 4])
}

#[test]
fn lots_of_three(rt: HostRuntime) -> Result<(), Fail> {
    forgets(rt.alloc(), 6, &[0, 0, 0, 0, 0, 0, 0, 3, 3, 3, 6, 6, 6])
}

/// An endless book that forgot an entry writes nothing. No contract requires that.
#[test]
fn no_text_after_an_entry_is_forgotten(rt: HostRuntime) -> Result<(), Fail> {
    let alloc = rt.alloc();
    let mut book = Book::open_endless(alloc, &line(alloc, 4)?)?;
    let mut answer = Step::blank();
    for _ in 0..5u8 {
        book.take_into(&Event::Operator(Op::Tick(1)), &mut answer);
    }
    let mut written: Vec<u8> = Vec::new(alloc);
    match book.write_text(&mut written) {
        Ok(()) => Err("a text")?,
        Err(_) if written.is_empty() => Ok(()),
        Err(_) => Err("the beginning of a text")?,
    }
}
