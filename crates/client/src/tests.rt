use crate::visiting::visit;
use access::{Grant, Kind};
use bays::Refusal;
use book::Book;
use hall::{AtStage, Hall, Handle, Preparing, Refused, Sealed};
use machine::Registers;
use std::alloc::{AllocError, Global};
use std::process::Abort;
use std::test::Fail;
use store::{Owned, write_all};

// Refused with 2, for it goes before every other refusal.
const REVERSED: Grant = Grant {
    kind: Kind::Write,
    first: 100,
    last: 99,
};

const HUNDRED: Grant = Grant {
    kind: Kind::Write,
    first: 100,
    last: 199,
};

// All that the program below needs.
const FOUR: Grant = Grant {
    kind: Kind::Write,
    first: 0,
    last: 3,
};

// Zero but for the bytes that it begins with.
fn store_of(alloc: Global, start: &[u8]) -> Result<Owned, AllocError> {
    let mut store = Owned::new(vec![in alloc; 0u8; 65536]?);
    write_all(&mut store, 0, start);
    Ok(store)
}

fn new_hall(alloc: Global) -> Result<Hall<Owned>, AllocError> {
    Ok(Hall::new(store_of(alloc, &[])?, Book::new()))
}

fn opened(rt: &impl Abort, hall: &mut Hall<Owned>, number: u8) -> Preparing {
    match hall.open(number) {
        Ok(handle) => handle,
        Err(_) => panic!(rt; "bay {number} is free"),
    }
}

fn sealed(rt: &impl Abort, hall: &mut Hall<Owned>, handle: Preparing) -> Sealed {
    match hall.seal(handle) {
        Ok(handle) => handle,
        Err(_refused) => panic!(rt; "the bay is in preparation"),
    }
}

fn closed<K: AtStage>(rt: &impl Abort, hall: &mut Hall<Owned>, handle: Handle<K>) {
    match hall.close(handle) {
        Ok(()) => {}
        Err(_refused) => panic!(rt; "the bay is at the handle's stage"),
    }
}

// The number of a refusal, 0 for a call that is done.
fn number<T: Drop>(outcome: Result<T, Refusal>) -> u8 {
    outcome.err().map_or(0, Refusal::number)
}

// What the calls are answered that borrow a handle of either stage: load, set, look, copy.
fn borrowed<K: AtStage>(hall: &mut Hall<Owned>, handle: &Handle<K>) -> [u8; 4] {
    let mut buffer = [0];
    [
        number(hall.load(handle, 100, &[1])),
        number(hall.set(handle, Registers::default())),
        number(hall.look(handle)),
        number(hall.copy(handle, 100, &mut buffer)),
    ]
}

// All calls that take this handle are refused with 2, and those that take the handle itself give it back.
fn preparing_refused(rt: &impl Abort, hall: &mut Hall<Owned>, handle: Preparing) -> Preparing {
    assert_eq!(rt; number(hall.grant(&handle, REVERSED)), 2);
    assert_eq!(rt; borrowed(hall, &handle), [2; 4]);
    match hall.seal(handle) {
        Ok(_sealed) => panic!(rt; "sealed"),
        Err(Refused { refusal, handle }) => {
            assert_eq!(rt; refusal.number(), 2);
            close_refused(rt, hall, handle)
        }
    }
}

fn sealed_refused(rt: &impl Abort, hall: &mut Hall<Owned>, handle: Sealed) -> Sealed {
    assert_eq!(rt; number(hall.turn(&handle, 1)), 2);
    assert_eq!(rt; borrowed(hall, &handle), [2; 4]);
    close_refused(rt, hall, handle)
}

fn close_refused<K: AtStage>(
    rt: &impl Abort,
    hall: &mut Hall<Owned>,
    handle: Handle<K>,
) -> Handle<K> {
    match hall.close(handle) {
        Ok(()) => panic!(rt; "closed"),
        Err(Refused { refusal, handle }) => {
            assert_eq!(rt; refusal.number(), 2);
            handle
        }
    }
}

// A handle of the first hall is used on the second.
#[test]
fn a_free_bay_refuses_it(rt: HostRuntime) -> Result<(), Fail> {
    let mut first = new_hall(rt.alloc())?;
    let mut second = new_hall(rt.alloc())?;
    let handle = opened(&rt, &mut first, 1);
    let handle = preparing_refused(&rt, &mut second, handle);
    let handle = sealed(&rt, &mut first, handle);
    let handle = sealed_refused(&rt, &mut second, handle);
    closed(&rt, &mut first, handle);
    Ok(())
}

#[test]
fn a_bay_at_the_other_stage_refuses_it(rt: HostRuntime) -> Result<(), Fail> {
    let mut first = new_hall(rt.alloc())?;
    let mut second = new_hall(rt.alloc())?;
    let handle = opened(&rt, &mut first, 1);
    let own = opened(&rt, &mut second, 1);
    let own = sealed(&rt, &mut second, own);
    let handle = preparing_refused(&rt, &mut second, handle);
    let own = sealed_refused(&rt, &mut first, own);
    closed(&rt, &mut first, handle);
    closed(&rt, &mut second, own);
    Ok(())
}

// It acts on the bay of its number there, and the bay's own handle then finds what it did.
#[test]
fn a_bay_at_its_stage_takes_it(rt: HostRuntime) -> Result<(), Fail> {
    let mut first = new_hall(rt.alloc())?;
    let mut second = new_hall(rt.alloc())?;
    let handle = opened(&rt, &mut first, 1);
    let own = opened(&rt, &mut second, 1);
    assert_eq!(rt; number(second.grant(&handle, HUNDRED)), 0);
    assert_eq!(rt; borrowed(&mut second, &handle), [0; 4]);
    let mut buffer = [0];
    assert_eq!(rt; number(second.copy(&own, 100, &mut buffer)), 0);
    assert_eq!(rt; buffer, [1]);
    // The first hall's bay is as it was: it has no grant.
    assert_eq!(rt; number(first.copy(&handle, 100, &mut buffer)), 7);
    let handle = sealed(&rt, &mut second, handle);
    let own = preparing_refused(&rt, &mut second, own);
    closed(&rt, &mut second, handle);
    // The bay of that number in the first hall is still in preparation, and takes a handle of the second.
    closed(&rt, &mut first, own);
    Ok(())
}

// RK is in every book, and the word after it in none.
#[test]
fn a_visit_takes_one_turn(rt: HostRuntime) -> Result<(), Fail> {
    for (grant, budget, answer) in [
        (REVERSED, 10, Err(4)),
        (FOUR, 0, Ok((0, None))),
        (FOUR, 1, Ok((1, None))),
        (FOUR, 10, Ok((1, Some((1, 2))))),
        (HUNDRED, 10, Ok((0, Some((2, 0))))),
    ] {
        let store = store_of(rt.alloc(), &[0x12, 0x00, 0x00, 0x00])?;
        let told = visit(store, Book::new(), grant, budget)
            .map(|turned| {
                let stop = turned.stop.map(|stop| (stop.cause.number(), stop.address));
                (turned.steps, stop)
            })
            .map_err(Refusal::number);
        assert_eq!(rt; told, answer, "with the budget {budget}");
    }
    Ok(())
}
