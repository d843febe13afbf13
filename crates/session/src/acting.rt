ghost use Rattle.history.specs.Calls;
ghost use Rattle.history.specs.Calls.{call, close, copy, load, look, open_bay, own, seal, set_all, shared, turn};
ghost use Rattle.history.specs.Hall.{apply};
ghost use Rattle.session.specs.Serve.{Fits, Made, act_of, calls_by, request_end, said, said_done, said_shown, serve, served};
ghost use Rattle.std.specs.Prelude.{◌≡◌, Some};

use crate::request::{Deed, Reply};
use crate::slot::Slot;
use access::Grant;
use bays::Refusal;
use hall::{AtStage, Hall, Handle, Refused, Shown};
use machine::Registers;
use std::alloc::{AllocError, Global};
use store::Store;

fn done_or_refused(res: Result<(), Refusal>) -> Reply
    ensures { said result ≡ said_done res }
{
    match res {
        Ok(()) => Reply::Done,
        Err(refusal) => Reply::Refused(refusal),
    }
}

fn shown_or_refused(res: Result<Shown, Refusal>) -> Reply
    ensures { said result ≡ said_shown res }
{
    match res {
        Ok(shown) => Reply::Shown(shown),
        Err(refusal) => Reply::Refused(refusal),
    }
}

fn open_in<S: Store>(hall: &mut Hall<S>, number: u8, slot: Slot) -> (Slot, Reply)
    requires { Fits hall.old.bays number slot }
    ensures is { request_end (said result.1) hall.new ≡ serve number (shared open_bay) hall.old }
    ensures fits { Fits hall.new.bays number result.0 }
{
    match hall.open(number) {
        Ok(handle) => {
            slot.discard();
            (Slot::Preparing(handle), Reply::Done)
        }
        Err(refusal) => (slot, Reply::Refused(refusal)),
    }
}

fn grant_in<S: Store>(hall: &mut Hall<S>, number: u8, slot: Slot, grant: Grant) -> (Slot, Reply)
    requires { Fits hall.old.bays number slot }
    ensures is { request_end (said result.1) hall.new
        ≡ serve number (shared (Calls.grant grant)) hall.old }
    ensures fits { Fits hall.new.bays number result.0 }
{
    match slot {
        Slot::Preparing(handle) => {
            let result = hall.grant(&handle, grant);
            (Slot::Preparing(handle), done_or_refused(result))
        }
        slot => (slot, Reply::NoHandle),
    }
}

fn seal_in<S: Store>(hall: &mut Hall<S>, number: u8, slot: Slot) -> (Slot, Reply)
    requires { Fits hall.old.bays number slot }
    ensures is { request_end (said result.1) hall.new ≡ serve number (shared seal) hall.old }
    ensures fits { Fits hall.new.bays number result.0 }
{
    match slot {
        Slot::Preparing(handle) => match hall.seal(handle) {
            Ok(sealed) => (Slot::Sealed(sealed), Reply::Done),
            Err(Refused { refusal, handle }) => (Slot::Preparing(handle), Reply::Refused(refusal)),
        },
        slot => (slot, Reply::NoHandle),
    }
}

pub(crate) fn close_in<S: Store>(hall: &mut Hall<S>, number: u8, slot: Slot) -> (Slot, Reply)
    requires { Fits hall.old.bays number slot }
    ensures is { request_end (said result.1) hall.new ≡ serve number (shared close) hall.old }
    ensures fits { Fits hall.new.bays number result.0 }
{
    match slot {
        Slot::Empty => (Slot::Empty, Reply::NoHandle),
        Slot::Preparing(handle) => match hall.close(handle) {
            Ok(()) => (Slot::Empty, Reply::Done),
            Err(Refused { refusal, handle }) => (Slot::Preparing(handle), Reply::Refused(refusal)),
        },
        Slot::Sealed(handle) => match hall.close(handle) {
            Ok(()) => (Slot::Empty, Reply::Done),
            Err(Refused { refusal, handle }) => (Slot::Sealed(handle), Reply::Refused(refusal)),
        },
    }
}

fn load_in<S: Store>(
    hall: &mut Hall<S>,
    number: u8,
    slot: Slot,
    address: u16,
    bytes: &[u8],
) -> (Slot, Reply)
    requires { Fits hall.old.bays number slot }
    ensures is { request_end (said result.1) hall.new
        ≡ serve number (own (load address bytes.now)) hall.old }
    ensures fits { Fits hall.new.bays number result.0 }
{
    match slot {
        Slot::Empty => (Slot::Empty, Reply::NoHandle),
        Slot::Preparing(handle) => {
            let result = hall.load(&handle, address, bytes);
            (Slot::Preparing(handle), done_or_refused(result))
        }
        Slot::Sealed(handle) => {
            let result = hall.load(&handle, address, bytes);
            (Slot::Sealed(handle), done_or_refused(result))
        }
    }
}

fn set_in<S: Store>(
    hall: &mut Hall<S>,
    number: u8,
    slot: Slot,
    registers: Registers,
) -> (Slot, Reply)
    requires { Fits hall.old.bays number slot }
    ensures is { request_end (said result.1) hall.new
        ≡ serve number (own (set_all registers)) hall.old }
    ensures fits { Fits hall.new.bays number result.0 }
{
    match slot {
        Slot::Empty => (Slot::Empty, Reply::NoHandle),
        Slot::Preparing(handle) => {
            let result = hall.set(&handle, registers);
            (Slot::Preparing(handle), done_or_refused(result))
        }
        Slot::Sealed(handle) => {
            let result = hall.set(&handle, registers);
            (Slot::Sealed(handle), done_or_refused(result))
        }
    }
}

fn turn_in<S: Store>(hall: &mut Hall<S>, number: u8, slot: Slot, budget: u16) -> (Slot, Reply)
    requires { Fits hall.old.bays number slot }
    ensures is { request_end (said result.1) hall.new ≡ serve number (own (turn budget)) hall.old }
    ensures fits { Fits hall.new.bays number result.0 }
{
    match slot {
        Slot::Sealed(handle) => {
            let reply = match hall.turn(&handle, budget) {
                Ok(turned) => Reply::Turned(turned),
                Err(refusal) => Reply::Refused(refusal),
            };
            (Slot::Sealed(handle), reply)
        }
        slot => (slot, Reply::NoHandle),
    }
}

fn look_in<S: Store>(hall: &mut Hall<S>, number: u8, slot: Slot) -> (Slot, Reply)
    requires { Fits hall.old.bays number slot }
    ensures is { request_end (said result.1) hall.new ≡ serve number (own look) hall.old }
    ensures fits { Fits hall.new.bays number result.0 }
{
    match slot {
        Slot::Empty => (Slot::Empty, Reply::NoHandle),
        Slot::Preparing(handle) => {
            let result = hall.look(&handle);
            (Slot::Preparing(handle), shown_or_refused(result))
        }
        Slot::Sealed(handle) => {
            let result = hall.look(&handle);
            (Slot::Sealed(handle), shown_or_refused(result))
        }
    }
}

// More bytes than a store has, which no bay is granted: a longer buffer would be refused as one of so many is.
const TOO_MANY: usize = 65537;

// So many bytes, in a buffer of their own.
fn copy_with<S: Store, K: AtStage>(
    alloc: Global,
    hall: &Hall<S>,
    handle: &Handle<K>,
    address: u16,
    length: usize,
) -> Result<Reply, AllocError>
    ensures made { Made result hall.now hall.now
        (served (calls_by (Some K.STAGE) handle.now.bay (own (copy address length))) hall.now) }
{
    let mut buffer = vec![in alloc; 0u8; length.min(TOO_MANY)]?;
    match hall.copy(handle, address, &mut buffer) {
        Ok(()) => Ok(Reply::Copied(buffer)),
        Err(refusal) => Ok(Reply::Refused(refusal)),
    }
}

fn copy_in<S: Store>(
    alloc: Global,
    hall: &mut Hall<S>,
    number: u8,
    slot: Slot,
    address: u16,
    length: usize,
) -> (Slot, Result<Reply, AllocError>)
    requires { Fits hall.old.bays number slot }
    ensures made { Made result.1 hall.old hall.new
        (serve number (own (copy address length)) hall.old) }
    ensures fits { Fits hall.new.bays number result.0 }
{
    match slot {
        Slot::Empty => (Slot::Empty, Ok(Reply::NoHandle)),
        Slot::Preparing(handle) => {
            let reply = copy_with(alloc, hall, &handle, address, length);
            (Slot::Preparing(handle), reply)
        }
        Slot::Sealed(handle) => {
            let reply = copy_with(alloc, hall, &handle, address, length);
            (Slot::Sealed(handle), reply)
        }
    }
}

// A deed done with what is held for its bay.
pub(crate) fn act_in<S: Store>(
    alloc: Global,
    hall: &mut Hall<S>,
    number: u8,
    slot: Slot,
    deed: &Deed,
) -> (Slot, Result<Reply, AllocError>)
    requires { Fits hall.old.bays number slot }
    ensures made { Made result.1 hall.old hall.new (serve number (act_of deed.now) hall.old) }
    ensures fits { Fits hall.new.bays number result.0 }
{
    let (slot, reply) = match deed {
        Deed::Open => open_in(hall, number, slot),
        Deed::Grant(grant) => grant_in(hall, number, slot, *grant),
        Deed::Load(address, bytes) => load_in(hall, number, slot, *address, bytes),
        Deed::Set(registers) => set_in(hall, number, slot, *registers),
        Deed::Seal => seal_in(hall, number, slot),
        Deed::Turn(budget) => turn_in(hall, number, slot, *budget),
        Deed::Look => look_in(hall, number, slot),
        Deed::Copy(address, length) => return copy_in(alloc, hall, number, slot, *address, *length),
        Deed::Close => close_in(hall, number, slot),
    };
    (slot, Ok(reply))
}
