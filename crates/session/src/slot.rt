ghost use Rattle.session.specs.declared.slot.Slot;
ghost use Rattle.std.specs.Prelude.{◌≡◌, ◌<◌, length, slice_index_or, slice_set};

use hall::{Preparing, Sealed};
use std::mem;

// What is held for a bay: nothing, or its handle.
pub enum Slot {
    Empty,
    Preparing(Preparing),
    Sealed(Sealed),
}

impl Slot {
    // Lets an empty slot go; one that holds a handle may not be.
    pub(crate) fn discard(self)
        requires { self ≡ Slot.Empty }
    {
        match self {
            Slot::Empty => {}
            Slot::Preparing(_handle) => {}
            Slot::Sealed(_handle) => {}
        }
    }
}

// What a place holds, and nothing left there.
pub(crate) fn take(slots: &mut [Slot], place: usize) -> Slot
    requires { place < length slots.old }
    ensures taken { result ≡ slice_index_or slots.old place Slot.Empty }
    ensures left { slots.new ≡ slice_set slots.old place Slot.Empty }
{
    mem::replace(&mut slots[place], Slot::Empty)
}

// Something put where nothing is.
pub(crate) fn put(slots: &mut [Slot], place: usize, slot: Slot)
    requires { (place < length slots.old) × (slice_index_or slots.old place Slot.Empty ≡ Slot.Empty) }
    ensures { slots.new ≡ slice_set slots.old place slot }
{
    let empty = mem::replace(&mut slots[place], slot);
    empty.discard();
}
