ghost use Rattle.history.specs.Calls.{close, shared};
ghost use Rattle.session.specs.Serve.{Fits, all_fit, left, serve};
ghost use Rattle.session.specs.declared.slot.Slot;
ghost use Rattle.std.specs.Prelude.{◌≡◌, ◌<◌, ℕ, length, slice_index_or, true};

use crate::acting::close_in;
use crate::slot::{Slot, take};
use hall::Hall;
use store::Store;

// Closes the bay whose handle is held.
fn release<S: Store>(hall: &mut Hall<S>, number: u8, slot: Slot)
    requires { Fits hall.old.bays number slot }
    ensures { hall.new ≡ (serve number (shared close) hall.old).hall }
{
    let (slot, _reply) = close_in(hall, number, slot);
    slot.discard();
}

// Closes each bay whose handle is held.
fn release_all<S: Store>(hall: &mut Hall<S>, slots: &mut [Slot])
    requires { all_fit hall.old.bays slots.old ≡ true }
    ensures after { hall.new ≡ left hall.old }
    ensures count { length slots.new ≡ 8 }
    ensures empty { (i : ℕ) → i < 8 → slice_index_or slots.new i Slot.Empty ≡ Slot.Empty }
{
    for place in 0..8u8 {
        let slot = take(slots, usize::from(place));
        release(hall, place + 1, slot);
    }
}

// The end of a session: nothing is held any more.
pub(crate) fn leave<S: Store>(hall: &mut Hall<S>, mut slots: [Slot; 8])
    requires { all_fit hall.old.bays slots ≡ true }
    ensures { hall.new ≡ left hall.old }
{
    release_all(hall, &mut slots);
    let [a, b, c, d, e, f, g, h] = slots;
    a.discard();
    b.discard();
    c.discard();
    d.discard();
    e.discard();
    f.discard();
    g.discard();
    h.discard();
}
