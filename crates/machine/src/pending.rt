ghost use Rattle.machine.specs.Act;
ghost use Rattle.std.specs.Prelude.{◌≡◌};

use access::Held;

/// What a step has yet to write: one item, at its aligned address.
#[derive(Clone, Copy, Debug, PartialEq, Eq)]
pub enum Pending {
    Byte(u16, u8),
    Halfword(u16, u16),
    Fullword(u16, u32),
}

// A number that a step stores.
pub(crate) trait Stored: Held {
    fn pending(self, at: u16) -> Pending
        ensures { result ≡ Act.pending Self.ITEM at (Self.bits self) };
}

impl Stored for u8 {
    #[inline(always)]
    fn pending(self, at: u16) -> Pending {
        Pending::Byte(at, self)
    }
}

impl Stored for u16 {
    #[inline(always)]
    fn pending(self, at: u16) -> Pending {
        Pending::Halfword(at - at % 2, self)
    }
}

impl Stored for u32 {
    #[inline(always)]
    fn pending(self, at: u16) -> Pending {
        Pending::Fullword(at - at % 4, self)
    }
}
