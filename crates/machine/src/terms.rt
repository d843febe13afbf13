ghost use Rattle.machine.specs.Address;
ghost use Rattle.std.specs.Prelude.{◌≡◌};

use word::Register;

/// The terms of an address: those without sign are added up in `start`; to them comes the signed `index` times `scale`.
// In this order they have 12 bytes. Of 8 bytes they would go from hand to hand packed in one number, which every step would part again.
#[derive(Clone, Copy, Debug, PartialEq, Eq)]
pub struct Terms {
    pub index: u16,
    pub start: u32,
    pub scale: u16,
}

impl Terms {
    #[inline(always)]
    pub(crate) fn plain(start: u32) -> Terms
        ensures { result ≡ Address.plain start }
    {
        Terms {
            start,
            index: 0,
            scale: 0,
        }
    }

    #[inline(always)]
    pub(crate) fn indexed(start: u32, index: u16, scale: u16) -> Terms
        ensures { result ≡ Address.indexed start index scale }
    {
        Terms {
            start,
            index,
            scale,
        }
    }

    #[inline(always)]
    fn exact(self) -> i64
        ensures { result ≡ Address.exact self }
    {
        let start = i64::from(self.start);
        // Asked first: where terms without an index are formed, it is known, and nothing is multiplied.
        if self.scale == 0 {
            return start;
        }
        start + self.index.signed() * i64::from(self.scale)
    }

    /// The exact sum, cut to 16 bits.
    #[inline(always)]
    pub fn wrapped(self) -> u16
        ensures { result ≡ Address.wrapped self }
    {
        u16::cut(self.exact())
    }
}
