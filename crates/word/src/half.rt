ghost use Rattle.std.specs.Int.{w16};

use crate::register::Register;

impl Register for u16 {
    ghost width = { w16 };

    ghost bits = { λ v. v };

    fn unsigned(self) -> u64 {
        u64::from(self)
    }

    fn signed(self) -> i64 {
        i64::from(self.cast_signed())
    }

    fn cut(exact: i64) -> u16 {
        exact.rem_euclid(0x1_0000) as u16
    }

    fn is_outside(exact: i64) -> bool {
        i16::try_from(exact).is_err()
    }

    fn is_beyond(sum: u64) -> bool {
        u16::try_from(sum).is_err()
    }
}
