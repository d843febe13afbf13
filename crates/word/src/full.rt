ghost use Rattle.std.specs.Int.{w32};

use crate::register::Register;

impl Register for u32 {
    ghost width = { w32 };

    ghost bits = { λ v. v };

    fn unsigned(self) -> u64 {
        u64::from(self)
    }

    fn signed(self) -> i64 {
        i64::from(self.cast_signed())
    }

    fn cut(exact: i64) -> u32 {
        exact.rem_euclid(0x1_0000_0000) as u32
    }

    fn is_outside(exact: i64) -> bool {
        i32::try_from(exact).is_err()
    }

    fn is_beyond(sum: u64) -> bool {
        u32::try_from(sum).is_err()
    }
}
