ghost use Rattle.word.specs.Arithmetic;
ghost use Rattle.std.specs.Prelude.{◌≡◌, ℕ, ◌^◌, ◌<◌, FitsSigned};
ghost use Rattle.std.specs.Int.{Width, w32};
ghost use mir.Val.{to_z};

// The number that a register of 16 or 32 bits holds.
pub trait Register: Copy {
    ghost width: { Width };

    ghost bits: { Self → ℕ };

    fn unsigned(self) -> u64
        ensures is { result ≡ bits self }
        ensures within { result < 2 ^ 32 };

    fn signed(self) -> i64
        ensures is { result ≡ to_z width (bits self) }
        ensures within { FitsSigned w32 result };

    // The true result cut to the register.
    fn cut(exact: i64) -> Self
        ensures { bits result ≡ Arithmetic.cut width exact };

    fn is_outside(exact: i64) -> bool
        ensures { result ≡ Arithmetic.outside width exact };

    // Whether a sum without sign is too great for the register.
    fn is_beyond(sum: u64) -> bool
        ensures { result ≡ Arithmetic.beyond width sum };
}
