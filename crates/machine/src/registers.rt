ghost use Rattle.machine.specs.Registers.{advanced, computed_a, computed_x, divided, linked, loaded_a, loaded_x, marked, signed};
ghost use Rattle.std.specs.Prelude.{◌≡◌, ◌%◌};

use word::Register;
use word::arithmetic::Outcome;

/// The registers and markers of a program. A and B have 32 bits; X, Y, Z, S and L have 16. FM is floating mode, N negative, ZR zero, OF
/// overflow, CA carry.
#[derive(Clone, Copy, Debug, Default, PartialEq, Eq)]
pub struct Registers {
    pub a: u32,
    pub b: u32,
    pub x: u16,
    pub y: u16,
    pub z: u16,
    pub s: u16,
    pub l: u16,
    pub fm: bool,
    pub n: bool,
    pub zr: bool,
    pub of: bool,
    pub ca: bool,
}

impl Registers {
    // The lowest byte of A.
    #[inline(always)]
    pub(crate) fn low_byte(self) -> u8
        ensures { result ≡ self.a % 256 }
    {
        let [_, _, _, low] = self.a.to_be_bytes();
        low
    }

    // AL, the low half of A. By a remainder: the library parts a fullword into bytes and not into halves.
    #[inline(always)]
    pub(crate) fn low_half(self) -> u16
        ensures { result ≡ self.a % 65536 }
    {
        (self.a % 65536) as u16
    }

    // S goes to the next instruction.
    #[inline(always)]
    pub(crate) fn advance(&mut self)
        ensures { self.new ≡ advanced self.old }
    {
        self.s = self.s.wrapping_add(2);
    }

    // N tells the sign of a value, and ZR whether it is zero.
    #[inline(always)]
    pub(crate) fn sign<R: Register>(&mut self, value: R)
        ensures { self.new ≡ signed R.width self.old (R.bits value) }
    {
        self.n = value.signed() < 0;
        self.zr = value.unsigned() == 0;
    }

    // Loading and computing are said of A and of X apart: a type parameter names no field.
    #[inline(always)]
    pub(crate) fn load_a(&mut self, value: u32)
        ensures { self.new ≡ loaded_a self.old value }
    {
        self.a = value;
        self.sign(value);
    }

    #[inline(always)]
    pub(crate) fn load_x(&mut self, value: u16)
        ensures { self.new ≡ loaded_x self.old value }
    {
        self.x = value;
        self.sign(value);
    }

    #[inline(always)]
    pub(crate) fn mark<T: Copy>(&mut self, outcome: Outcome<T>)
        ensures { self.new ≡ marked self.old outcome }
    {
        self.n = outcome.negative;
        self.zr = outcome.zero;
        self.of = self.of || outcome.overflow;
        self.ca = outcome.carry;
    }

    #[inline(always)]
    pub(crate) fn compute_a(&mut self, outcome: Outcome<u32>)
        ensures { self.new ≡ computed_a self.old outcome }
    {
        self.a = outcome.value;
        self.mark(outcome);
    }

    #[inline(always)]
    pub(crate) fn compute_x(&mut self, outcome: Outcome<u16>)
        ensures { self.new ≡ computed_x self.old outcome }
    {
        self.x = outcome.value;
        self.mark(outcome);
    }

    #[inline(always)]
    pub(crate) fn divide_x(&mut self, quotient: Option<u16>)
        ensures { self.new ≡ divided self.old quotient }
    {
        match quotient {
            Some(q) => self.load_x(q),
            None => self.of = true,
        }
    }

    // S into Z, for the way back.
    #[inline(always)]
    pub(crate) fn link(&mut self)
        ensures { self.new ≡ linked self.old }
    {
        self.z = self.s;
    }
}
