ghost use Rattle.std.specs.Prelude.{Some};
ghost use Rattle.machine.specs.Shown.{registers_written};

use crate::registers::Registers;
use std::fmt;

impl fmt::Display for Registers {
    ghost output = { λ registers. Some (registers_written registers) };

    fn fmt<W: fmt::Write>(&self, f: &mut fmt::Formatter<W>) -> fmt::Result {
        let Registers {
            a,
            b,
            x,
            y,
            z,
            s,
            l,
            fm,
            n,
            zr,
            of,
            ca,
        } = *self;
        write!(f, "{a} {b} {x} {y} {z} {s} {l} ")?;
        let fm = u8::from(fm);
        let n = u8::from(n);
        let zr = u8::from(zr);
        let of = u8::from(of);
        let ca = u8::from(ca);
        write!(f, "{fm} {n} {zr} {of} {ca}")
    }
}
