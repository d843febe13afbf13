ghost use Rattle.std.specs.Prelude.{Some};
ghost use Rattle.access.specs.Shown.{access_written, stop_written};

use crate::stop::{Access, Cause, Stop};
use std::fmt;

impl fmt::Display for Access {
    ghost output = { λ access. Some (access_written access) };

    fn fmt<W: fmt::Write>(&self, f: &mut fmt::Formatter<W>) -> fmt::Result {
        match self {
            Access::Read => write!(f, "read"),
            Access::Write => write!(f, "write"),
        }
    }
}

impl fmt::Display for Stop {
    ghost output = { λ stop. Some (stop_written stop) };

    fn fmt<W: fmt::Write>(&self, f: &mut fmt::Formatter<W>) -> fmt::Result {
        let cause = self.cause.number();
        let address = self.address;
        write!(f, "{cause} {address}")?;
        if let Cause::Denied(place, denial) = self.cause {
            let place = place.number();
            let access = denial.access;
            let byte = denial.byte;
            write!(f, " {place} {access} {byte}")?;
        }
        Ok(())
    }
}
