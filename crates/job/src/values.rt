ghost use Rattle.std.specs.Prelude.{◌≡◌, ◌≤◌, IfOk};
ghost use Rattle.job.specs.Fields.{a_bay, a_file, a_full, a_grant, a_half, a_kind, a_number, an_area, answer, shown_bytes, some_registers, some_turns};

use crate::area::Area;
use crate::fault::Fault;
use crate::fields::Fields;
use crate::job::Turns;
use access::{Grant, Kind};
use machine::Registers;
use std::str;
use text::decimal;

// `cases` has readers of its own: their words are there, as a slice's, and they have one error; here a field may be missing, and a fault
// says which of three things is wrong.
impl<'a> Fields<'a> {
    fn number(&mut self, low: u32, high: u32) -> Result<u32, Fault>
        ensures is { answer result self.new ≡ a_number low high self.old }
        ensures within { IfOk result (λ n. n ≤ high) }
    {
        decimal(self.next_field()?, low, high).ok_or(Fault::Number)
    }

    fn half(&mut self) -> Result<u16, Fault>
        ensures { answer result self.new ≡ a_half self.old }
    {
        Ok(self.number(0, 65535)? as u16)
    }

    fn full(&mut self) -> Result<u32, Fault>
        ensures { answer result self.new ≡ a_full self.old }
    {
        self.number(0, u32::MAX)
    }

    pub fn bay(&mut self) -> Result<u8, Fault>
        ensures { answer result self.new ≡ a_bay self.old }
    {
        Ok(self.number(1, 8)? as u8)
    }

    pub fn file(&mut self) -> Result<&'a str, Fault>
        ensures { answer (shown_bytes result) self.new ≡ a_file self.old }
    {
        let Ok(name) = str::from_utf8(self.next_field()?) else {
            return Err(Fault::Text);
        };
        if name.is_empty() {
            return Err(Fault::Text);
        }
        Ok(name)
    }

    fn kind(&mut self) -> Result<Kind, Fault>
        ensures { answer result self.new ≡ a_kind self.old }
    {
        Ok(Kind::try_from(self.next_field()?)?)
    }

    pub fn grant(&mut self) -> Result<Grant, Fault>
        ensures { answer result self.new ≡ a_grant self.old }
    {
        Ok(Grant {
            kind: self.kind()?,
            first: self.half()?,
            last: self.half()?,
        })
    }

    pub fn registers(&mut self) -> Result<Registers, Fault>
        ensures { answer result self.new ≡ some_registers self.old }
    {
        Ok(Registers {
            a: self.full()?,
            b: self.full()?,
            x: self.half()?,
            y: self.half()?,
            z: self.half()?,
            s: self.half()?,
            l: self.half()?,
            ..Registers::default()
        })
    }

    pub fn area(&mut self) -> Result<Area, Fault>
        ensures { answer result self.new ≡ an_area self.old }
    {
        let address = self.half()?;
        match self.half()? {
            0 => Err(Fault::Number),
            halfwords => Area::new(address, halfwords).ok_or(Fault::Outside),
        }
    }

    pub fn turns(&mut self) -> Result<Turns, Fault>
        ensures { answer result self.new ≡ some_turns self.old }
    {
        Ok(Turns {
            count: self.half()?,
            budget: self.half()?,
        })
    }
}
