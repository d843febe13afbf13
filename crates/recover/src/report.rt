use cli::halted;
use job::Ran;
use machine::Registers;
use std::{fmt, io};

// What the runs so far came to.
#[derive(Clone, Copy, Debug, PartialEq, Eq)]
pub struct Tally {
    pub records: u64,
    pub steps: u64,
    pub halted: u64,
    pub registers: Registers,
}

fn print_unhalted(rt: &HostRuntime, name: &str, record: u64, ran: Ran) -> io::Result<()> {
    let steps = ran.steps;
    let registers = ran.registers;
    match ran.stop {
        Some(stop) => println!(rt;
            "job {name} record {record} stopped {stop} after {steps} steps, registers {registers}"
        ),
        None => println!(rt;
            "job {name} record {record} spent all its turns, {steps} steps, registers {registers}"
        ),
    }
}

impl Tally {
    pub fn new(registers: Registers) -> Tally {
        Tally {
            records: 0,
            steps: 0,
            halted: 0,
            registers,
        }
    }

    // One run more; told where it did not halt.
    pub fn count(&mut self, rt: &HostRuntime, name: &str, ran: Ran) -> io::Result<()> {
        self.records = self.records.saturating_add(1);
        self.steps = self.steps.saturating_add(u64::from(ran.steps));
        self.registers = ran.registers;
        if halted(ran) {
            self.halted = self.halted.saturating_add(1);
            return Ok(());
        }
        print_unhalted(rt, name, self.records, ran)
    }

    pub fn all_halted(&self) -> bool {
        self.records == self.halted
    }
}

impl fmt::Display for Tally {
    fn fmt<W: fmt::Write>(&self, f: &mut fmt::Formatter<W>) -> fmt::Result {
        writeln!(f, "records {}", self.records)?;
        writeln!(f, "steps {}", self.steps)?;
        writeln!(f, "halted {}", self.halted)?;
        write!(
            f,
            "last registers, A B X Y Z S L FM N ZR OF CA: {}",
            self.registers
        )
    }
}
