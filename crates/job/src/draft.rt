ghost use Rattle.std.specs.Prelude.{◌≡◌};
ghost use Rattle.job.specs.Fields.{answer, fields};
ghost use Rattle.job.specs.Lines.{by_fields, entered, first_time, granted, line_rule, so_far, SoFar};
ghost use Rattle.job.specs.Text.{finished, shown_job};
ghost use Rattle.job.specs.declared.fault.Fault.TheVariants.{Unended};
ghost use Rattle.text.specs.TakeLine.{outcome};

use crate::area::Area;
use crate::entry::Entry;
use crate::fault::Fault;
use crate::fields::Fields;
use crate::job::{Job, Turns};
use access::{Grant, Rights, Use};
use bays::{check_grant, clash_with_any};
use machine::Registers;
use text::TakeLine;

/// A job as far as it has been read.
#[derive(Default, Drop)]
pub struct Draft<'a> {
    number: Option<u8>,
    grants: [Option<Grant>; 6],
    registers: Option<Registers>,
    input: Option<Area>,
    output: Option<Area>,
    turns: Option<Turns>,
    records: Option<&'a str>,
    results: Option<&'a str>,
}

// The value of the entry, where none was there before.
fn once<T: Drop>(slot: &mut Option<T>, entry: Entry, value: T) -> Result<(), Fault>
    ensures { outcome result slot.new ≡ first_time entry slot.old value }
{
    match slot.replace(value) {
        None => Ok(()),
        Some(_) => Err(Fault::Repeated(entry)),
    }
}

// One grant more, or the refusal of a hall that is asked for it.
fn add_grant(grants: &mut [Option<Grant>; 6], grant: Grant) -> Result<(), Fault>
    ensures { outcome result grants.new ≡ granted grants.old grant }
{
    let clashes = clash_with_any(grant, grants);
    let place = check_grant(grant, grants, clashes)?;
    grants[place] = Some(grant);
    Ok(())
}

impl<'a> Draft<'a> {
    // Takes up the values of an entry.
    fn take_entry(&mut self, entry: Entry, fields: &mut Fields<'a>) -> Result<(), Fault>
        ensures { answer (outcome result (so_far self.new)) fields.new
            ≡ entered (so_far self.old) entry fields.old }
    {
        match entry {
            Entry::Bay => once(&mut self.number, entry, fields.bay()?),
            Entry::Grant => add_grant(&mut self.grants, fields.grant()?),
            Entry::Registers => once(&mut self.registers, entry, fields.registers()?),
            Entry::Input => once(&mut self.input, entry, fields.area()?),
            Entry::Output => once(&mut self.output, entry, fields.area()?),
            Entry::Turns => once(&mut self.turns, entry, fields.turns()?),
            Entry::Records => once(&mut self.records, entry, fields.file()?),
            Entry::Results => once(&mut self.results, entry, fields.file()?),
        }
    }

    fn take_fields(&mut self, line: &'a [u8]) -> Result<(), Fault>
        ensures { outcome result (so_far self.new)
            ≡ by_fields (so_far self.old) (fields line.now) }
    {
        let mut fields = Fields::new(line);
        let entry = Entry::try_from(fields.next_field()?)?;
        self.take_entry(entry, &mut fields)?;
        fields.end()
    }

    /// The whole job: each entry is there, records can be put in, and results can be taken.
    #[tactic(auto, unfolding(crate::specs::Text::finished))]
    pub fn finish(self) -> Result<Job<'a>, Fault>
        ensures { shown_job result ≡ finished (so_far self.entry) }
    {
        let Draft {
            number,
            grants,
            registers,
            input,
            output,
            turns,
            records,
            results,
        } = self;
        let job = Job {
            number: number.ok_or(Fault::Missing(Entry::Bay))?,
            rights: Rights::new(grants),
            registers: registers.ok_or(Fault::Missing(Entry::Registers))?,
            input: input.ok_or(Fault::Missing(Entry::Input))?,
            output: output.ok_or(Fault::Missing(Entry::Output))?,
            turns: turns.ok_or(Fault::Missing(Entry::Turns))?,
            records: records.ok_or(Fault::Missing(Entry::Records))?,
            results: results.ok_or(Fault::Missing(Entry::Results))?,
        };
        let Job {
            rights,
            input,
            output,
            ..
        } = &job;
        if !rights.reach(Use::Load, input.address, input.bytes()) {
            return Err(Fault::Denied(Entry::Input));
        }
        if !rights.reach(Use::Copy, output.address, output.bytes()) {
            return Err(Fault::Denied(Entry::Output));
        }
        Ok(job)
    }
}

impl<'a> TakeLine<'a> for Draft<'a> {
    type Fault = Fault;

    ghost Said = { SoFar };

    ghost said = { so_far };

    ghost line_rule = { line_rule };

    ghost unended = { Unended };

    // Empty lines and comments say nothing.
    #[tactic(auto, unfolding(crate::specs::Lines::line_rule))]
    fn take_line(&mut self, line: &'a [u8]) -> Result<(), Fault> {
        match line {
            [] | [b'#', ..] => Ok(()),
            _ => self.take_fields(line),
        }
    }

    fn unended() -> Fault
        ensures { result ≡ Unended }
    {
        Fault::Unended
    }
}
