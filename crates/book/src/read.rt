ghost use Rattle.std.specs.Prelude.{◌≡◌};
ghost use Rattle.book.specs.Read.{after_reading, new_tables, tables_of};

use crate::book::Book;
use crate::fault::{Fault, Refused};
use crate::fields::fields_by_tab;
use crate::patterns::complete;
use crate::tables::{EMPTY, Tables};
use text::{TakeLine, at_line, take_lines};

impl<'a> TakeLine<'a> for Tables {
    type Fault = Fault;

    ghost use Rattle.book.specs.declared.fault.Fault.TheVariants.{Fields};
    ghost use Rattle.book.specs.declared.tables.Tables.{Tables};
    ghost use Rattle.book.specs.Read.{line_rule};

    ghost Said = { Tables };

    ghost said = { λ tables. tables };

    ghost line_rule = { line_rule };

    ghost unended = { Fields };

    fn take_line(&mut self, line: &'a [u8]) -> Result<(), Fault> {
        let fields = fields_by_tab(line).ok_or(Fault::Fields)?;
        self.add(fields)
    }

    fn unended() -> Fault {
        Fault::Fields
    }
}

fn finished(tables: Tables) -> Result<Tables, Fault>
    ensures { result ≡ Rattle.book.specs.Read.finished tables }
{
    if complete(&tables.patterns) {
        Ok(tables)
    } else {
        Err(Fault::Missing)
    }
}

#[tactic(auto, unfolding(crate::specs::Read::tables_of))]
fn read_text(text: &[u8]) -> Result<Tables, Refused>
    ensures { result ≡ tables_of text.now }
{
    let mut tables = EMPTY;
    let line = take_lines(&mut tables, text)?;
    at_line(finished(tables), line)
}

impl Book {
    /// A book that has the usual patterns, and no instruction.
    pub fn new() -> Book
        ensures { result.tables ≡ new_tables }
    {
        Book {
            tables: Tables {
                patterns: [Some(0b10), Some(0), Some(0b1110), Some(0b110), Some(0b1111)],
                ..EMPTY
            },
            readings: None,
        }
    }

    /// Takes the book that the text has; a text that is refused leaves the book as it was.
    pub fn read(&mut self, text: &[u8]) -> Result<(), Refused>
        ensures { (result, self.new.tables) ≡ after_reading self.old.tables (tables_of text.now) }
    {
        let tables = read_text(text)?;
        self.readings = None;
        self.tables = tables;
        Ok(())
    }
}
