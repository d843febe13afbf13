ghost use Rattle.std.specs.Prelude.{◌≡◌, List};
ghost use Rattle.job.specs.Fields.{a_field, answer, ended, fields, fields_in, shown_bytes};
ghost use Rattle.text.specs.Search.{Bytes};

use crate::fault::Fault;
use std::marker::Model;
use text::cut;

/// The fields of a line that are left, which tabs part.
#[derive(Drop)]
pub struct Fields<'a> {
    rest: Option<&'a [u8]>,
}

impl<'a> Model for Fields<'a> {
    ghost Value = { List Bytes };

    ghost view = { λ f. fields_in f.rest };
}

impl<'a> Fields<'a> {
    pub fn new(line: &'a [u8]) -> Fields<'a>
        ensures { result ≡ fields line.now }
    {
        Fields { rest: Some(line) }
    }

    /// The next field, or the fault that there is none.
    pub fn next_field(&mut self) -> Result<&'a [u8], Fault>
        ensures { answer (shown_bytes result) self.new ≡ a_field self.old }
    {
        let text = self.rest.take().ok_or(Fault::Fields)?;
        let Some((field, rest)) = cut(text, b'\t') else {
            return Ok(text);
        };
        self.rest = Some(rest);
        Ok(field)
    }

    /// No field is left.
    pub fn end(self) -> Result<(), Fault>
        ensures { result ≡ ended self.entry }
    {
        match self.rest {
            None => Ok(()),
            Some(_) => Err(Fault::Fields),
        }
    }
}
