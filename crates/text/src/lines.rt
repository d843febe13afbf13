ghost use Rattle.std.specs.Prelude.{◌≡◌, ◌+◌, ◌≤◌, length, drop};
ghost use Rattle.text.specs.Lines.{Rest, whole, next, shown};

use crate::line::{Line, Unended};
use crate::search::cut;
use std::marker::Model;

/// A text that is read line by line.
#[derive(Drop)]
pub struct Lines<'a> {
    text: &'a [u8],
    // Where the next line begins, and its number.
    place: usize,
    line: usize,
}

impl<'a> Model for Lines<'a> {
    ghost Value = { Rest };

    ghost view = { λ l. record { text = drop l.place l.text.now; line = l.line } };

    ghost invariant = { λ l. (l.place ≤ length l.text.now) × (l.line ≤ l.place + 1) };
}

impl<'a> Lines<'a> {
    pub fn new(text: &'a [u8]) -> Lines<'a>
        ensures { result ≡ whole text.now }
    {
        Lines {
            text,
            place: 0,
            line: 1,
        }
    }

    /// The number of the next line; past the last line that of the line after it.
    pub fn line(&self) -> usize
        ensures { result ≡ self.now.line }
    {
        self.line
    }

    /// The next line, if there is one. A last line that is not ended is refused at each call, so this ends no `for`.
    pub fn next_line(&mut self) -> Result<Option<Line<'a>>, Unended>
        ensures { (shown result, self.new) ≡ next self.old }
    {
        let rest = &self.text[self.place..];
        if rest.is_empty() {
            return Ok(None);
        }
        let number = self.line;
        let (text, _) = cut(rest, b'\n').ok_or(Unended { line: number })?;
        self.place += text.len() + 1;
        self.line += 1;
        Ok(Some(Line { number, text }))
    }
}
