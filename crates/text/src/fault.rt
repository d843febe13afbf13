ghost use Rattle.std.specs.Prelude.{◌≡◌};
ghost use Rattle.std.specs.Option.{option_map};
ghost use Rattle.text.specs.Faults.{written_at};

use std::error::Error;
use std::fmt;

/// What is wrong with a text, and at which line.
#[derive(Clone, Copy, PartialEq, Eq, Debug)]
pub struct AtLine<F> {
    pub fault: F,
    pub line: usize,
}

impl<F: fmt::Display> fmt::Display for AtLine<F> {
    ghost output = { λ e. option_map (written_at e.line) (F.output e.fault) };

    fn fmt<W: fmt::Write>(&self, f: &mut fmt::Formatter<W>) -> fmt::Result {
        write!(f, "line {}: {}", self.line, self.fault)
    }
}

impl<F: fmt::Debug + fmt::Display + Drop> Error for AtLine<F> {}

/// A fault is one of this line.
pub fn at_line<T, F>(outcome: Result<T, F>, line: usize) -> Result<T, AtLine<F>>
    ensures { result ≡ Rattle.text.specs.Faults.at_line line outcome }
{
    outcome.map_err(|fault| AtLine { fault, line })
}
