ghost use Rattle.std.specs.Prelude.{◌≡◌, ℕ, List, Result};
ghost use Rattle.text.specs.TakeLine.{outcome, whole_outcome, lines_taken};

use crate::fault::{AtLine, at_line};
use crate::lines::Lines;

/// What takes up the lines of a text, one after the other, and turns the first away that it cannot take.
pub trait TakeLine<'a> {
    type Fault;

    // What the lines so far say, and what one line more does to it.
    ghost Said: { Type 0 };

    ghost said: { Self → Self.Said };

    ghost line_rule: { Self.Said → List ℕ → Result Self.Said Self.Fault };

    ghost unended: { Self.Fault };

    fn take_line(&mut self, line: &'a [u8]) -> Result<(), Self::Fault>
        ensures { outcome result (said self.new) ≡ line_rule (said self.old) line.now };

    /// The fault of a line that lacks its line feed.
    fn unended() -> Self::Fault
        ensures { result ≡ unended };
}

/// Has each line of the text taken up, and answers with the number of the line after the last.
pub fn take_lines<'a, T: TakeLine<'a>>(
    taker: &mut T,
    text: &'a [u8],
) -> Result<usize, AtLine<T::Fault>>
    ensures { whole_outcome result (T.said taker.new)
        ≡ lines_taken T.line_rule T.unended (T.said taker.old) text.now }
{
    let mut lines = Lines::new(text);
    // A `loop`, since each of the three things that may come next ends or goes on in its own way.
    'lines: loop {
        match lines.next_line() {
            Ok(Some(line)) => at_line(taker.take_line(line.text), line.number)?,
            Ok(None) => return Ok(lines.line()),
            Err(unended) => {
                return Err(AtLine {
                    fault: T::unended(),
                    line: unended.line,
                });
            }
        }
    }
}
