ghost use Rattle.std.specs.Prelude.{◌≡◌};

use crate::entry::Content;
use crate::fault::{Fault, Refused};
use crate::line::read_line;
use crate::number::half;
use crate::placed::Placed;
use crate::tokens::next_word;
use book::Book;
use text::{Lines, at_line};

/// A listing that is read halfword by halfword: the lines that are left, what is left of the halfwords of the line in hand,
/// the number of that line, and the end of what was placed.
// Of the book it knows nothing, which each reading is given: so it is no iterator, and its contract holds under every book.
#[derive(Drop)]
pub struct Listing<'a> {
    lines: Lines<'a>,
    rest: &'a [u8],
    line: usize,
    end: u32,
}

impl<'a> Listing<'a> {
    ghost use Rattle.book.specs.declared.tables.Tables.{Tables};
    ghost use Rattle.listing.specs.Listing.{answer_before, end_after, end_of, listing, place_rule, remaining};
    ghost use Rattle.listing.specs.Rising.{Rises};
    ghost use Rattle.text.specs.Faults as faults;

    pub fn new(text: &'a [u8]) -> Listing<'a>
        ensures is { (t : Tables) → remaining t result ≡ listing t text.now }
        ensures low { end_of result ≡ 0 }
    {
        Listing {
            lines: Lines::new(text),
            rest: &[],
            line: 0,
            end: 0,
        }
    }

    // A halfword at the end of what was placed.
    fn place(&mut self, halfword: u16, code: bool) -> Result<Placed, Fault>
        ensures is { result ≡ place_rule self.old.end halfword code }
        ensures after { self.new ≡ record self.old { end = end_after self.old.end } }
    {
        let address = u16::try_from(self.end).map_err(|_| Fault::Past)?;
        self.end += 2;
        Ok(Placed {
            address,
            halfword,
            code,
        })
    }

    // The next halfword of the listing, if there is one, or what is wrong with the line in hand.
    fn advance(&mut self, book: &Book) -> Result<Option<Placed>, Fault>
        ensures is { answer_before (faults.at_line self.new.line result)
            (remaining book.now.tables self.new) ≡ remaining book.now.tables self.old }
        ensures rises { Rises result (end_of self.old) (end_of self.new) }
    {
        // A `loop`, since it ends in two ways, at a halfword of the line in hand or at one of the next line, and neither is a condition.
        'lines: loop {
            if let Some((word, rest)) = next_word(self.rest) {
                self.rest = rest;
                let halfword = half(word).ok_or(Fault::Number)?;
                return Ok(Some(self.place(halfword, false)?));
            }
            self.line = self.lines.line();
            let Some(line) = self.lines.next_line()? else {
                return Ok(None);
            };
            if let Some(entry) = read_line(book, line.text)? {
                let address = u32::from(entry.address);
                if address < self.end {
                    return Err(Fault::Below);
                }
                self.end = address;
                match entry.content {
                    Content::Word(word) => return Ok(Some(self.place(word, true)?)),
                    Content::Halfwords(rest) => self.rest = rest,
                }
            }
        }
    }

    /// The next halfword of the listing, if there is one.
    pub fn next_placed(&mut self, book: &Book) -> Result<Option<Placed>, Refused>
        ensures is { answer_before result (remaining book.now.tables self.new)
            ≡ remaining book.now.tables self.old }
        ensures rises { Rises result (end_of self.old) (end_of self.new) }
    {
        let placed = self.advance(book);
        at_line(placed, self.line)
    }
}
