ghost use Rattle.std.specs.Prelude.{◌≡◌};
ghost use Rattle.listing.specs.Words.{words, uncommented};
ghost use Rattle.listing.specs.Line as spec;
ghost use Rattle.listing.specs.Line.{content_of, instruction, line_rule, shown_content, shown_entry, some_halfwords};

use crate::entry::{Content, Entry};
use crate::fault::Fault;
use crate::number::{address, signed};
use crate::tokens::{before_comment, next_word, one_word, three_words};
use book::Book;
use isa::{Format, Name};
use text::hex_word;

// The word of an instruction under the book.
fn instruction_word(book: &Book, name: &[u8], rest: &[u8]) -> Result<u16, Fault>
    ensures { result ≡ instruction book.now.tables name.now (words rest.now) }
{
    let (format, m, d) = three_words(rest).ok_or(Fault::Words)?;
    let name = Name::try_from(name)?;
    let format = Format::try_from(format)?;
    let m = signed(m).ok_or(Fault::Number)?;
    let d = signed(d).ok_or(Fault::Number)?;
    Ok(book.encode(name, format, m, d)?)
}

// The word that is spelled in hexadecimal digits.
fn spelled_word(rest: &[u8]) -> Result<u16, Fault>
    ensures { result ≡ spec.spelled_word (words rest.now) }
{
    let digits = one_word(rest).ok_or(Fault::Words)?;
    hex_word(digits).ok_or(Fault::Number)
}

// The words that spell halfwords, one at least.
fn halfwords(rest: &[u8]) -> Result<Content<'_>, Fault>
    ensures { shown_content result ≡ some_halfwords (words rest.now) }
{
    next_word(rest).ok_or(Fault::Words)?;
    Ok(Content::Halfwords(rest))
}

// What follows the address.
fn content<'a>(book: &Book, kind: &[u8], rest: &'a [u8]) -> Result<Content<'a>, Fault>
    ensures { shown_content result ≡ content_of book.now.tables kind.now (words rest.now) }
{
    match kind {
        b"halfwords" => halfwords(rest),
        b"word" => Ok(Content::Word(spelled_word(rest)?)),
        _ => Ok(Content::Word(instruction_word(book, kind, rest)?)),
    }
}

/// What a line says, if it says anything.
pub fn read_line<'a>(book: &Book, line: &'a [u8]) -> Result<Option<Entry<'a>>, Fault>
    ensures { shown_entry result ≡ line_rule book.now.tables (words (uncommented line.now)) }
{
    let Some((first, rest)) = next_word(before_comment(line)) else {
        return Ok(None);
    };
    let address = address(first).ok_or(Fault::Address)?;
    let (kind, rest) = next_word(rest).ok_or(Fault::Words)?;
    let content = content(book, kind, rest)?;
    Ok(Some(Entry { address, content }))
}
