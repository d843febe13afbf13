use crate::case::Case;
use book::Book;
use cli::{Failure, read_book, read_input, words};
use text::{Line, Lines};

// Blank lines and comments say nothing.
fn answer_line(rt: &HostRuntime, book: &Book, line: Line) -> Result<(), Failure> {
    let Line { number, text } = line;
    if matches!(text, [] | [b'#', ..]) {
        return Ok(());
    }
    let case = Case::read(rt.alloc(), text).map_err(|unread| unread.at(number))?;
    Ok(case.answer(rt, book)?)
}

pub fn answer_all(rt: &HostRuntime) -> Result<(), Failure> {
    let words = words(rt)?;
    let [book] = words.as_slice() else {
        return Err(Failure::Usage("cases BOOK < CASES"));
    };
    let book = read_book(rt, book.as_str())?;
    let cases = read_input(rt)?;
    let mut lines = Lines::new(&cases);
    'lines: while let Some(line) = lines.next_line()? {
        answer_line(rt, &book, line)?;
    }
    Ok(())
}
