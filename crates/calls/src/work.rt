use crate::answer::print_reply;
use crate::script::read_script;
use crate::table::read_table;
use book::Book;
use cli::{Failure, read_file, read_input, words, zeroed};
use piles::{PagesError, drive_mapped};
use session::{Reply, Request, drive};
use std::alloc::Global;
use store::{Store, check_size};
use stores::Image;

fn print_replies(rt: &HostRuntime, replies: &[Reply]) -> Result<(), Failure> {
    for reply in replies {
        print_reply(rt, reply)?;
    }
    Ok(())
}

// By the pages of a table.
fn drive_pages<S: Store>(
    alloc: Global,
    store: &mut S,
    table: &[u8],
    book: Book,
    requests: &[Request],
) -> Result<Vec<Reply>, PagesError> {
    match read_table(table) {
        Ok(table) => drive_mapped(alloc, store, table, book, requests),
        Err(unmapped) => Err(PagesError::Table(unmapped)),
    }
}

// Over a store, by the pages of the table if there is one; a table that is refused ends all, with its number.
fn answer_over<S: Store + Drop>(
    rt: &HostRuntime,
    mut store: S,
    table: Option<Vec<u8>>,
    book: Book,
    requests: &[Request],
) -> Result<(), Failure> {
    let Some(table) = table else {
        let (_store, replies) = drive(rt.alloc(), store, book, requests)?;
        return print_replies(rt, &replies);
    };
    match drive_pages(rt.alloc(), &mut store, &table, book, requests) {
        Ok(replies) => print_replies(rt, &replies),
        Err(PagesError::Table(unmapped)) => Ok(println!(rt; "refused {}", unmapped.number())?),
        Err(PagesError::Memory(full)) => Err(Failure::Memory(full)),
    }
}

// So does an image that is no store.
fn with_image(
    rt: &HostRuntime,
    book: Book,
    image: &[u8],
    table: Option<Vec<u8>>,
    requests: &[Request],
) -> Result<(), Failure> {
    let mut work = zeroed(rt.alloc(), 65536)?;
    match check_size(image) {
        Ok(()) => answer_over(rt, Image::new(image, &mut work), table, book, requests),
        Err(unmade) => Ok(println!(rt; "refused {}", unmade.number())?),
    }
}

// And a book that is refused, with its number and the line.
fn with_book(
    rt: &HostRuntime,
    book: &[u8],
    image: &[u8],
    table: Option<Vec<u8>>,
    requests: &[Request],
) -> Result<(), Failure> {
    let mut made = Book::new();
    match made.read(book) {
        Ok(()) => with_image(rt, made, image, table, requests),
        Err(refused) => Ok(println!(rt; "refused {} {}", refused.fault.number(), refused.line)?),
    }
}

pub fn make_calls(rt: &HostRuntime) -> Result<(), Failure> {
    let words = words(rt)?;
    let (book, image, table) = match words.as_slice() {
        [book, image] => (book, image, None),
        [book, image, table] => (book, image, Some(read_file(rt, table.as_str())?)),
        _ => return Err(Failure::Usage("calls BOOK IMAGE [TABLE] < SCRIPT")),
    };
    let book = read_file(rt, book.as_str())?;
    let image = read_file(rt, image.as_str())?;
    let text = read_input(rt)?;
    let requests = read_script(rt.alloc(), &text)?;
    with_book(rt, &book, &image, table, &requests)
}
