use book::Book;
use listing::{Listing, Placed};
use std::io;

// The address and the halfword, and what it means if it is code.
fn print_placed(rt: &HostRuntime, book: &Book, placed: Placed) -> io::Result<()> {
    let Placed {
        address,
        halfword,
        code,
    } = placed;
    if !code {
        return println!(rt; "{address} {halfword:04X}");
    }
    let reading = book.reading(halfword);
    println!(rt; "{address} {halfword:04X} {reading}")
}

// Prints what a listing places, up to its end or its first fault.
pub fn print_listing(rt: &HostRuntime, book: &Book, text: &[u8]) -> io::Result<()> {
    let mut reader = Listing::new(text);
    'halfwords: while let Ok(Some(placed)) = reader.next_placed(book) {
        print_placed(rt, book, placed)?;
    }
    Ok(())
}
