ghost use Rattle.std.specs.Prelude.{◌≡◌, Ok};
ghost use Rattle.listing.specs.Listing.{listing};
ghost use Rattle.listing.specs.Assembled.{answer_of, assembled, bytes_after, with_placed};
ghost use Rattle.listing.specs.Laws.{IsLaid};

use crate::fault::Refused;
use crate::listing::Listing;
use crate::placed::Placed;
use book::Book;
use store::{Store, write_all};

// Reads the whole text, and says whether it is a listing under the book.
fn check_text(book: &Book, text: &[u8]) -> Result<(), Refused>
    ensures { result ≡ answer_of (listing book.now.tables text.now) }
{
    let mut reader = Listing::new(text);
    'halfwords: while reader.next_placed(book)?.is_some() {}
    Ok(())
}

fn write_halfword<S: Store>(store: &mut S, placed: Placed)
    ensures { S.Store.bytes store.new ≡ with_placed (S.Store.bytes store.old) placed }
{
    write_all(store, placed.address, &placed.halfword.to_be_bytes());
}

// Writes what a text that was checked places.
fn write_text<S: Store>(book: &Book, text: &[u8], store: &mut S)
    requires { answer_of (listing book.now.tables text.now) ≡ Ok tt }
    ensures { S.Store.bytes store.new
        ≡ bytes_after (S.Store.bytes store.old) (listing book.now.tables text.now) }
{
    let mut reader = Listing::new(text);
    'halfwords: while let Ok(Some(placed)) = reader.next_placed(book) {
        write_halfword(store, placed);
    }
}

/// Writes what the listing places into the store; a listing that is refused leaves the store as it was.
pub fn assemble_into<S: Store>(book: &Book, text: &[u8], store: &mut S) -> Result<(), Refused>
    ensures is { (result, S.Store.bytes store.new)
        ≡ assembled (S.Store.bytes store.old) (listing book.now.tables text.now) }
    ensures laid { IsLaid (listing book.now.tables text.now)
        (S.Store.bytes store.old) (S.Store.bytes store.new) }
{
    check_text(book, text)?;
    write_text(book, text, store);
    Ok(())
}
