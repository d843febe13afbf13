use crate::print::print_listing;
use cli::{Failure, Fault, assembled, read_book, read_file, refuse_existing, words, write_new};
use store::append_all;

pub fn assemble(rt: &HostRuntime) -> Result<(), Failure> {
    let words = words(rt)?;
    let [book, listing, image] = words.as_slice() else {
        return Err(Failure::Usage("assemble BOOK LISTING IMAGE"));
    };
    let image = image.as_str();
    refuse_existing(rt, image, "it").map_err(|e| e.about(rt.alloc(), image))?;
    let book = read_book(rt, book.as_str())?;
    let text = read_file(rt, listing.as_str())?;
    let store = assembled(rt.alloc(), &book, listing.as_str(), &text)?;
    let mut bytes = Vec::new(rt.alloc());
    append_all(&store, 0, 65536, &mut bytes)?;
    write_new(rt, image, &bytes).map_err(|e| Failure::of_file(
        rt.alloc(),
        image,
        Fault::System(e),
    ))?;
    print_listing(rt, &book, &text)?;
    Ok(())
}
