/// One halfword at its address; `code` where it is an instruction or a word, to be read under the book.
#[derive(Clone, Copy, PartialEq, Eq, Debug)]
pub struct Placed {
    pub address: u16,
    pub halfword: u16,
    // Stays beside the halfword: both kinds have the same halfword, and an enum of the two would only wrap it twice.
    pub code: bool,
}
