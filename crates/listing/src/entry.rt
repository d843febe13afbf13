/// What a line places: a word, or the halfwords that the words of a text spell.
#[derive(Clone, Copy, PartialEq, Eq, Debug)]
pub enum Content<'a> {
    Word(u16),
    Halfwords(&'a [u8]),
}

/// What a line says.
#[derive(Clone, Copy, PartialEq, Eq, Debug)]
pub struct Entry<'a> {
    pub address: u16,
    pub content: Content<'a>,
}
