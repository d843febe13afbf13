/// A line without its line feed, and its number.
#[derive(Clone, Copy, PartialEq, Eq, Debug)]
pub struct Line<'a> {
    pub number: usize,
    pub text: &'a [u8],
}

/// The last line, which has this number, lacks its line feed.
#[derive(Clone, Copy, PartialEq, Eq, Debug)]
pub struct Unended {
    pub line: usize,
}
