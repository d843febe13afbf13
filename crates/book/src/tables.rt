use isa::Name;

/// The names of each letter by their numbers, and the value of the pattern of each of A1 to A5.
#[derive(Clone, Copy, Debug, PartialEq, Eq)]
pub struct Tables {
    pub a: [Option<Name>; 64],
    pub l: [Option<Name>; 64],
    pub b: [Option<Name>; 4],
    pub patterns: [Option<u8>; 5],
}

// No name, and no pattern.
pub(crate) const EMPTY: Tables = Tables {
    a: [None; 64],
    l: [None; 64],
    b: [None; 4],
    patterns: [None; 5],
};
