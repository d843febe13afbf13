/// A bay in preparation takes grants; a sealed one takes turns.
#[derive(Clone, Copy, Debug, PartialEq, Eq)]
pub enum Stage {
    Preparing,
    Sealed,
}
