use access::Grant;
use bays::Refusal;
use hall::Shown;
use machine::Registers;
use turns::Turned;

// What is asked of a bay: one of the nine calls. Load has an address and bytes, turn its budget,
// copy an address and a length.
#[derive(Drop)]
pub enum Deed {
    Open,
    Grant(Grant),
    Load(u16, Vec<u8>),
    Set(Registers),
    Seal,
    Turn(u16),
    Look,
    Copy(u16, usize),
    Close,
}

#[derive(Drop)]
pub struct Request {
    pub bay: u8,
    pub deed: Deed,
}

// What a request is answered. Without a handle of the stage that the call needs, no call is made.
#[derive(Drop)]
pub enum Reply {
    NoHandle,
    Refused(Refusal),
    Done,
    Turned(Turned),
    Shown(Shown),
    Copied(Vec<u8>),
}
