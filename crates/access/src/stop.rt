ghost use Rattle.access.specs.Stops.{cause_number, place_number};
ghost use Rattle.std.specs.Prelude.{◌≡◌};

#[derive(Clone, Copy, Debug, PartialEq, Eq)]
pub enum Access {
    Read,
    Write,
}

// An access that no grant allows, with the lowest byte that is refused.
#[derive(Clone, Copy, Debug, PartialEq, Eq)]
pub struct Denial {
    pub access: Access,
    pub byte: u16,
}

// Where in a step an access was denied.
#[derive(Clone, Copy, Debug, PartialEq, Eq)]
pub enum Place {
    Fetch = 1,
    Pointer = 2,
    Operand = 3,
}

impl Place {
    pub fn number(self) -> u8
        ensures { result ≡ place_number self }
    {
        self as u8
    }
}

// Why a step cannot be done.
#[derive(Clone, Copy, Debug, PartialEq, Eq)]
pub enum Cause {
    Undefined,
    Denied(Place, Denial),
    Halt,
    Floating,
    NoPattern,
}

impl Cause {
    // By a match: an enum of which a variant has values has no discriminants to take the numbers from.
    pub fn number(self) -> u8
        ensures { result ≡ cause_number self }
    {
        match self {
            Cause::Undefined => 1,
            Cause::Denied(_, _) => 2,
            Cause::Halt => 3,
            Cause::Floating => 4,
            Cause::NoPattern => 5,
        }
    }
}

// A stop passes up its cause and the address of the instruction that could not be done.
#[derive(Clone, Copy, Debug, PartialEq, Eq)]
pub struct Stop {
    pub cause: Cause,
    pub address: u16,
}
