ghost use Rattle.access.specs.Access.{covers_all, rights_of, within};
ghost use Rattle.access.specs.Cache;
ghost use Rattle.std.specs.Prelude.{◌≡◌, Some};

use crate::kind::{Kind, Use};

/// The bytes from `first` to `last`, both included.
#[derive(Clone, Copy, Debug, PartialEq, Eq)]
pub struct Grant {
    pub kind: Kind,
    pub first: u16,
    pub last: u16,
}

impl Grant {
    /// Whether the bytes from one to another are all the grant's, and it is of a kind that lets this be done with them.
    #[inline(always)]
    pub(crate) fn covers(&self, purpose: Use, first: u16, last: u16) -> bool
        ensures { result ≡ covers_all (Some self.now) purpose first last }
    {
        self.first <= first && last <= self.last && self.kind.permits(purpose)
    }
}

/// What a program may reach: the bytes of its bay's grants, six at most.
#[derive(Clone, Copy, Debug, PartialEq, Eq)]
pub struct Rights {
    pub grants: [Option<Grant>; 6],
}

impl Rights {
    #[inline(always)]
    pub fn new(grants: [Option<Grant>; 6]) -> Rights
        ensures { result ≡ rights_of grants }
    {
        Rights { grants }
    }

    /// Whether some grant has this byte and is of a kind that lets this be done with it.
    pub fn allows(&self, purpose: Use, at: u16) -> bool
        ensures { result ≡ Rattle.access.specs.Access.allows self.now purpose at }
    {
        self.grants.iter().any(|grant| grant.is_some_and(|grant| grant.covers(purpose, at, at)))
    }

    /// Whether some grant has all bytes from one to another.
    pub fn spans(&self, purpose: Use, first: u16, last: u16) -> bool
        ensures { result ≡ Rattle.access.specs.Cache.spans self.now purpose first last }
    {
        self.grants.iter().any(|grant| grant.is_some_and(|grant| grant.covers(
            purpose, first, last,
        )))
    }

    /// Whether so many bytes, from an address on, all lie in grants that let this be done with them; no byte past 65,535 does.
    pub fn reach(&self, purpose: Use, address: u16, length: usize) -> bool
        ensures { result ≡ within self.now purpose address length }
    {
        let first = usize::from(address);
        if length > 65536 - first {
            return false;
        }
        // Most often one grant has them all.
        if length > 0 && self.spans(purpose, address, (first + length - 1) as u16) {
            return true;
        }
        (first..first + length).all(|at| self.allows(purpose, at as u16))
    }
}
