ghost use Rattle.access.specs.Access.{checked, full_may, half_may};
ghost use Rattle.access.specs.Cache.{IsAmong, no_bytes, spans};
ghost use Rattle.access.specs.declared.kind.Use.TheVariants.{Write};
ghost use Rattle.access.specs.declared.rights.Rights.{Rights};
ghost use Rattle.std.specs.Prelude.{◌≡◌, ◌<◌, ◌≤◌, ℕ, length, slice_index_or, true};

use crate::kind::{Kind, Use};
use crate::rights::{Grant, Rights};
use crate::stop::Denial;
use std::marker::Model;

// Stands for a page of which no grant has a byte, and has none itself.
const NO_BYTES: Grant = Grant {
    kind: Kind::Read,
    first: 1,
    last: 0,
};

/// The rights of a program as a turn asks them: with a cache that has, for each page of 1,024 bytes, the grant that most likely has a byte
/// of it, which is asked first. Of a grant in the cache is known only that what it has some grant of the rights has.
#[derive(Drop)]
pub struct Reach {
    rights: Rights,
    cache: [Grant; 64],
    ghost paged: { length cache ≡ 64 },
    ghost among: { (page : ℕ) → IsAmong (slice_index_or cache page no_bytes) rights },
}

impl Model for Reach {
    ghost Value = { Rights };

    ghost view = { λ r. r.rights };
}

impl Reach {
    pub fn new(rights: &Rights) -> Reach
        ensures { result ≡ rights.now }
    {
        let mut reach = Reach {
            rights: *rights,
            cache: [NO_BYTES; 64],
        };
        for place in 0..6 {
            reach.enter(place);
        }
        reach
    }

    // The grant at a place goes into the cache for each page in which it begins, goes on or ends.
    fn enter(&mut self, place: usize)
        requires { place < 6 }
        ensures { self.new ≡ self.old }
    {
        if let Some(grant) = self.rights.grants[place] {
            for page in grant.first / 1024..grant.last / 1024 + 1 {
                self.enter_at(usize::from(page), grant);
            }
        }
    }

    fn enter_at(&mut self, page: usize, grant: Grant)
        requires { (page < 64) × IsAmong grant self.old }
        ensures { self.new ≡ self.old }
    {
        self.cache[page] = grant;
    }

    // Whether the grant in the cache has all of these bytes. Where it has not, another one may.
    #[inline(always)]
    pub(crate) fn hits(&self, purpose: Use, first: u16, last: u16) -> bool
        requires { first ≤ last }
        ensures { result ≡ true → spans self.now purpose first last ≡ true }
    {
        self.cache[usize::from(first / 1024)].covers(purpose, first, last)
    }

    #[inline(always)]
    pub(crate) fn spans(&self, purpose: Use, first: u16, last: u16) -> bool
        ensures { result ≡ Rattle.access.specs.Cache.spans self.now purpose first last }
    {
        self.rights.spans(purpose, first, last)
    }

    // Here and below the slow path, past the cache, is a function that stays one: inlined, the way of a step would be many times as long.
    #[inline(never)]
    pub(crate) fn check(&self, purpose: Use, at: u16) -> Result<(), Denial>
        ensures { result ≡ checked self.now purpose at }
    {
        if self.spans(purpose, at, at) {
            Ok(())
        } else {
            Err(Denial {
                access: purpose.access(),
                byte: at,
            })
        }
    }

    #[inline(always)]
    pub(crate) fn may_write(&self, at: u16) -> Result<(), Denial>
        ensures { result ≡ checked self.now Write at }
    {
        if self.hits(Use::Write, at, at) {
            return Ok(());
        }
        self.check(Use::Write, at)
    }

    #[inline(always)]
    pub(crate) fn may_write_pair(&self, at: u16) -> Result<(), Denial>
        requires { at < 65535 }
        ensures { result ≡ half_may (checked self.now Write) at }
    {
        if self.hits(Use::Write, at, at + 1) {
            return Ok(());
        }
        self.may_write_pair_slowly(at)
    }

    #[inline(never)]
    fn may_write_pair_slowly(&self, at: u16) -> Result<(), Denial>
        requires { at < 65535 }
        ensures { result ≡ half_may (checked self.now Write) at }
    {
        if self.spans(Use::Write, at, at + 1) {
            return Ok(());
        }
        self.check(Use::Write, at)?;
        self.check(Use::Write, at + 1)
    }

    #[inline(always)]
    pub(crate) fn may_write_quad(&self, at: u16) -> Result<(), Denial>
        requires { at < 65533 }
        ensures { result ≡ full_may (checked self.now Write) at }
    {
        if self.hits(Use::Write, at, at + 3) {
            return Ok(());
        }
        self.may_write_quad_slowly(at)
    }

    #[inline(never)]
    fn may_write_quad_slowly(&self, at: u16) -> Result<(), Denial>
        requires { at < 65533 }
        ensures { result ≡ full_may (checked self.now Write) at }
    {
        if self.spans(Use::Write, at, at + 3) {
            return Ok(());
        }
        self.may_write_pair_slowly(at)?;
        self.may_write_pair_slowly(at + 2)
    }
}
