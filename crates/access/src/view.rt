ghost use Rattle.access.specs.Access.{full_at, half_at, item_may, item_read, seen, sight_of, viewed};
ghost use Rattle.access.specs.declared.item.Item.TheVariants.{Halfword};
ghost use Rattle.std.specs.Prelude.{◌≡◌, ◌%◌};

use crate::item::Held;
use crate::kind::Use;
use crate::reach::Reach;
use crate::stop::Denial;
use std::marker::Model;
use store::Store;
use word::bytes::{full_of, half_of};

/// What a step can see and ask: the store, through the rights of its program.
#[derive(Drop)]
pub struct View<'a, S: Store> {
    store: &'a S,
    reach: &'a Reach,
}

impl<'a, S: Store> Model for View<'a, S> {
    ghost use Rattle.access.specs.Access.{Viewed, viewed};

    ghost Value = { Viewed };

    ghost view = { λ v. viewed v.reach.now (S.Store.bytes v.store.now) };
}

impl<'a, S: Store> View<'a, S> {
    #[inline(always)]
    pub fn new(store: &'a S, reach: &'a Reach) -> View<'a, S>
        ensures { result ≡ viewed reach.now (S.Store.bytes store.now) }
    {
        View { store, reach }
    }

    /// The same view once more: what a function that stays one is lent must stand in memory, and what a step looks through should not.
    #[inline(always)]
    pub fn reborrow(&self) -> View<'a, S>
        ensures { result ≡ self.now }
    {
        View::new(self.store, self.reach)
    }

    #[inline(always)]
    fn byte_for(&self, purpose: Use, at: u16) -> Result<u8, Denial>
        ensures { result ≡ seen self.now.rights purpose self.now.bytes at }
    {
        let reach = self.reach;
        if reach.hits(purpose, at, at) {
            return Ok(self.store.read(at));
        }
        // Taken apart, here and below: as it stands it would be made in memory, and so would what the cache serves.
        Ok(self.reborrow().byte_slowly(purpose, at)?)
    }

    #[inline(never)]
    fn byte_slowly(&self, purpose: Use, at: u16) -> Result<u8, Denial>
        ensures { result ≡ seen self.now.rights purpose self.now.bytes at }
    {
        let reach = self.reach;
        reach.check(purpose, at)?;
        Ok(self.store.read(at))
    }

    #[inline(always)]
    fn pair_for(&self, purpose: Use, at: u16) -> Result<u16, Denial>
        requires { at % 2 ≡ 0 }
        ensures { result ≡ half_at (seen self.now.rights purpose self.now.bytes) at }
    {
        let reach = self.reach;
        if reach.hits(purpose, at, at + 1) {
            let [high, low] = self.store.read_half(at);
            return Ok(half_of(high, low));
        }
        Ok(self.reborrow().pair_slowly(purpose, at)?)
    }

    #[inline(never)]
    fn pair_slowly(&self, purpose: Use, at: u16) -> Result<u16, Denial>
        requires { at % 2 ≡ 0 }
        ensures { result ≡ half_at (seen self.now.rights purpose self.now.bytes) at }
    {
        if self.reach.spans(purpose, at, at + 1) {
            let [high, low] = self.store.read_half(at);
            return Ok(half_of(high, low));
        }
        let high = self.byte_slowly(purpose, at)?;
        let low = self.byte_slowly(purpose, at + 1)?;
        Ok(half_of(high, low))
    }

    #[inline(always)]
    pub(crate) fn byte(&self, at: u16) -> Result<u8, Denial>
        ensures { result ≡ (sight_of self.now).look at }
    {
        self.byte_for(Use::Read, at)
    }

    #[inline(always)]
    pub(crate) fn pair(&self, at: u16) -> Result<u16, Denial>
        requires { at % 2 ≡ 0 }
        ensures { result ≡ half_at (sight_of self.now).look at }
    {
        self.pair_for(Use::Read, at)
    }

    // A fullword by its halves, both most often under one grant.
    #[inline(always)]
    pub(crate) fn quad(&self, at: u16) -> Result<u32, Denial>
        requires { at % 4 ≡ 0 }
        ensures { result ≡ full_at (sight_of self.now).look at }
    {
        let high = self.pair(at)?;
        let low = self.pair(at + 2)?;
        Ok(full_of(high, low))
    }

    /// The halfword of an instruction.
    #[inline(always)]
    pub fn fetch(&self, at: u16) -> Result<u16, Denial>
        ensures { result ≡ item_read Halfword (sight_of self.now).fetch at }
    {
        self.pair_for(Use::Fetch, at - at % 2)
    }

    /// Leave to write an item.
    #[inline(always)]
    pub fn may_write<T: Held>(&self, at: u16) -> Result<(), Denial>
        ensures { result ≡ item_may T.ITEM (sight_of self.now).may at }
    {
        T::may_write(self.reach, at)
    }
}
