ghost use Rattle.std.specs.Prelude.{◌≡◌, ◌∷◌};

use crate::store::Store;

/// A store that its owner lends for a while: what is written is written there, and `release` gives it back.
#[derive(Drop)]
pub struct Lending<'a, S: Store> {
    store: &'a mut S,
}

impl<'a, S: Store> Lending<'a, S> {
    pub fn new(store: &'a mut S) -> Lending<'a, S>
        ensures { result.store ≡ store.entry }
    {
        Lending { store }
    }

    pub fn release(self) -> &'a mut S
        ensures { result ≡ self.entry.store }
    {
        let Lending { store } = self;
        store
    }
}

impl<S: Store> Store for Lending<'_, S> {
    ghost bytes = { λ s. S.Store.bytes s.store.now };

    ghost footing = { λ s. s.store.ghost_name ∷ S.Store.footing s.store.now };

    ghost full = { λ s. S.Store.full s.store.now };

    fn read(&self, address: u16) -> u8 {
        self.store.read(address)
    }

    fn read_half(&self, address: u16) -> [u8; 2] {
        self.store.read_half(address)
    }

    fn write(&mut self, address: u16, byte: u8) {
        self.store.write(address, byte);
    }
}
