ghost use Rattle.stores.specs.Mapped.{is_page_table, length-mapped_bytes, mapped_bytes, place};
ghost use Rattle.std.specs.Prelude.{◌≡◌, ◌++◌, ◌/◌, ◌<◌, length, slice_index, true};

use store::Store;

/// A store by the pages of another: page p is the one below that the table gives for p.
#[derive(Drop)]
pub struct Mapped<S: Store> {
    below: S,
    table: [u8; 64],
    ghost paged: { length table ≡ 64 },
    ghost once: { is_page_table table ≡ true },
}

impl<S: Store> Mapped<S> {
    /// Needs `check_table` passed.
    pub fn new(below: S, table: [u8; 64]) -> Mapped<S>
        requires { is_page_table table ≡ true }
        ensures below { result.below ≡ below }
        ensures table { result.table ≡ table }
    {
        Mapped { below, table }
    }

    /// The store below, as it is by then.
    pub fn release(self) -> S
        ensures { result ≡ self.below }
    {
        let Mapped { below, table: _ } = self;
        below
    }

    // The page below that the page of an address is.
    fn page_at(&self, address: u16) -> u16
        ensures is { result ≡ slice_index self.now.table (address / 1024) }
        ensures within { result < 64 }
    {
        u16::from(self.table[usize::from(address / 1024)])
    }

    // Where the byte at an address stands below.
    fn place_of(&self, address: u16) -> u16
        ensures { result ≡ place self.now.table address }
    {
        self.page_at(address) * 1024 + address % 1024
    }
}

impl<S: Store> Store for Mapped<S> {
    ghost bytes = { λ s. mapped_bytes s.table (S.Store.bytes s.below) };

    ghost footing = { λ s. s.table ++ S.Store.footing s.below };

    ghost full = { λ s. length-mapped_bytes s.table (S.Store.bytes s.below) };

    fn read(&self, address: u16) -> u8 {
        self.below.read(self.place_of(address))
    }

    // No halfword lies across two pages.
    fn read_half(&self, address: u16) -> [u8; 2] {
        self.below.read_half(self.place_of(address))
    }

    fn write(&mut self, address: u16, byte: u8) {
        let place = self.place_of(address);
        self.below.write(place, byte);
    }
}

#[cfg(test)]
mod tests;
