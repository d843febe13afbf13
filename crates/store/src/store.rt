ghost use Rattle.store.specs.Store.{pair_at};
ghost use Rattle.std.specs.Prelude.{◌≡◌, ℕ, List, length, slice_index, slice_set};

/// A store is known by the list of its bytes. Reading alters none; writing alters one and no other; neither refuses.
pub trait Store {
    ghost bytes: { Self → List ℕ };

    // What it stands on, as numbers of its own choice: no write alters them.
    ghost footing: { Self → List ℕ };

    fn read(&self, address: u16) -> u8
        ensures { result ≡ slice_index (bytes self.now) address };

    /// The two bytes of the halfword in which the address lies.
    fn read_half(&self, address: u16) -> [u8; 2]
        ensures { result ≡ pair_at (bytes self.now) address };

    fn write(&mut self, address: u16, byte: u8)
        ensures bytes { bytes self.new ≡ slice_set (bytes self.old) address byte }
        ensures footing { footing self.new ≡ footing self.old };

    ghost full: { (store : Self) → length (bytes store) ≡ 65536 };
}
