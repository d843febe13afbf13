ghost use Rattle.std.specs.Prelude.{◌≡◌, [], ◌∷◌, length};

use crate::lent::put;
use store::Store;

/// A store over memory that the caller lends.
#[derive(Drop)]
pub struct Plain<'a> {
    memory: &'a mut [u8],
    ghost full: { length memory.now ≡ 65536 },
}

impl<'a> Plain<'a> {
    /// Needs `check_size` passed.
    pub fn new(memory: &'a mut [u8]) -> Plain<'a>
        requires { length memory.old ≡ 65536 }
        ensures { result.memory ≡ memory.entry }
    {
        Plain { memory }
    }
}

impl Store for Plain<'_> {
    ghost bytes = { λ s. s.memory.now };

    ghost footing = { λ s. s.memory.ghost_name ∷ [] };

    ghost full = { λ s. s.full };

    fn read(&self, address: u16) -> u8 {
        self.memory[usize::from(address)]
    }

    fn read_half(&self, address: u16) -> [u8; 2] {
        let at = usize::from(address - address % 2);
        [self.memory[at], self.memory[at + 1]]
    }

    fn write(&mut self, address: u16, byte: u8) {
        put(self.memory, address, byte);
    }
}
