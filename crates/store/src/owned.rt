ghost use Rattle.std.proofs.Common.{sym, ◌∙◌};
ghost use Rattle.std.specs.Prelude.{◌≡◌, [], vec_len};

use crate::store::Store;

/// A store that owns its bytes.
#[derive(Drop)]
pub struct Owned {
    held: Vec<u8>,
    ghost full: { vec_len held ≡ 65536 },
}

impl Owned {
    /// Needs `check_size` passed.
    pub fn new(image: Vec<u8>) -> Owned
        requires { vec_len image ≡ 65536 }
        ensures { result.held.items ≡ image.items }
    {
        Owned { held: image }
    }
}

impl Store for Owned {
    ghost bytes = { λ s. s.held.items };

    ghost footing = { λ s. [] };

    ghost full = { λ s. sym s.held.ok.0 ∙ s.full };

    fn read(&self, address: u16) -> u8 {
        self.held[usize::from(address)]
    }

    fn read_half(&self, address: u16) -> [u8; 2] {
        let at = usize::from(address - address % 2);
        [self.held[at], self.held[at + 1]]
    }

    fn write(&mut self, address: u16, byte: u8) {
        let at = usize::from(address);
        self.held[at] = byte;
    }
}
