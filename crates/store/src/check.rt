ghost use Rattle.store.specs.Check.{size_check};
ghost use Rattle.std.specs.Prelude.{◌≡◌, length};

use thiserror::Error;

/// Why a store cannot be made.
#[derive(Clone, Copy, Debug, PartialEq, Eq, Error)]
pub enum SizeError {
    #[error("a store has 65536 bytes")]
    Size = 8,
}

impl SizeError {
    pub fn number(self) -> u8
        ensures { result ≡ Rattle.store.specs.Check.number self }
    {
        self as u8
    }
}

/// The check before a store is made: refuses memory of another size than 65,536 bytes.
pub fn check_size(memory: &[u8]) -> Result<(), SizeError>
    ensures { result ≡ size_check (length memory.now) }
{
    if memory.len() == 65536 {
        Ok(())
    } else {
        Err(SizeError::Size)
    }
}
