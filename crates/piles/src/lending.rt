ghost use Rattle.piles.specs.Images.{AreFull, shown};
ghost use Rattle.session.specs.Serve.{ending, ending_of};
ghost use Rattle.piles.specs.declared.lending.LendError.TheVariants.{Size as Refused};
ghost use Rattle.store.specs.declared.check.SizeError.TheVariants.{Size};
ghost use Rattle.std.specs.Prelude.{◌≡◌, ◌≢◌, ◌↔◌, Err, IfOk, length};

use book::Book;
use session::{Reply, Request, drive_lent};
use std::alloc::{AllocError, Global};
use store::{SizeError, check_size};
use stores::{Image, Plain};
use thiserror::Error;

/// Why nothing was driven over lent memory, or not to its end.
#[derive(Clone, Copy, Debug, PartialEq, Eq, Error)]
pub enum LendError {
    #[error("{0}")]
    Size(SizeError),
    #[error("{0}")]
    Memory(AllocError),
}

/// The memory is then what the hall left.
pub fn drive_memory(
    alloc: Global,
    memory: &mut [u8],
    book: Book,
    requests: &[Request],
) -> Result<Vec<Reply>, LendError>
    ensures refused { (result ≡ Err (Refused Size)) ↔ (length memory.old ≢ 65536) }
    ensures kept { length memory.old ≢ 65536 → memory.new ≡ memory.old }
    ensures driven { IfOk result (λ v. ending v.items memory.new
        ≡ ending_of requests.now book memory.old) }
{
    if let Err(refused) = check_size(memory) {
        return Err(LendError::Size(refused));
    }
    let mut store = Plain::new(memory);
    match drive_lent(alloc, &mut store, book, requests) {
        Ok(replies) => Ok(replies),
        Err(full) => Err(LendError::Memory(full)),
    }
}

/// The working memory then has the copied pages as the hall left them, and the image has the others.
pub fn drive_image(
    alloc: Global,
    image: &[u8],
    work: &mut [u8],
    book: Book,
    requests: &[Request],
) -> Result<([bool; 64], Vec<Reply>), LendError>
    ensures refused { (result ≡ Err (Refused Size)) ↔ ¬ AreFull image.now work.old }
    ensures kept { ¬ AreFull image.now work.old → work.new ≡ work.old }
    ensures driven { IfOk result (λ r. ending r.1.items (shown image.now work.new r.0)
        ≡ ending_of requests.now book image.now) }
{
    if let Err(refused) = check_size(image) {
        return Err(LendError::Size(refused));
    }
    if let Err(refused) = check_size(work) {
        return Err(LendError::Size(refused));
    }
    let mut store = Image::new(image, work);
    match drive_lent(alloc, &mut store, book, requests) {
        Ok(replies) => Ok((store.copied(), replies)),
        Err(full) => Err(LendError::Memory(full)),
    }
}
