ghost use Rattle.std.specs.Prelude.{◌≡◌, IfOk, vec_len};
ghost use Rattle.cli.specs.Assembled.{assembled_bytes, zeros};

use crate::failure::{Failure, Fault};
use book::Book;
use job::{Job, read_job};
use listing::assemble_into;
use std::alloc::{AllocError, Global};
use std::io::Read;
use std::{fs, io};
use store::{Owned, check_size};

pub fn read_file(rt: &HostRuntime, name: &str) -> Result<Vec<u8>, Failure> {
    fs::read(rt, name).map_err(|e| Failure::of_file(rt.alloc(), name, Fault::System(e)))
}

// All of standard input.
pub fn read_input(rt: &HostRuntime) -> io::Result<Vec<u8>> {
    let mut text = Vec::new(rt.alloc());
    let _count = rt.stdin().read_to_end(&mut text)?;
    Ok(text)
}

pub fn read_book(rt: &HostRuntime, name: &str) -> Result<Book, Failure> {
    let text = read_file(rt, name)?;
    let mut book = Book::new();
    book.read(&text).map_err(|refused| Failure::of_file(rt.alloc(), name, Fault::Book(refused)))?;
    book.tabulate(rt.alloc());
    Ok(book)
}

// An image of a store's size.
pub fn read_image(rt: &HostRuntime, name: &str) -> Result<Vec<u8>, Failure>
    ensures { IfOk result (λ v. vec_len v ≡ 65536) }
{
    let image = read_file(rt, name)?;
    let bytes = image.len();
    check_size(&image).map_err(|unmade| Failure::of_file(
        rt.alloc(),
        name,
        Fault::Image { unmade, bytes },
    ))?;
    Ok(image)
}

pub fn parse_job<'a>(rt: &HostRuntime, name: &str, text: &'a [u8]) -> Result<Job<'a>, Failure> {
    read_job(text).map_err(|refused| Failure::of_file(rt.alloc(), name, Fault::Job(refused)))
}

// So many bytes of zero.
#[tactic(auto, unfolding(crate::specs::Assembled::zeros))]
pub fn zeroed(alloc: Global, length: usize) -> Result<Vec<u8>, AllocError>
    ensures bytes { IfOk result (λ v. v.items ≡ zeros length) }
    ensures len { IfOk result (λ v. vec_len v ≡ length) }
{
    vec![in alloc; 0u8; length]
}

// A store with what the listing places, and zero elsewhere.
pub fn assembled(alloc: Global, book: &Book, name: &str, text: &[u8]) -> Result<Owned, Failure>
    ensures { IfOk result (λ store. store.held.items ≡ assembled_bytes book.now.tables text.now) }
{
    let mut store = Owned::new(zeroed(alloc, 65536)?);
    assemble_into(book, text, &mut store).map_err(|refused| Failure::of_file(
        alloc,
        name,
        Fault::Listing(refused),
    ))?;
    Ok(store)
}

// Refuses what is no whole number of the job's records.
pub fn refuse_partial(alloc: Global, job: &Job, name: &str, records: &[u8]) -> Result<(), Failure> {
    let bytes = records.len();
    let size = job.input.bytes();
    if bytes.checked_rem(size) != Some(0) {
        return Err(Failure::of_file(alloc, name, Fault::Records { bytes, size }));
    }
    Ok(())
}

pub fn read_records(rt: &HostRuntime, job: &Job) -> Result<Vec<u8>, Failure> {
    let records = read_file(rt, job.records)?;
    refuse_partial(rt.alloc(), job, job.records, &records)?;
    Ok(records)
}

// Refuses an output file that is there already; `file` is what the program calls it.
pub fn refuse_existing(rt: &HostRuntime, name: &str, file: &'static str) -> Result<(), Failure> {
    if fs::exists(rt, name)? {
        return Err(Failure::of_file(rt.alloc(), name, Fault::Exists(file)));
    }
    Ok(())
}
