// One history over each kind of store and over piles of them: the answers are the same.
use crate::lending::{LendError, drive_image, drive_memory};
use access::{Grant, Kind};
use book::Book;
use session::{Deed, Reply, Request, drive};
use std::alloc::Global;
use std::process::Abort;
use std::test::Fail;
use store::{SizeError, Store, check_size};
use stores::{Image, Plain};

const FIRST: u16 = 1020;

// Every byte tells its address.
pub(crate) fn image(alloc: Global) -> Result<Vec<u8>, Fail> {
    let mut image = vec![in alloc; 0u8; 65536]?;
    for (at, byte) in image.iter_mut().enumerate() {
        *byte = (at % 251) as u8;
    }
    Ok(image)
}

pub(crate) fn plain<'a>(rt: &impl Abort, memory: &'a mut [u8]) -> Plain<'a> {
    match check_size(memory) {
        Ok(()) => Plain::new(memory),
        Err(_unmade) => panic!(rt; "a store's size"),
    }
}

pub(crate) fn over_image<'a>(rt: &impl Abort, image: &'a [u8], work: &'a mut [u8]) -> Image<'a> {
    match (check_size(image), check_size(work)) {
        (Ok(()), Ok(())) => Image::new(image, work),
        _ => panic!(rt; "a store's size"),
    }
}

// Writes the last bytes of a page and the first of the next one, and copies them with their neighbours.
pub(crate) fn history(alloc: Global) -> Result<Vec<Request>, Fail> {
    let bay = 1;
    let grant = Grant {
        kind: Kind::Write,
        first: 1000,
        last: 3000,
    };
    let bytes = [1u8, 2, 3, 4].to_vec(alloc)?;
    Ok(vec![in alloc;
        Request {
            bay,
            deed: Deed::Open
        },
        Request {
            bay,
            deed: Deed::Grant(grant)
        },
        Request {
            bay,
            deed: Deed::Load(FIRST + 2, bytes)
        },
        Request {
            bay,
            deed: Deed::Copy(FIRST, 8)
        },
    ]?)
}

pub(crate) fn copied<S: Store + Drop>(alloc: Global, store: S) -> Result<Vec<u8>, Fail> {
    let requests = history(alloc)?;
    let (_store, replies) = drive(alloc, store, Book::new(), &requests)?;
    match replies.last() {
        Some(Reply::Copied(bytes)) => Ok(bytes.as_slice().to_vec(alloc)?),
        _ => Ok(Vec::new(alloc)),
    }
}

// 1020 is 4 times 251 and 16.
pub(crate) const ANSWER: [u8; 8] = [16, 17, 1, 2, 3, 4, 22, 23];

#[test]
fn over_lent_memory(rt: HostRuntime) -> Result<(), Fail> {
    let mut memory = image(rt.alloc())?;
    let bytes = copied(rt.alloc(), plain(&rt, &mut memory))?;
    assert_eq!(rt; bytes.as_slice(), ANSWER.as_slice());
    Ok(())
}

#[test]
fn over_an_image_that_stays(rt: HostRuntime) -> Result<(), Fail> {
    let image = image(rt.alloc())?;
    let mut work = vec![in rt.alloc(); 0u8; 65536]?;
    let bytes = copied(rt.alloc(), over_image(&rt, &image, &mut work))?;
    assert_eq!(rt; bytes.as_slice(), ANSWER.as_slice());
    Ok(())
}

pub(crate) fn at(memory: &[u8], places: [usize; 4]) -> [u8; 4] {
    places.map(|place| memory.get(place).copied().unwrap_or(0))
}

// The grant reaches from 1000 to 3000, and its bytes are zero once the bay is closed.
#[test]
fn what_a_lender_gets_back(rt: HostRuntime) -> Result<(), Fail> {
    let mut memory = image(rt.alloc())?;
    let requests = history(rt.alloc())?;
    let replies = drive_memory(rt.alloc(), &mut memory, Book::new(), &requests);
    assert_eq!(rt; replies.map_or(0, |replies| replies.len()), 4);
    assert_eq!(rt; at(&memory, [999, 1000, 3000, 3001]), [246, 0, 0, 240]);
    Ok(())
}

// The same of an image, which stays: pages 0 to 2 are copied.
#[test]
fn what_a_lender_of_an_image_gets_back(rt: HostRuntime) -> Result<(), Fail> {
    let image = image(rt.alloc())?;
    let mut work = vec![in rt.alloc(); 9u8; 65536]?;
    let requests = history(rt.alloc())?;
    let Ok(end) = drive_image(rt.alloc(), &image, &mut work, Book::new(), &requests) else {
        panic!(rt; "two stores, and memory");
    };
    let copied = end.0;
    assert_eq!(rt; &copied[0..4], [true, true, true, false].as_slice());
    assert_eq!(rt; at(&work, [999, 1000, 3000, 3001]), [246, 0, 0, 240]);
    assert_eq!(rt; at(&work, [3071, 3072, 65535, 0]), [59, 9, 9, 0]);
    assert_eq!(rt; at(&image, [999, 1000, 3000, 3001]), [246, 247, 239, 240]);
    Ok(())
}

#[test]
fn memory_that_is_no_store(rt: HostRuntime) -> Result<(), Fail> {
    let mut memory = vec![in rt.alloc(); 9u8; 65535]?;
    let requests = history(rt.alloc())?;
    let Err(refused) = drive_memory(rt.alloc(), &mut memory, Book::new(), &requests) else {
        panic!(rt; "no store");
    };
    assert_eq!(rt; refused, LendError::Size(SizeError::Size));
    assert!(rt; memory.iter().all(|byte| *byte == 9));
    Ok(())
}
