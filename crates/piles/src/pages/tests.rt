use crate::pages::{PagesError, drive_mapped};
use crate::tests::{ANSWER, at, copied, history, image, over_image, plain};
use book::Book;
use std::alloc::Global;
use std::process::Abort;
use std::test::Fail;
use store::Store;
use stores::{Mapped, TableError, check_table};

// The same bytes, the last page first.
fn backwards(alloc: Global) -> Result<Vec<u8>, Fail> {
    let mut image = vec![in alloc; 0u8; 65536]?;
    for (at, byte) in image.iter_mut().enumerate() {
        *byte = (((63 - at / 1024) * 1024 + at % 1024) % 251) as u8;
    }
    Ok(image)
}

fn identity() -> [u8; 64] {
    let mut table = [0u8; 64];
    for (page, place) in (0..64u8).zip(table.iter_mut()) {
        *place = page;
    }
    table
}

fn reversal() -> [u8; 64] {
    let mut table = [0u8; 64];
    for (page, place) in (0..64u8).zip(table.iter_mut()) {
        *place = 63u8.saturating_sub(page);
    }
    table
}

// A store by another's pages, where the table is one.
fn mapped<S: Store + Drop>(rt: &impl Abort, below: S, table: [u8; 64]) -> Mapped<S> {
    match check_table(&table) {
        Ok(()) => Mapped::new(below, table),
        Err(_unmapped) => panic!(rt; "a page table"),
    }
}

#[test]
fn over_pages_in_their_order(rt: HostRuntime) -> Result<(), Fail> {
    let image = image(rt.alloc())?;
    let mut work = vec![in rt.alloc(); 0u8; 65536]?;
    let below = over_image(&rt, &image, &mut work);
    let bytes = copied(rt.alloc(), mapped(&rt, below, identity()))?;
    assert_eq!(rt; bytes.as_slice(), ANSWER.as_slice());
    Ok(())
}

#[test]
fn over_pages_the_last_first(rt: HostRuntime) -> Result<(), Fail> {
    let mut memory = backwards(rt.alloc())?;
    let below = plain(&rt, &mut memory);
    let bytes = copied(rt.alloc(), mapped(&rt, below, reversal()))?;
    assert_eq!(rt; bytes.as_slice(), ANSWER.as_slice());
    Ok(())
}

#[test]
fn over_pages_turned_twice(rt: HostRuntime) -> Result<(), Fail> {
    let image = image(rt.alloc())?;
    let mut work = vec![in rt.alloc(); 0u8; 65536]?;
    let below = mapped(&rt, over_image(&rt, &image, &mut work), reversal());
    let bytes = copied(rt.alloc(), mapped(&rt, below, reversal()))?;
    assert_eq!(rt; bytes.as_slice(), ANSWER.as_slice());
    Ok(())
}

// The last page first: address 1000 lies at 65,512, and 3000 at 63,416.
#[test]
fn what_a_lender_of_pages_gets_back(rt: HostRuntime) -> Result<(), Fail> {
    let mut memory = backwards(rt.alloc())?;
    let table = reversal();
    let requests = history(rt.alloc())?;
    let mut below = plain(&rt, &mut memory);
    let replies = drive_mapped(rt.alloc(), &mut below, table, Book::new(), &requests);
    assert_eq!(rt; replies.map_or(0, |replies| replies.len()), 4);
    assert_eq!(rt; at(&memory, [65511, 65512, 63416, 63417]), [246, 0, 0, 240]);
    Ok(())
}

#[test]
fn a_table_that_is_none(rt: HostRuntime) -> Result<(), Fail> {
    let mut memory = image(rt.alloc())?;
    let mut below = plain(&rt, &mut memory);
    let requests = history(rt.alloc())?;
    let mut table = identity();
    table[63] = 64;
    for table in [table, [0; 64]] {
        let Err(refused) = drive_mapped(rt.alloc(), &mut below, table, Book::new(), &requests)
        else {
            panic!(rt; "no table");
        };
        assert_eq!(rt; refused, PagesError::Table(TableError::Page));
    }
    assert_eq!(rt; at(&memory, [999, 1000, 3000, 3001]), [246, 247, 239, 240]);
    Ok(())
}
