use crate::mapped::Mapped;
use crate::table_check::{TableError, check_table};
use crate::tests::{HALVES, around, filled, halves, plain, write_both};
use std::test::Fail;
use store::{Lending, Store};

fn reversal() -> [u8; 64] {
    let mut table = [0u8; 64];
    for (page, place) in (0..64u8).zip(table.iter_mut()) {
        *place = 63u8.saturating_sub(page);
    }
    table
}

// Page 1 of the store lies at page 62 below.
#[test]
fn a_page_through_a_table(rt: HostRuntime) -> Result<(), Fail> {
    let table = reversal();
    let mut memory = filled(rt.alloc(), 7)?;
    let mut below = plain(&rt, &mut memory);
    if check_table(&table).is_ok() {
        let mut store = Mapped::new(Lending::new(&mut below), table);
        write_both(&mut store);
        assert_eq!(rt; around(&store), [7, 1, 7, 7, 2, 7]);
        assert_eq!(rt; halves(&store), HALVES);
    }
    assert_eq!(rt;
        [
            below.read(63488),
            below.read(63489),
            below.read(64510),
            below.read(64511)
        ],
        [1, 7, 7, 2]
    );
    assert_eq!(rt; [below.read(1024), below.read(2047)], [7, 7]);
    Ok(())
}

#[test]
fn tables_that_are_none(rt: HostRuntime) -> Result<(), Fail> {
    let mut table = reversal();
    assert_eq!(rt; check_table(&table).map_err(TableError::number), Ok(()));
    table[0] = 64;
    assert_eq!(rt; check_table(&table).map_err(TableError::number), Err(9));
    table[0] = 62;
    assert_eq!(rt; check_table(&table).map_err(TableError::number), Err(9));
    Ok(())
}
