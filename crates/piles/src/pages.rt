ghost use Rattle.session.specs.Serve.{ending, ending_of};
ghost use Rattle.piles.specs.declared.pages.PagesError.TheVariants.{Table};
ghost use Rattle.stores.specs.Mapped.{is_page_table, mapped_bytes};
ghost use Rattle.stores.specs.declared.table_check.TableError.TheVariants.{Page};
ghost use Rattle.std.specs.Prelude.{◌≡◌, ◌↔◌, Err, IfOk, OnOk, false, true};

use book::Book;
use session::{Reply, Request, drive_lent};
use std::alloc::{AllocError, Global};
use store::{Lending, Store};
use stores::{Mapped, TableError, check_table};
use thiserror::Error;

/// Why nothing was driven over the pages of a store, or not to its end.
#[derive(Clone, Copy, Debug, PartialEq, Eq, Error)]
pub enum PagesError {
    #[error("{0}")]
    Table(TableError),
    #[error("{0}")]
    Memory(AllocError),
}

// By a table that has passed.
fn drive_pages<S: Store>(
    alloc: Global,
    below: &mut S,
    table: [u8; 64],
    book: Book,
    requests: &[Request],
) -> Result<Vec<Reply>, AllocError>
    requires { is_page_table table ≡ true }
    ensures driven { IfOk result (λ v. ending v.items (mapped_bytes table (S.Store.bytes below.new))
        ≡ ending_of requests.now book (mapped_bytes table (S.Store.bytes below.old))) }
    ensures footing { OnOk result (S.Store.footing below.new ≡ S.Store.footing below.old) }
{
    let mut store = Mapped::new(Lending::new(below), table);
    let replies = drive_lent(alloc, &mut store, book, requests)?;
    store.release().release();
    Ok(replies)
}

/// By the table, the store is then what the hall left. It may be a pile itself.
pub fn drive_mapped<S: Store>(
    alloc: Global,
    below: &mut S,
    table: [u8; 64],
    book: Book,
    requests: &[Request],
) -> Result<Vec<Reply>, PagesError>
    ensures refused { (result ≡ Err (Table Page)) ↔ (is_page_table table ≡ false) }
    ensures kept { is_page_table table ≡ false → below.new ≡ below.old }
    ensures driven { IfOk result (λ v. ending v.items (mapped_bytes table (S.Store.bytes below.new))
        ≡ ending_of requests.now book (mapped_bytes table (S.Store.bytes below.old))) }
    ensures footing { OnOk result (S.Store.footing below.new ≡ S.Store.footing below.old) }
{
    if let Err(refused) = check_table(&table) {
        return Err(PagesError::Table(refused));
    }
    match drive_pages(alloc, below, table, book, requests) {
        Ok(replies) => Ok(replies),
        Err(full) => Err(PagesError::Memory(full)),
    }
}

#[cfg(test)]
mod tests;
