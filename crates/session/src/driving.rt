ghost use Rattle.session.specs.Serve.{ending, ending_of};
ghost use Rattle.std.specs.Prelude.{◌≡◌, IfOk, OnOk};

use crate::request::{Reply, Request};
use crate::session::Session;
use book::Book;
use std::alloc::{AllocError, Global};
use store::{Lending, Store};

// Makes a hall of a store and a book, serves the requests one after the other, closes what is left open, and gives the store back.
pub fn drive<S: Store + Drop>(
    alloc: Global,
    store: S,
    book: Book,
    requests: &[Request],
) -> Result<(S, Vec<Reply>), AllocError>
    ensures driven { IfOk result (λ r. ending r.1.items (S.Store.bytes r.0)
        ≡ ending_of requests.now book (S.Store.bytes store)) }
    ensures footing { IfOk result (λ r. S.Store.footing r.0 ≡ S.Store.footing store) }
{
    let mut session = Session::new(store, book);
    let replies = session.serve_all(alloc, requests)?;
    Ok((session.finish(), replies))
}

// The same of a store that is lent, which its lender then has as the hall left it.
pub fn drive_lent<S: Store>(
    alloc: Global,
    store: &mut S,
    book: Book,
    requests: &[Request],
) -> Result<Vec<Reply>, AllocError>
    ensures driven { IfOk result (λ v. ending v.items (S.Store.bytes store.new)
        ≡ ending_of requests.now book (S.Store.bytes store.old)) }
    ensures footing { OnOk result (S.Store.footing store.new ≡ S.Store.footing store.old) }
{
    let (lent, replies) = drive(alloc, Lending::new(store), book, requests)?;
    lent.release();
    Ok(replies)
}
