ghost use Rattle.bays.specs.Bays;
ghost use Rattle.book.specs.Sound.{sound};
ghost use Rattle.history.specs.Hall.{new, over};
ghost use Rattle.history.specs.Laws.{AnyFooting, Confinement, Exchange, FootingUnheard, Isolation, Order};
ghost use Rattle.std.specs.Prelude.{◌≡◌, length, true};

use crate::handle::{AtStage, Handle};
use bays::{Bay, Refusal, Table};
use book::Book;
use std::marker::Model;
use store::Store;

/// A store and a book, and eight bays.
#[derive(Drop)]
pub struct Hall<S: Store> {
    pub(crate) store: S,
    pub(crate) book: Book,
    pub(crate) table: Table,
}

// A hall is seen as calls see it.
impl<S: Store> Model for Hall<S> {
    ghost Value = { Rattle.history.specs.Hall.Hall };

    ghost view = { λ h. record { book = h.book.tables; bays = h.table.bays; bytes = S.Store.bytes h.store; footing = S.Store.footing h.store } };
}

impl<S: Store> Hall<S> {
    /// A hall with eight free bays. What is promised here of every history holds of the calls below, whose contracts cite the same
    /// definitions.
    pub fn new(store: S, book: Book) -> Hall<S>
        ensures made { result ≡ over (S.Store.footing store) (new book.tables (S.Store.bytes store)) }
        ensures isolation { Isolation }
        ensures order { Order }
        ensures exchange { Exchange }
        ensures confinement { Confinement }
        ensures any_footing { AnyFooting }
        ensures footing_unheard { FootingUnheard }
    {
        Hall {
            store,
            book,
            table: Table::new(),
        }
    }

    /// What holds of every hall, whatever calls it met: it has eight bays, and its book is sound.
    pub fn is_whole(&self)
        ensures eight { length self.now.bays ≡ 8 }
        ensures sound { sound self.now.book ≡ true }
    {
        let _table = &self.table;
        let _book = &self.book;
    }

    /// The store, as the calls left it.
    pub fn into_store(self) -> S
        ensures bytes { S.Store.bytes result ≡ self.bytes }
        ensures footing { S.Store.footing result ≡ self.footing }
    {
        let Hall { store, .. } = self;
        store
    }

    // The bay that a handle names, as it is now, if it is at the handle's stage.
    pub(crate) fn entered<K: AtStage>(&self, handle: &Handle<K>) -> Result<Bay, Refusal>
        ensures { result ≡ Rattle.bays.specs.Bays.entered K.STAGE self.now.bays handle.now.bay }
    {
        self.table.entered(handle.bay, K::STAGE)
    }
}
