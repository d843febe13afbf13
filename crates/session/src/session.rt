ghost use Rattle.history.specs.Hall.{new, over};
ghost use Rattle.history.specs.History.{after, answers};
ghost use Rattle.session.specs.Serve.{Made, act_of, history, left, replies, said, serve, spoken};
ghost use Rattle.std.specs.Prelude.{◌≡◌, IfOk, OnOk, map};

use crate::acting::act_in;
use crate::closing::leave;
use crate::request::{Reply, Request};
use crate::slot::{Slot, put, take};
use book::Book;
use hall::Hall;
use std::alloc::{AllocError, Global};
use std::marker::Model;
use store::Store;

// A hall and the handles that are held of it, for each bay its own. Dropped, it closes the bays that are not free.
pub struct Session<S: Store + Drop> {
    hall: Hall<S>,
    slots: [Slot; 8],
}

// A session is seen as its hall: which handles it holds follows from the bays' stages.
impl<S: Store + Drop> Model for Session<S> {
    ghost use Rattle.history.specs.Hall;
    ghost use Rattle.session.specs.Serve.{all_fit};
    ghost use Rattle.std.specs.Prelude.{◌≡◌, true};

    ghost Value = { Hall.Hall };

    ghost view = { λ s. s.hall };

    ghost invariant = { λ s. all_fit s.hall.bays s.slots ≡ true };
}

impl<S: Store + Drop> Drop for Session<S> {
    fn drop(self) {
        let Session { mut hall, slots } = self;
        leave(&mut hall, slots);
    }
}

impl<S: Store + Drop> Session<S> {
    pub fn new(store: S, book: Book) -> Session<S>
        ensures { result ≡ over (S.Store.footing store) (new book.tables (S.Store.bytes store)) }
    {
        Session {
            hall: Hall::new(store, book),
            slots: [
                Slot::Empty,
                Slot::Empty,
                Slot::Empty,
                Slot::Empty,
                Slot::Empty,
                Slot::Empty,
                Slot::Empty,
                Slot::Empty,
            ],
        }
    }

    // Serves a request, or leaves all as it was where there is no memory for what it copies.
    pub fn serve(&mut self, alloc: Global, request: &Request) -> Result<Reply, AllocError>
        ensures { Made result self.old self.new
            (serve request.now.bay (act_of request.now.deed) self.old) }
    {
        let bay = request.bay;
        if !(1..=8).contains(&bay) {
            let (slot, reply) = act_in(alloc, &mut self.hall, bay, Slot::Empty, &request.deed);
            slot.discard();
            return reply;
        }
        let place = usize::from(bay) - 1;
        let slot = take(&mut self.slots, place);
        let (slot, reply) = act_in(alloc, &mut self.hall, bay, slot, &request.deed);
        put(&mut self.slots, place, slot);
        reply
    }

    // Serves one request after the other.
    pub fn serve_all(
        &mut self,
        alloc: Global,
        requests: &[Request],
    ) -> Result<Vec<Reply>, AllocError>
        ensures replies { IfOk result (λ v. map said v.items ≡ replies requests.now self.old) }
        ensures answers { IfOk result (λ v. spoken (map said v.items)
            ≡ answers (history requests.now self.old) self.old) }
        ensures after { OnOk result (self.new ≡ after (history requests.now self.old) self.old) }
    {
        let mut replies = Vec::new(alloc);
        for request in requests {
            replies.push(self.serve(alloc, request)?)?;
        }
        Ok(replies)
    }

    // Closes the bays that are not free, and gives the store back.
    pub fn finish(self) -> S
        ensures bytes { S.Store.bytes result ≡ (left self).bytes }
        ensures footing { S.Store.footing result ≡ (left self).footing }
    {
        let Session { mut hall, slots } = self;
        leave(&mut hall, slots);
        hall.into_store()
    }
}
