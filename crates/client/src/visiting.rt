ghost use Rattle.bays.specs.Bays.{bay_at};
ghost use Rattle.client.specs.Visits.{visited};
ghost use Rattle.history.specs.Calls.{answered, call, close, shared, stop_told, turned};
ghost use Rattle.history.specs.Hall.{apply, new, over};
ghost use Rattle.std.specs.Prelude.{◌≡◌, Some};

use access::Grant;
use bays::Refusal;
use book::Book;
use hall::{AtStage, Hall, Handle};
use store::Store;
use turns::Turned;

// Gives a handle back to the hall that it came from: a close is not refused where the bay is at the handle's stage.
fn leave<S: Store, K: AtStage>(hall: &mut Hall<S>, handle: Handle<K>)
    requires { (bay_at hall.old.bays handle.bay).stage ≡ Some K.STAGE }
    ensures { hall.new ≡ (apply (call handle.bay K.STAGE (shared close)) hall.old).hall }
{
    match hall.close(handle) {
        Ok(()) => {}
        Err(_refused) => unreachable!(),
    }
}

/// One turn in a bay of a new hall, with one grant. Whatever the calls answer, the handle is given back.
pub fn visit<S: Store + Drop>(
    store: S,
    book: Book,
    grant: Grant,
    budget: u16,
) -> Result<Turned, Refusal>
    ensures { answered (λ t. turned t.steps (stop_told t.stop)) (λ e. e) result
        ≡ visited grant budget (over (S.Store.footing store) (new book.tables (S.Store.bytes store))) }
{
    let mut hall = Hall::new(store, book);
    let preparing = hall.open(1)?;
    if let Err(refusal) = hall.grant(&preparing, grant) {
        leave(&mut hall, preparing);
        return Err(refusal);
    }
    let sealed = match hall.seal(preparing) {
        Ok(sealed) => sealed,
        Err(_refused) => unreachable!(),
    };
    let turned = hall.turn(&sealed, budget);
    leave(&mut hall, sealed);
    turned
}
