ghost use Rattle.bays.specs.Bays.{wiped};
ghost use Rattle.std.specs.Prelude.{◌≡◌, [], ◌∷◌, Some};

use access::{Grant, Rights, Use};
use store::Store;

// Every byte of the grant becomes zero, if the grant is exclusive.
fn wipe_grant<S: Store>(store: &mut S, grant: Grant)
    ensures bytes { S.Store.bytes store.new ≡ wiped (Some grant ∷ []) 0 (S.Store.bytes store.old) }
    ensures footing { S.Store.footing store.new ≡ S.Store.footing store.old }
{
    if grant.kind.permits(Use::Clear) {
        for at in grant.first..=grant.last {
            store.write(at, 0);
        }
    }
}

fn wipe_place<S: Store>(store: &mut S, place: Option<Grant>)
    ensures bytes { S.Store.bytes store.new ≡ wiped (place ∷ []) 0 (S.Store.bytes store.old) }
    ensures footing { S.Store.footing store.new ≡ S.Store.footing store.old }
{
    if let Some(grant) = place {
        wipe_grant(store, grant);
    }
}

fn wipe_places<S: Store>(store: &mut S, places: &[Option<Grant>])
    ensures bytes { S.Store.bytes store.new ≡ wiped places.now 0 (S.Store.bytes store.old) }
    ensures footing { S.Store.footing store.new ≡ S.Store.footing store.old }
{
    for place in places {
        wipe_place(store, *place);
    }
}

/// Every byte under an exclusive grant becomes zero.
pub fn wipe<S: Store>(store: &mut S, rights: &Rights)
    ensures bytes { S.Store.bytes store.new ≡ wiped rights.now.grants 0 (S.Store.bytes store.old) }
    ensures footing { S.Store.footing store.new ≡ S.Store.footing store.old }
{
    wipe_places(store, &rights.grants);
}
