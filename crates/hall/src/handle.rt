ghost use Rattle.bays.specs.declared.stage.Stage.{Stage};
ghost use Rattle.std.specs.Prelude.{◌≡◌};

use bays::Stage;
use std::marker::PhantomData;

// What a handle's type says of it: the stage that it finds its bay at.
pub trait AtStage {
    ghost STAGE: { Stage };

    const STAGE: Stage;
}

pub struct InPreparation;

impl AtStage for InPreparation {
    ghost STAGE = { Stage.Preparing };

    const STAGE: Stage = Stage::Preparing;
}

pub struct UnderSeal;

impl AtStage for UnderSeal {
    ghost STAGE = { Stage.Sealed };

    const STAGE: Stage = Stage::Sealed;
}

// The handle of a bay. One that names bay 0 is spent, and only such a one may be let go: every other must
// be given to `seal` or `close`. With an `Option` for the bay, each call's contract would have to say what a
// spent handle names, though no caller ever has one.
pub struct Handle<K: AtStage> {
    pub(crate) bay: u8,
    at: PhantomData<K>,
}

// The handle of a bay in preparation.
pub type Preparing = Handle<InPreparation>;

// The handle of a sealed bay.
pub type Sealed = Handle<UnderSeal>;

impl<K: AtStage> Drop for Handle<K> {
    fn drop(self)
        requires { self.bay ≡ 0 }
    {
        let Handle { bay: _, at: _ } = self;
    }
}

impl<K: AtStage> Handle<K> {
    pub(crate) fn to(bay: u8) -> Handle<K>
        ensures { result.bay ≡ bay }
    {
        Handle {
            bay,
            at: PhantomData,
        }
    }

    // The bay that it names.
    pub fn bay(&self) -> u8
        ensures { result ≡ self.now.bay }
    {
        self.bay
    }

    // The stage that it finds its bay at.
    pub fn stage(&self) -> Stage
        ensures { result ≡ K.STAGE }
    {
        K::STAGE
    }

    pub(crate) fn spend(mut self) {
        self.bay = 0;
    }
}
