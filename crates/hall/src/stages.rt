ghost use Rattle.bays.specs.declared.stage.Stage.{Stage};
ghost use Rattle.history.specs.Calls;
ghost use Rattle.history.specs.Calls.{answered, call, close, done, open_bay, seal, shared};
ghost use Rattle.history.specs.Hall.{apply, call_end};
ghost use Rattle.std.specs.Prelude.{◌≡◌, length, IfErr, IfOk};

use crate::hall::Hall;
use crate::handle::{AtStage, Handle, InPreparation, Preparing, Sealed};
use access::Grant;
use bays::{Refusal, check_grant, wipe};
use store::Store;

/// A refused call that has the handle itself gives it back.
#[derive(Drop)]
pub struct Refused<K: AtStage> {
    pub refusal: Refusal,
    pub handle: Handle<K>,
}

// The calls that go by the stages and grants of all bays.
impl<S: Store> Hall<S> {
    /// A free bay begins its preparation.
    pub fn open(&mut self, number: u8) -> Result<Preparing, Refusal>
        ensures is { call_end (answered (λ _. done) (λ e. e) result) self.new
            ≡ apply (call number Stage.Preparing (shared open_bay)) self.old }
        ensures named { IfOk result (λ h. h.bay ≡ number) }
        ensures eight { length self.new.bays ≡ 8 }
    {
        let bay = self.table.get(number).ok_or(Refusal::NoSuchBay)?;
        if bay.stage.is_some() {
            return Err(Refusal::Taken);
        }
        self.table.open(number);
        Ok(Preparing::to(number))
    }

    /// A range of the store, of a kind.
    pub fn grant(&mut self, handle: &Preparing, grant: Grant) -> Result<(), Refusal>
        ensures { call_end (answered (λ _. done) (λ e. e) result) self.new
            ≡ apply (call handle.now.bay Stage.Preparing (shared (Calls.grant grant))) self.old }
    {
        let bay = self.entered(handle)?;
        let place = check_grant(grant, bay.ranges(), self.table.clashes(grant))?;
        self.table.add(handle.bay, place, grant);
        Ok(())
    }

    /// The end of preparation: the handle is spent for one that takes turns.
    pub fn seal(&mut self, handle: Preparing) -> Result<Sealed, Refused<InPreparation>>
        ensures is { call_end (answered (λ _. done) (λ e. e.refusal) result) self.new
            ≡ apply (call handle.bay Stage.Preparing (shared seal)) self.old }
        ensures named { IfOk result (λ h. h.bay ≡ handle.bay) }
        ensures back { IfErr result (λ e. e.handle ≡ handle) }
    {
        let number = handle.bay;
        // By a match, here and below: a closure for `map_err` would take the handle from the call that is not refused.
        match self.entered(&handle) {
            Err(refusal) => Err(Refused { refusal, handle }),
            Ok(_) => {
                self.table.seal(number);
                handle.spend();
                Ok(Sealed::to(number))
            }
        }
    }

    /// All bytes under the bay's exclusive grants become zero, and the bay is free.
    pub fn close<K: AtStage>(&mut self, handle: Handle<K>) -> Result<(), Refused<K>>
        ensures is { call_end (answered (λ _. done) (λ e. e.refusal) result) self.new
            ≡ apply (call handle.bay K.STAGE (shared close)) self.old }
        ensures back { IfErr result (λ e. e.handle ≡ handle) }
    {
        let number = handle.bay;
        match self.entered(&handle) {
            Err(refusal) => Err(Refused { refusal, handle }),
            Ok(bay) => {
                wipe(&mut self.store, &bay.rights);
                self.table.free(number);
                handle.spend();
                Ok(())
            }
        }
    }
}
