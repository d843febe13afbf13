ghost use Rattle.bays.specs.declared.stage.Stage.{Stage};
ghost use Rattle.history.specs.Calls.{answered, call, copied, copy, done, load, look, own, set_all, shown, stop_told, turn, turned};
ghost use Rattle.history.specs.Hall.{apply, call_end};
ghost use Rattle.std.specs.Prelude.{◌≡◌, length, OnErr};

use crate::hall::Hall;
use crate::handle::{AtStage, Handle, Sealed};
use crate::shown::Shown;
use access::Use;
use bays::{Refusal, Stage};
use machine::Registers;
use store::{Store, read_all, write_all};
use turns::Turned;

// The calls that act on a bay's own registers and granted bytes.
impl<S: Store> Hall<S> {
    /// Bytes into the store, from an address on, where the bay's grants let all of them be loaded.
    pub fn load<K: AtStage>(
        &mut self,
        handle: &Handle<K>,
        address: u16,
        bytes: &[u8],
    ) -> Result<(), Refusal>
        ensures { call_end (answered (λ _. done) (λ e. e) result) self.new
            ≡ apply (call handle.now.bay K.STAGE (own (load address bytes.now))) self.old }
    {
        let bay = self.entered(handle)?;
        if !bay.rights.reach(Use::Load, address, bytes.len()) {
            return Err(Refusal::Ungranted);
        }
        write_all(&mut self.store, address, bytes);
        Ok(())
    }

    /// All registers and markers; a stop that stands is lifted.
    pub fn set<K: AtStage>(
        &mut self,
        handle: &Handle<K>,
        registers: Registers,
    ) -> Result<(), Refusal>
        ensures { call_end (answered (λ _. done) (λ e. e) result) self.new
            ≡ apply (call handle.now.bay K.STAGE (own (set_all registers))) self.old }
    {
        self.entered(handle)?;
        self.table.set(handle.bay, registers, None);
        Ok(())
    }

    // A turn of the bay of a number.
    pub(crate) fn turn_of(&mut self, number: u8, budget: u16) -> Result<Turned, Refusal>
        ensures { call_end (answered (λ t. turned t.steps (stop_told t.stop)) (λ e. e) result) self.new
            ≡ apply (call number Stage.Sealed (own (turn budget))) self.old }
    {
        let bay = self.table.entered(number, Stage::Sealed)?;
        if bay.stop.is_some() {
            return Ok(Turned {
                steps: 0,
                stop: bay.stop,
            });
        }
        let mut registers = bay.registers;
        let turned = turns::turn(
            &self.book,
            &mut registers,
            &mut self.store,
            &bay.rights,
            budget,
        );
        self.table.set(number, registers, turned.stop);
        Ok(turned)
    }

    /// Steps up to the budget or a stop, which then stands; under a standing stop none, and that stop.
    pub fn turn(&mut self, handle: &Sealed, budget: u16) -> Result<Turned, Refusal>
        ensures { call_end (answered (λ t. turned t.steps (stop_told t.stop)) (λ e. e) result) self.new
            ≡ apply (call handle.now.bay Stage.Sealed (own (turn budget))) self.old }
    {
        self.turn_of(handle.bay, budget)
    }

    /// Registers, markers and stop.
    pub fn look<K: AtStage>(&self, handle: &Handle<K>) -> Result<Shown, Refusal>
        ensures { call_end (answered (λ s. shown s.registers (stop_told s.stop)) (λ e. e) result) self.now
            ≡ apply (call handle.now.bay K.STAGE (own look)) self.now }
    {
        let bay = self.entered(handle)?;
        Ok(Shown {
            registers: bay.registers,
            stop: bay.stop,
        })
    }

    /// A buffer filled from an address on, where the bay's grants have all its bytes.
    pub fn copy<K: AtStage>(
        &self,
        handle: &Handle<K>,
        address: u16,
        buffer: &mut [u8],
    ) -> Result<(), Refusal>
        ensures is { call_end (answered (λ _. copied buffer.new) (λ e. e) result) self.now
            ≡ apply (call handle.now.bay K.STAGE (own (copy address (length buffer.old)))) self.now }
        ensures kept { OnErr result (buffer.new ≡ buffer.old) }
    {
        let bay = self.entered(handle)?;
        if !bay.rights.reach(Use::Copy, address, buffer.len()) {
            return Err(Refusal::Ungranted);
        }
        read_all(&self.store, address, buffer);
        Ok(())
    }
}
