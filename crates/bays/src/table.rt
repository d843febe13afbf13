ghost use Rattle.bays.specs.Bays.{bay_at, clash, free, numbered, opened, put_bay, with_grant_at, with_program, with_stage};
ghost use Rattle.bays.specs.declared.stage.Stage;
ghost use Rattle.std.specs.Prelude.{◌≡◌, ◌+◌, ◌<◌, length, replicate, IfSome};

use crate::bay::Bay;
use crate::refusal::Refusal;
use crate::stage::Stage;
use access::{Grant, Stop};
use machine::Registers;

/// The bays 1 to 8. The bay of a number stands at a place, one less.
#[derive(Drop)]
pub struct Table {
    pub bays: [Bay; 8],
    ghost eight: { length bays ≡ 8 },
}

impl Table {
    /// Eight free bays.
    pub fn new() -> Table
        ensures { result.bays ≡ replicate 8 free }
    {
        Table {
            bays: [Bay::free(); 8],
        }
    }

    // The place of a number, if a bay has it.
    fn place_of(&self, number: u8) -> Option<usize>
        ensures is { result ≡ Rattle.bays.specs.Bays.place_of number }
        ensures within { IfSome result (λ p. p < length self.now.bays) }
        ensures named { IfSome result (λ p. p + 1 ≡ number) }
    {
        (1..=8).contains(&number).then(|| usize::from(number) - 1)
    }

    /// The bay of a number, as it is now.
    pub fn get(&self, number: u8) -> Option<Bay>
        ensures { result ≡ numbered self.now.bays number }
    {
        let place = self.place_of(number)?;
        Some(self.bays[place])
    }

    /// The bay of a number, at the stage that a call wants, as it is now.
    pub fn entered(&self, number: u8, wanted: Stage) -> Result<Bay, Refusal>
        ensures { result ≡ Rattle.bays.specs.Bays.entered wanted self.now.bays number }
    {
        let Some(bay) = self.get(number) else {
            return Err(Refusal::OtherStage);
        };
        if bay.is_at(wanted) {
            Ok(bay)
        } else {
            Err(Refusal::OtherStage)
        }
    }

    /// Whether a grant clashes with a range of any bay.
    pub fn clashes(&self, grant: Grant) -> bool
        ensures { result ≡ clash grant self.now.bays }
    {
        self.bays.iter().any(|bay| bay.clashes(grant))
    }

    /// The bay of a number begins its preparation. Here and below nothing is done where no bay has the number.
    pub fn open(&mut self, number: u8)
        ensures { self.new.bays ≡ put_bay self.old.bays number opened }
    {
        if let Some(place) = self.place_of(number) {
            self.bays[place].open();
        }
    }

    /// The bay of a number gets a grant, at a place.
    pub fn add(&mut self, number: u8, place: usize, grant: Grant)
        ensures { self.new.bays
            ≡ put_bay self.old.bays number (with_grant_at (bay_at self.old.bays number) place grant) }
    {
        if let Some(at) = self.place_of(number) {
            self.bays[at].add(place, grant);
        }
    }

    /// The end of a bay's preparation.
    pub fn seal(&mut self, number: u8)
        ensures { self.new.bays
            ≡ put_bay self.old.bays number (with_stage (bay_at self.old.bays number) Stage.Sealed) }
    {
        if let Some(place) = self.place_of(number) {
            self.bays[place].seal();
        }
    }

    /// A bay's registers and markers, and the stop that stands, if one does.
    pub fn set(&mut self, number: u8, registers: Registers, stop: Option<Stop>)
        ensures { self.new.bays
            ≡ put_bay self.old.bays number (with_program (bay_at self.old.bays number) registers stop) }
    {
        if let Some(place) = self.place_of(number) {
            self.bays[place].set(registers, stop);
        }
    }

    /// The bay of a number is free again.
    pub fn free(&mut self, number: u8)
        ensures { self.new.bays ≡ put_bay self.old.bays number free }
    {
        if let Some(place) = self.place_of(number) {
            self.bays[place] = Bay::free();
        }
    }
}
