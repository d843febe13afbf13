ghost use Rattle.bays.specs.Bays;
ghost use Rattle.bays.specs.Grants.{clashes_any};
ghost use Rattle.bays.specs.Bays.{opened, with_grant_at, with_program, with_stage};
ghost use Rattle.bays.specs.Stages.{at_stage};
ghost use Rattle.bays.specs.declared.stage.Stage;
ghost use Rattle.std.specs.Prelude.{◌≡◌};

use crate::grants::clash_with_any;
use crate::stage::Stage;
use access::{Grant, Rights, Stop};
use machine::Registers;

/// What the hall keeps of a bay: its stage (none while it is free), what its program may reach, the program's registers and markers, and
/// the stop that stands.
#[derive(Clone, Copy, Debug, PartialEq, Eq)]
pub struct Bay {
    pub stage: Option<Stage>,
    pub rights: Rights,
    pub registers: Registers,
    pub stop: Option<Stop>,
}

impl Bay {
    /// Registers and markers 0, no grant, no stop.
    pub fn free() -> Bay
        ensures { result ≡ Bays.free }
    {
        Bay {
            stage: None,
            rights: Rights::new([None; 6]),
            registers: Registers::default(),
            stop: None,
        }
    }

    /// Whether it is at a stage.
    pub fn is_at(&self, stage: Stage) -> bool
        ensures { result ≡ at_stage stage self.now.stage }
    {
        self.stage == Some(stage)
    }

    /// The ranges that count among its six, and in clashes.
    pub fn ranges(&self) -> &[Option<Grant>; 6]
        ensures { result.now ≡ Bays.ranges self.now }
    {
        &self.rights.grants
    }

    /// Whether a grant clashes with one of its ranges.
    pub fn clashes(&self, grant: Grant) -> bool
        ensures { result ≡ clashes_any grant (Bays.ranges self.now) }
    {
        clash_with_any(grant, self.ranges())
    }

    /// Preparation begins: as a free bay, but for the stage.
    pub fn open(&mut self)
        ensures { self.new ≡ opened }
    {
        *self = Bay {
            stage: Some(Stage::Preparing),
            ..Bay::free()
        };
    }

    /// A grant at a place; past the six there is none.
    pub fn add(&mut self, place: usize, grant: Grant)
        ensures { self.new ≡ with_grant_at self.old place grant }
    {
        let mut grants = self.rights.grants;
        if place < 6 {
            grants[place] = Some(grant);
        }
        self.rights = Rights::new(grants);
    }

    /// The end of preparation.
    pub fn seal(&mut self)
        ensures { self.new ≡ with_stage self.old Stage.Sealed }
    {
        self.stage = Some(Stage::Sealed);
    }

    /// The program's registers and markers, and the stop that stands, if one does.
    pub fn set(&mut self, registers: Registers, stop: Option<Stop>)
        ensures { self.new ≡ with_program self.old registers stop }
    {
        self.registers = registers;
        self.stop = stop;
    }
}
