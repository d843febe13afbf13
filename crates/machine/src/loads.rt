ghost use Rattle.isa.specs.declared.name.Name.TheVariants.{Ldb, Ld, Ldw, Ldx};
ghost use Rattle.machine.specs.Act.{ending};
ghost use Rattle.machine.specs.Instructions.{does};
ghost use Rattle.std.specs.Prelude.{◌≡◌};

use crate::address::operand;
use crate::mode::Mode;
use crate::pending::Pending;
use crate::registers::Registers;
use access::{Cause, View};
use store::Store;
use word::arithmetic::resize;

pub(crate) fn ldb<S: Store>(
    mode: Mode,
    registers: &mut Registers,
    view: &View<S>,
) -> Result<Option<Pending>, Cause>
    ensures { ending result registers.new ≡ does Ldb mode registers.old view.now }
{
    let v: u8 = operand(mode, registers, view)?;
    registers.advance();
    registers.load_a(u32::from(v));
    Ok(None)
}

pub(crate) fn ld<S: Store>(
    mode: Mode,
    registers: &mut Registers,
    view: &View<S>,
) -> Result<Option<Pending>, Cause>
    ensures { ending result registers.new ≡ does Ld mode registers.old view.now }
{
    let v: u16 = operand(mode, registers, view)?;
    registers.advance();
    registers.load_a(resize(v));
    Ok(None)
}

pub(crate) fn ldw<S: Store>(
    mode: Mode,
    registers: &mut Registers,
    view: &View<S>,
) -> Result<Option<Pending>, Cause>
    ensures { ending result registers.new ≡ does Ldw mode registers.old view.now }
{
    let v: u32 = operand(mode, registers, view)?;
    registers.advance();
    registers.load_a(v);
    Ok(None)
}

pub(crate) fn ldx<S: Store>(
    mode: Mode,
    registers: &mut Registers,
    view: &View<S>,
) -> Result<Option<Pending>, Cause>
    ensures { ending result registers.new ≡ does Ldx mode registers.old view.now }
{
    let v: u16 = operand(mode, registers, view)?;
    registers.advance();
    registers.load_x(v);
    Ok(None)
}
