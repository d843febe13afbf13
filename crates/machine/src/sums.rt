ghost use Rattle.isa.specs.declared.name.Name.TheVariants.{Ad, Adw, Adx, Sb, Sbw, Sbx, Cp, Cpw, Cpx};
ghost use Rattle.machine.specs.Act.{ending};
ghost use Rattle.machine.specs.Instructions.{does};
ghost use Rattle.std.specs.Prelude.{◌≡◌};

use crate::address::operand;
use crate::mode::Mode;
use crate::pending::Pending;
use crate::registers::Registers;
use access::{Cause, View};
use store::Store;
use word::arithmetic::{add, subtract};

pub(crate) fn ad<S: Store>(
    mode: Mode,
    registers: &mut Registers,
    view: &View<S>,
) -> Result<Option<Pending>, Cause>
    ensures { ending result registers.new ≡ does Ad mode registers.old view.now }
{
    let v: u16 = operand(mode, registers, view)?;
    registers.advance();
    registers.compute_a(add(registers.a, v));
    Ok(None)
}

pub(crate) fn adw<S: Store>(
    mode: Mode,
    registers: &mut Registers,
    view: &View<S>,
) -> Result<Option<Pending>, Cause>
    ensures { ending result registers.new ≡ does Adw mode registers.old view.now }
{
    let v: u32 = operand(mode, registers, view)?;
    registers.advance();
    registers.compute_a(add(registers.a, v));
    Ok(None)
}

pub(crate) fn adx<S: Store>(
    mode: Mode,
    registers: &mut Registers,
    view: &View<S>,
) -> Result<Option<Pending>, Cause>
    ensures { ending result registers.new ≡ does Adx mode registers.old view.now }
{
    let v: u16 = operand(mode, registers, view)?;
    registers.advance();
    registers.compute_x(add(registers.x, v));
    Ok(None)
}

pub(crate) fn sb<S: Store>(
    mode: Mode,
    registers: &mut Registers,
    view: &View<S>,
) -> Result<Option<Pending>, Cause>
    ensures { ending result registers.new ≡ does Sb mode registers.old view.now }
{
    let v: u16 = operand(mode, registers, view)?;
    registers.advance();
    registers.compute_a(subtract(registers.a, v));
    Ok(None)
}

pub(crate) fn sbw<S: Store>(
    mode: Mode,
    registers: &mut Registers,
    view: &View<S>,
) -> Result<Option<Pending>, Cause>
    ensures { ending result registers.new ≡ does Sbw mode registers.old view.now }
{
    let v: u32 = operand(mode, registers, view)?;
    registers.advance();
    registers.compute_a(subtract(registers.a, v));
    Ok(None)
}

pub(crate) fn sbx<S: Store>(
    mode: Mode,
    registers: &mut Registers,
    view: &View<S>,
) -> Result<Option<Pending>, Cause>
    ensures { ending result registers.new ≡ does Sbx mode registers.old view.now }
{
    let v: u16 = operand(mode, registers, view)?;
    registers.advance();
    registers.compute_x(subtract(registers.x, v));
    Ok(None)
}

pub(crate) fn cp<S: Store>(
    mode: Mode,
    registers: &mut Registers,
    view: &View<S>,
) -> Result<Option<Pending>, Cause>
    ensures { ending result registers.new ≡ does Cp mode registers.old view.now }
{
    let v: u16 = operand(mode, registers, view)?;
    registers.advance();
    registers.mark(subtract(registers.a, v));
    Ok(None)
}

pub(crate) fn cpw<S: Store>(
    mode: Mode,
    registers: &mut Registers,
    view: &View<S>,
) -> Result<Option<Pending>, Cause>
    ensures { ending result registers.new ≡ does Cpw mode registers.old view.now }
{
    let v: u32 = operand(mode, registers, view)?;
    registers.advance();
    registers.mark(subtract(registers.a, v));
    Ok(None)
}

pub(crate) fn cpx<S: Store>(
    mode: Mode,
    registers: &mut Registers,
    view: &View<S>,
) -> Result<Option<Pending>, Cause>
    ensures { ending result registers.new ≡ does Cpx mode registers.old view.now }
{
    let v: u16 = operand(mode, registers, view)?;
    registers.advance();
    registers.mark(subtract(registers.x, v));
    Ok(None)
}
