ghost use Rattle.isa.specs.declared.name.Name.TheVariants.{Nw, Nx, Mx, Dx};
ghost use Rattle.machine.specs.Act.{ending};
ghost use Rattle.machine.specs.Instructions.{does};
ghost use Rattle.std.specs.Prelude.{◌≡◌};

use crate::address::operand;
use crate::mode::Mode;
use crate::pending::Pending;
use crate::registers::Registers;
use access::{Cause, View};
use store::Store;
use word::arithmetic::{divide16, multiply};

pub(crate) fn nw<S: Store>(
    mode: Mode,
    registers: &mut Registers,
    view: &View<S>,
) -> Result<Option<Pending>, Cause>
    ensures { ending result registers.new ≡ does Nw mode registers.old view.now }
{
    let v: u32 = operand(mode, registers, view)?;
    registers.advance();
    registers.load_a(registers.a & v);
    Ok(None)
}

pub(crate) fn nx<S: Store>(
    mode: Mode,
    registers: &mut Registers,
    view: &View<S>,
) -> Result<Option<Pending>, Cause>
    ensures { ending result registers.new ≡ does Nx mode registers.old view.now }
{
    let v: u16 = operand(mode, registers, view)?;
    registers.advance();
    registers.load_x(registers.x & v);
    Ok(None)
}

pub(crate) fn mx<S: Store>(
    mode: Mode,
    registers: &mut Registers,
    view: &View<S>,
) -> Result<Option<Pending>, Cause>
    ensures { ending result registers.new ≡ does Mx mode registers.old view.now }
{
    let v: u16 = operand(mode, registers, view)?;
    registers.advance();
    registers.compute_x(multiply(registers.x, v, registers.ca));
    Ok(None)
}

pub(crate) fn dx<S: Store>(
    mode: Mode,
    registers: &mut Registers,
    view: &View<S>,
) -> Result<Option<Pending>, Cause>
    ensures { ending result registers.new ≡ does Dx mode registers.old view.now }
{
    let v: u16 = operand(mode, registers, view)?;
    registers.advance();
    registers.divide_x(divide16(registers.x, v));
    Ok(None)
}
