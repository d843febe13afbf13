ghost use Rattle.isa.specs.declared.name.Name.TheVariants.{Ldy, Ady, Sby, Ldz, Adz, Sbz, Bi, Bli};
ghost use Rattle.machine.specs.Act.{ending};
ghost use Rattle.machine.specs.Instructions.{does};
ghost use Rattle.std.specs.Prelude.{◌≡◌};

use crate::address::operand;
use crate::mode::Mode;
use crate::pending::Pending;
use crate::registers::Registers;
use access::{Cause, View};
use store::Store;

// Y and Z have instructions of their own here too: a type parameter names no field, and a function that is given would have to say the
// same record for each.
pub(crate) fn ldy<S: Store>(
    mode: Mode,
    registers: &mut Registers,
    view: &View<S>,
) -> Result<Option<Pending>, Cause>
    ensures { ending result registers.new ≡ does Ldy mode registers.old view.now }
{
    let v: u16 = operand(mode, registers, view)?;
    registers.advance();
    registers.y = v;
    Ok(None)
}

pub(crate) fn ady<S: Store>(
    mode: Mode,
    registers: &mut Registers,
    view: &View<S>,
) -> Result<Option<Pending>, Cause>
    ensures { ending result registers.new ≡ does Ady mode registers.old view.now }
{
    let v: u16 = operand(mode, registers, view)?;
    registers.advance();
    registers.y = registers.y.wrapping_add(v);
    Ok(None)
}

pub(crate) fn sby<S: Store>(
    mode: Mode,
    registers: &mut Registers,
    view: &View<S>,
) -> Result<Option<Pending>, Cause>
    ensures { ending result registers.new ≡ does Sby mode registers.old view.now }
{
    let v: u16 = operand(mode, registers, view)?;
    registers.advance();
    registers.y = registers.y.wrapping_sub(v);
    Ok(None)
}

pub(crate) fn ldz<S: Store>(
    mode: Mode,
    registers: &mut Registers,
    view: &View<S>,
) -> Result<Option<Pending>, Cause>
    ensures { ending result registers.new ≡ does Ldz mode registers.old view.now }
{
    let v: u16 = operand(mode, registers, view)?;
    registers.advance();
    registers.z = v;
    Ok(None)
}

pub(crate) fn adz<S: Store>(
    mode: Mode,
    registers: &mut Registers,
    view: &View<S>,
) -> Result<Option<Pending>, Cause>
    ensures { ending result registers.new ≡ does Adz mode registers.old view.now }
{
    let v: u16 = operand(mode, registers, view)?;
    registers.advance();
    registers.z = registers.z.wrapping_add(v);
    Ok(None)
}

pub(crate) fn sbz<S: Store>(
    mode: Mode,
    registers: &mut Registers,
    view: &View<S>,
) -> Result<Option<Pending>, Cause>
    ensures { ending result registers.new ≡ does Sbz mode registers.old view.now }
{
    let v: u16 = operand(mode, registers, view)?;
    registers.advance();
    registers.z = registers.z.wrapping_sub(v);
    Ok(None)
}

pub(crate) fn bi<S: Store>(
    mode: Mode,
    registers: &mut Registers,
    view: &View<S>,
) -> Result<Option<Pending>, Cause>
    ensures { ending result registers.new ≡ does Bi mode registers.old view.now }
{
    let v: u16 = operand(mode, registers, view)?;
    registers.advance();
    registers.s = v;
    Ok(None)
}

pub(crate) fn bli<S: Store>(
    mode: Mode,
    registers: &mut Registers,
    view: &View<S>,
) -> Result<Option<Pending>, Cause>
    ensures { ending result registers.new ≡ does Bli mode registers.old view.now }
{
    let v: u16 = operand(mode, registers, view)?;
    registers.advance();
    registers.link();
    registers.s = v;
    Ok(None)
}
