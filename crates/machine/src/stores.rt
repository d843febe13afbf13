ghost use Rattle.access.specs.Access.{bind, sight_of};
ghost use Rattle.isa.specs.declared.name.Name.TheVariants.{St, Stb, Stw, Stx, Sty, Stz};
ghost use Rattle.machine.specs.Act;
ghost use Rattle.machine.specs.Act.{ending};
ghost use Rattle.machine.specs.Address.{formed};
ghost use Rattle.machine.specs.Instructions.{does, stored_byte, stored_full, stored_half, stored_x};
ghost use Rattle.machine.specs.Plan.{obey};
ghost use Rattle.machine.specs.Registers.{advanced};
ghost use Rattle.std.specs.Prelude.{◌≡◌};

use crate::address::{at_place, form};
use crate::mode::Mode;
use crate::pending::{Pending, Stored};
use crate::registers::Registers;
use access::{Cause, Place, View};
use store::Store;

// Leave to write an item at an address, and what is then to be written.
#[inline(always)]
pub(crate) fn claim<T: Stored, S: Store>(
    at: u16,
    value: T,
    view: &View<S>,
) -> Result<Pending, Cause>
    ensures { result ≡ Act.claim (sight_of view.now) T.Held.ITEM at (T.Held.bits value) }
{
    at_place(Place::Operand, view.may_write::<T>(at))?;
    Ok(value.pending(at))
}

// The same where the operand lies.
#[inline(always)]
fn claim_operand<T: Stored, S: Store>(
    mode: Mode,
    registers: &Registers,
    value: T,
    view: &View<S>,
) -> Result<Pending, Cause>
    ensures { result ≡ bind (obey (sight_of view.now) (formed mode T.Held.ITEM (advanced registers.now)))
        (λ at. Act.claim (sight_of view.now) T.Held.ITEM at (T.Held.bits value)) }
{
    let at = form(mode, T::ITEM, registers, view)?;
    claim(at, value, view)
}

// What a store tells the markers.
impl Registers {
    #[inline(always)]
    fn mark_byte(&mut self)
        ensures { self.new ≡ stored_byte self.old }
    {
        self.n = false;
        self.zr = self.low_byte() == 0;
    }

    // OF is raised where A does not fit a signed halfword.
    #[inline(always)]
    fn mark_half(&mut self)
        ensures { self.new ≡ stored_half self.old }
    {
        let fits = i16::try_from(self.a.cast_signed()).is_ok();
        let low = self.low_half();
        self.sign(low);
        self.of = self.of || !fits;
    }

    #[inline(always)]
    fn mark_full(&mut self)
        ensures { self.new ≡ stored_full self.old }
    {
        let a = self.a;
        self.sign(a);
    }

    #[inline(always)]
    fn mark_x(&mut self)
        ensures { self.new ≡ stored_x self.old }
    {
        let x = self.x;
        self.sign(x);
    }
}

pub(crate) fn stb<S: Store>(
    mode: Mode,
    registers: &mut Registers,
    view: &View<S>,
) -> Result<Option<Pending>, Cause>
    ensures { ending result registers.new ≡ does Stb mode registers.old view.now }
{
    let pending = claim_operand(mode, registers, registers.low_byte(), view)?;
    registers.advance();
    registers.mark_byte();
    Ok(Some(pending))
}

pub(crate) fn st<S: Store>(
    mode: Mode,
    registers: &mut Registers,
    view: &View<S>,
) -> Result<Option<Pending>, Cause>
    ensures { ending result registers.new ≡ does St mode registers.old view.now }
{
    let pending = claim_operand(mode, registers, registers.low_half(), view)?;
    registers.advance();
    registers.mark_half();
    Ok(Some(pending))
}

pub(crate) fn stw<S: Store>(
    mode: Mode,
    registers: &mut Registers,
    view: &View<S>,
) -> Result<Option<Pending>, Cause>
    ensures { ending result registers.new ≡ does Stw mode registers.old view.now }
{
    let pending = claim_operand(mode, registers, registers.a, view)?;
    registers.advance();
    registers.mark_full();
    Ok(Some(pending))
}

pub(crate) fn stx<S: Store>(
    mode: Mode,
    registers: &mut Registers,
    view: &View<S>,
) -> Result<Option<Pending>, Cause>
    ensures { ending result registers.new ≡ does Stx mode registers.old view.now }
{
    let pending = claim_operand(mode, registers, registers.x, view)?;
    registers.advance();
    registers.mark_x();
    Ok(Some(pending))
}

pub(crate) fn sty<S: Store>(
    mode: Mode,
    registers: &mut Registers,
    view: &View<S>,
) -> Result<Option<Pending>, Cause>
    ensures { ending result registers.new ≡ does Sty mode registers.old view.now }
{
    let pending = claim_operand(mode, registers, registers.y, view)?;
    registers.advance();
    Ok(Some(pending))
}

pub(crate) fn stz<S: Store>(
    mode: Mode,
    registers: &mut Registers,
    view: &View<S>,
) -> Result<Option<Pending>, Cause>
    ensures { ending result registers.new ≡ does Stz mode registers.old view.now }
{
    let pending = claim_operand(mode, registers, registers.z, view)?;
    registers.advance();
    Ok(Some(pending))
}
