ghost use Rattle.access.specs.Access.{Viewed};
ghost use Rattle.machine.specs.Act.{ending, ending_of};
ghost use Rattle.machine.specs.Address;
ghost use Rattle.machine.specs.Address.{wrapped};
ghost use Rattle.machine.specs.Instructions.{branched_if, does};
ghost use Rattle.machine.specs.Registers.{advanced, with_of};
ghost use Rattle.std.specs.Prelude.{◌≡◌, ◌+◌, ◌%◌, false};

use crate::address::address;
use crate::bits::control;
use crate::loads::*;
use crate::mode::Mode;
use crate::pending::Pending;
use crate::pointers::*;
use crate::products::*;
use crate::registers::Registers;
use crate::stores::*;
use crate::strings::{compare, move_item, move_nearer, scan, translate};
use crate::sums::*;
use crate::terms::Terms;
use access::{Cause, View};
use isa::Name;
use store::Store;
use word::arithmetic::{add, multiply, subtract};

// Where a branch goes.
#[inline(always)]
fn target(d: u16, registers: &Registers) -> Result<u16, Cause>
    ensures { result ≡ Ok (wrapped (Address.target d (advanced registers.now))) }
{
    address(Terms::indexed(u32::from(registers.s.wrapping_add(2)), d, 2))
}

#[inline(always)]
fn branch(taken: bool, d: u16, registers: &mut Registers) -> Result<Option<Pending>, Cause>
    ensures { (v : Viewed) → ending result registers.new ≡ ending_of (λ r. branched_if taken d r r) registers.old v }
{
    if taken {
        registers.s = target(d, registers)?;
    } else {
        registers.advance();
    }
    Ok(None)
}

// Clears OF where it is taken.
#[inline(always)]
fn branch_on_overflow(d: u16, registers: &mut Registers) -> Result<Option<Pending>, Cause>
    ensures { (v : Viewed) → ending result registers.new ≡ ending_of (λ r. branched_if r.of d r (with_of r false)) registers.old v }
{
    if registers.of {
        registers.s = target(d, registers)?;
        registers.of = false;
    } else {
        registers.advance();
    }
    Ok(None)
}

#[inline(always)]
fn low_byte(d: u16) -> u8
    ensures { result ≡ d % 256 }
{
    let [_, low] = d.to_be_bytes();
    low
}

#[inline(always)]
fn indexed(d: u16, x: u16) -> u8
    ensures { result ≡ (d + x) % 256 }
{
    low_byte(d.wrapping_add(x))
}

// The instruction of that name, with S at the next one. The registers are changed where they are, and a stop leaves them as they were;
// what the instruction has yet to write goes up.
pub fn execute<S: Store>(
    name: Name,
    mode: Mode,
    registers: &mut Registers,
    view: &View<S>,
) -> Result<Option<Pending>, Cause>
    ensures { ending result registers.new ≡ does name mode registers.old view.now }
{
    let d = mode.d;
    let literal = u32::from(d);
    match name {
        Name::Ldb => ldb(mode, registers, view),
        Name::Ld => ld(mode, registers, view),
        Name::Ldw => ldw(mode, registers, view),
        Name::Ldx => ldx(mode, registers, view),
        Name::Stb => stb(mode, registers, view),
        Name::St => st(mode, registers, view),
        Name::Stw => stw(mode, registers, view),
        Name::Stx => stx(mode, registers, view),
        Name::Ad => ad(mode, registers, view),
        Name::Adw => adw(mode, registers, view),
        Name::Sb => sb(mode, registers, view),
        Name::Sbw => sbw(mode, registers, view),
        Name::Adx => adx(mode, registers, view),
        Name::Sbx => sbx(mode, registers, view),
        Name::Cp => cp(mode, registers, view),
        Name::Cpw => cpw(mode, registers, view),
        Name::Cpx => cpx(mode, registers, view),
        Name::Nw => nw(mode, registers, view),
        Name::Nx => nx(mode, registers, view),
        Name::Mx => mx(mode, registers, view),
        Name::Dx => dx(mode, registers, view),
        Name::Ldy => ldy(mode, registers, view),
        Name::Sty => sty(mode, registers, view),
        Name::Ady => ady(mode, registers, view),
        Name::Sby => sby(mode, registers, view),
        Name::Ldz => ldz(mode, registers, view),
        Name::Stz => stz(mode, registers, view),
        Name::Adz => adz(mode, registers, view),
        Name::Sbz => sbz(mode, registers, view),
        Name::Bi => bi(mode, registers, view),
        Name::Bli => bli(mode, registers, view),
        Name::Bitx => control(indexed(d, registers.x), registers),
        Name::Bitl => control(low_byte(d), registers),
        Name::Mbs | Name::Cpbs | Name::Trbs | Name::Scbs | Name::Mhs if registers.x == 0 => {
            registers.advance();
            registers.end_string();
            Ok(None)
        }
        Name::Mbs => move_item::<u8, S>(registers, move_nearer(registers.x), view),
        Name::Cpbs => compare(registers, move_nearer(registers.x), view),
        Name::Trbs => translate(registers, move_nearer(registers.x), view),
        Name::Scbs => scan(registers, move_nearer(registers.x), view),
        Name::Mhs => move_item::<u16, S>(registers, move_nearer(registers.x), view),
        Name::Hrk => Err(Cause::Halt),
        Name::Ldl => {
            registers.advance();
            registers.load_a(literal);
            Ok(None)
        }
        Name::Adl => {
            registers.advance();
            registers.compute_a(add(registers.a, literal));
            Ok(None)
        }
        Name::Sbl => {
            registers.advance();
            registers.compute_a(subtract(registers.a, literal));
            Ok(None)
        }
        Name::Cpl => {
            registers.advance();
            registers.mark(subtract(registers.a, literal));
            Ok(None)
        }
        Name::Nl => {
            registers.advance();
            registers.load_a(registers.a & literal);
            Ok(None)
        }
        Name::Ml => {
            registers.advance();
            registers.compute_a(multiply(registers.a, literal, registers.ca));
            Ok(None)
        }
        Name::Bz => branch(registers.zr, d, registers),
        Name::Bnz => branch(!registers.zr, d, registers),
        Name::Bn => branch(registers.n, d, registers),
        Name::Bnn => branch(!registers.n, d, registers),
        Name::Bca => branch(registers.ca, d, registers),
        Name::Bof => branch_on_overflow(d, registers),
        Name::B => {
            registers.s = target(d, registers)?;
            Ok(None)
        }
        Name::Bl => {
            let to = target(d, registers)?;
            registers.advance();
            registers.link();
            registers.s = to;
            Ok(None)
        }
        Name::Rk | Name::Sfn => {
            registers.advance();
            registers.load_a(0);
            Ok(None)
        }
        Name::Sim => {
            registers.advance();
            registers.fm = false;
            Ok(None)
        }
        Name::Sfm => {
            registers.advance();
            registers.fm = true;
            Ok(None)
        }
    }
}
