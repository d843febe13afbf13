ghost use Rattle.access.specs.Access.{held, sight_of};
ghost use Rattle.machine.specs.Address;
ghost use Rattle.machine.specs.Address.{base, far_base, formed, wrapped};
ghost use Rattle.machine.specs.Plan.{obey, placed};
ghost use Rattle.machine.specs.Registers.{advanced, onward};
ghost use Rattle.std.specs.Prelude.{◌≡◌};

use crate::mode::Mode;
use crate::registers::Registers;
use crate::terms::Terms;
use access::{Cause, Denial, Held, Item, Place, View};
use isa::{Format, Name};
use store::Store;

/// A denial goes up with the place where it was met.
#[inline(always)]
pub fn at_place<T>(place: Place, res: Result<T, Denial>) -> Result<T, Cause>
    ensures { result ≡ placed place res }
{
    res.map_err(|denial| Cause::Denied(place, denial))
}

/// What the operand of an instruction is; a halfword also for one that has none in the store.
pub fn item_of(name: Name) -> Item
    ensures { result ≡ Address.item_of name }
{
    match name {
        Name::Ldb | Name::Stb => Item::Byte,
        Name::Ldw | Name::Stw | Name::Adw | Name::Sbw | Name::Cpw | Name::Nw => Item::Fullword,
        _ => Item::Halfword,
    }
}

// Every address that a step forms is formed here.
#[inline(always)]
pub(crate) fn address(terms: Terms) -> Result<u16, Cause>
    ensures { result ≡ Ok (wrapped terms) }
{
    Ok(terms.wrapped())
}

#[inline(always)]
fn base_of(registers: &Registers, ahead: u16, m: u8) -> u16
    ensures { result ≡ base (onward registers.now ahead) m }
{
    match m {
        0 => registers.l,
        1 => registers.s.wrapping_add(ahead),
        2 => registers.y,
        _ => registers.z,
    }
}

#[inline(always)]
fn far_base_of(registers: &Registers, ahead: u16, m: u8) -> u16
    ensures { result ≡ far_base (onward registers.now ahead) m }
{
    if m == 1 {
        0
    } else {
        base_of(registers, ahead, m)
    }
}

/// The address of an item by the formats without a pointer; none by the others. S is taken so many bytes ahead: 2 where it is at the
/// instruction, and 0 where it is at the next one already.
#[inline(always)]
pub fn direct(mode: Mode, item: Item, ahead: u16, registers: &Registers) -> Option<Terms>
    ensures { result ≡ Address.direct mode item (onward registers.now ahead) }
{
    let offset = u32::from(mode.d) * u32::from(item.size());
    match mode.format {
        Format::A1 => Some(Terms::plain(offset)),
        Format::A2 => Some(Terms::plain(u32::from(base_of(registers, ahead, mode.m)) + offset)),
        Format::A5 => Some(Terms::indexed(
            u32::from(far_base_of(registers, ahead, mode.m)) + offset,
            registers.x,
            item.size(),
        )),
        Format::A3 | Format::A4 | Format::L | Format::B => None,
    }
}

#[inline(always)]
fn pointer(mode: Mode, registers: &Registers) -> Option<Terms>
    ensures { result ≡ Address.pointer mode (advanced registers.now) }
{
    let offset = u32::from(mode.d) * 2;
    match mode.format {
        Format::A3 => Some(Terms::plain(offset)),
        Format::A4 => Some(Terms::plain(u32::from(base_of(registers, 2, mode.m)) + offset)),
        _ => None,
    }
}

// One function for all: inlined, it would make the way of a step many times as long.
#[inline(never)]
fn through<S: Store>(at: u16, x: u16, scale: u16, view: &View<S>) -> Result<u16, Cause>
    ensures { result ≡ obey (sight_of view.now) (Address.through at x scale) }
{
    let pointer = at_place(Place::Pointer, u16::read(view, at))?;
    address(Terms::indexed(u32::from(pointer), x, scale))
}

// The address of an operand.
#[inline(always)]
pub(crate) fn form<S: Store>(
    mode: Mode,
    item: Item,
    registers: &Registers,
    view: &View<S>,
) -> Result<u16, Cause>
    ensures { result ≡ obey (sight_of view.now) (formed mode item (advanced registers.now)) }
{
    if let Some(terms) = direct(mode, item, 2, registers) {
        return address(terms);
    }
    let terms = pointer(mode, registers).ok_or(Cause::Undefined)?;
    through(address(terms)?, registers.x, item.size(), &view.reborrow())
}

// The item that an instruction works on.
#[inline(always)]
pub(crate) fn operand<T: Held, S: Store>(
    mode: Mode,
    registers: &Registers,
    view: &View<S>,
) -> Result<T, Cause>
    ensures { held T.bits result ≡ obey (sight_of view.now) (Address.operand T.ITEM mode (advanced registers.now)) }
{
    let at = form(mode, T::ITEM, registers, view)?;
    at_place(Place::Operand, T::read(view, at))
}
