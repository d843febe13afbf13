ghost use Rattle.access.specs.Access.{bind, sight_of};
ghost use Rattle.access.specs.declared.item.Item.TheVariants.{Byte};
ghost use Rattle.machine.specs.Act.{ending, ending_of};
ghost use Rattle.machine.specs.Address.{element, entry};
ghost use Rattle.machine.specs.Strings.{compared, complete, judged, moved, nearer, passed, scanned, translated};
ghost use Rattle.std.specs.Prelude.{◌≡◌};

use crate::address::{address, at_place};
use crate::pending::{Pending, Stored};
use crate::registers::Registers;
use crate::stores::claim;
use crate::terms::Terms;
use access::{Cause, Held, Item, Place, View};
use store::Store;

// X moved by one towards zero.
#[inline(always)]
pub(crate) fn move_nearer(x: u16) -> u16
    ensures { result ≡ nearer x }
{
    if x < 0x8000 {
        x.saturating_sub(1)
    } else {
        x.wrapping_add(1)
    }
}

impl Registers {
    #[inline(always)]
    pub(crate) fn end_string(&mut self)
        ensures { self.new ≡ complete self.old }
    {
        self.x = 0;
        self.n = false;
        self.zr = true;
    }

    // After an element that does not end its string: complete at the last, else S is put back.
    #[inline(always)]
    fn pass(&mut self, x: u16)
        ensures { self.new ≡ passed self.old x }
    {
        if x == 0 {
            self.end_string();
        } else {
            self.x = x;
            self.s = self.s.wrapping_sub(2);
        }
    }

    // After an element that ends its string, or not, unless it is the last.
    #[inline(always)]
    fn judge(&mut self, x: u16, ends: bool, negative: bool)
        ensures { self.new ≡ judged self.old x ends negative }
    {
        if x != 0 && ends {
            self.x = x;
            self.n = negative;
            self.zr = false;
        } else {
            self.pass(x);
        }
    }
}

// Where the element X of a string lies.
#[inline(always)]
fn element_at(item: Item, start: u16, x: u16) -> Terms
    ensures { result ≡ element item start x }
{
    Terms::indexed(u32::from(start), x, item.size())
}

// Where a byte of a table lies.
#[inline(always)]
fn entry_at(start: u16, byte: u8) -> Terms
    ensures { result ≡ entry start byte }
{
    Terms::plain(u32::from(start) + u32::from(byte))
}

// The step of an element takes the registers, the new X and the view, as its rule takes the registers and the new X: a value of the three
// would be made for one call.
#[inline(always)]
pub(crate) fn move_item<T: Stored, S: Store>(
    registers: &mut Registers,
    x: u16,
    view: &View<S>,
) -> Result<Option<Pending>, Cause>
    ensures { ending result registers.new ≡ ending_of (λ r. moved T.Held.ITEM r x) registers.old view.now }
{
    let from = address(element_at(T::ITEM, registers.z, x))?;
    let moved: T = at_place(Place::Operand, T::read(view, from))?;
    let to = address(element_at(T::ITEM, registers.y, x))?;
    let pending = claim(to, moved, view)?;
    registers.advance();
    registers.pass(x);
    Ok(Some(pending))
}

#[inline(always)]
pub(crate) fn translate<S: Store>(
    registers: &mut Registers,
    x: u16,
    view: &View<S>,
) -> Result<Option<Pending>, Cause>
    ensures { ending result registers.new ≡ ending_of (λ r. translated r x) registers.old view.now }
{
    let at = address(element_at(Item::Byte, registers.y, x))?;
    let byte = at_place(Place::Operand, u8::read(view, at))?;
    let from = address(entry_at(registers.z, byte))?;
    let translated = at_place(Place::Operand, u8::read(view, from))?;
    let pending = claim(at, translated, view)?;
    registers.advance();
    registers.pass(x);
    Ok(Some(pending))
}

#[inline(always)]
pub(crate) fn compare<S: Store>(
    registers: &mut Registers,
    x: u16,
    view: &View<S>,
) -> Result<Option<Pending>, Cause>
    ensures { ending result registers.new ≡ ending_of (λ r. compared r x) registers.old view.now }
{
    let from = address(element_at(Item::Byte, registers.z, x))?;
    let one = at_place(Place::Operand, u8::read(view, from))?;
    let at = address(element_at(Item::Byte, registers.y, x))?;
    let other = at_place(Place::Operand, u8::read(view, at))?;
    registers.advance();
    registers.judge(x, one != other, one < other);
    Ok(None)
}

#[inline(always)]
pub(crate) fn scan<S: Store>(
    registers: &mut Registers,
    x: u16,
    view: &View<S>,
) -> Result<Option<Pending>, Cause>
    ensures { ending result registers.new ≡ ending_of (λ r. scanned r x) registers.old view.now }
{
    let at = address(element_at(Item::Byte, registers.y, x))?;
    let byte = at_place(Place::Operand, u8::read(view, at))?;
    let from = address(entry_at(registers.z, byte))?;
    let found = at_place(Place::Operand, u8::read(view, from))?;
    registers.advance();
    registers.judge(x, found & registers.low_byte() != 0, false);
    Ok(None)
}
