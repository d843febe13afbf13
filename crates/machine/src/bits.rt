ghost use Rattle.std.specs.Prelude.{◌≡◌, ◌<◌};
ghost use Rattle.std.specs.Option.{ok_or};
ghost use Rattle.access.specs.Access.{Viewed};
ghost use Rattle.access.specs.declared.stop.Cause.TheVariants.{Undefined};
ghost use Rattle.machine.specs.Act.{ending, ending_of};
ghost use Rattle.machine.specs.Bits.{altered, bit_done, controlled, ends_zero, mask, operation};

use crate::pending::Pending;
use crate::registers::Registers;
use access::Cause;

// What a bit instruction does to its bit of AL, the low half of A.
#[derive(Clone, Copy, Debug, PartialEq, Eq)]
pub enum Operation {
    Test,
    Toggle,
    Place,
    Set,
    Clear,
}

impl TryFrom<u8> for Operation {
    type Error = Cause;

    ghost try_from_gives = { λ high result. result ≡ ok_or (operation high) Undefined };

    #[inline(always)]
    fn try_from(high: u8) -> Result<Operation, Cause> {
        match high {
            0 => Ok(Operation::Test),
            9 => Ok(Operation::Toggle),
            10 => Ok(Operation::Place),
            11 => Ok(Operation::Set),
            14 => Ok(Operation::Clear),
            _ => Err(Cause::Undefined),
        }
    }
}

// Here and below a bit is asked to be one of sixteen and has no type of its own: the one caller takes it from a half byte, where the bound
// computes.
#[inline(always)]
fn mask_of(bit: u8) -> u16
    requires { bit < 16 }
    ensures { result ≡ mask bit }
{
    0x8000 >> bit
}

#[inline(always)]
fn alter(operation: Operation, al: u16, bit: u8) -> u16
    requires { bit < 16 }
    ensures { result ≡ altered operation al bit }
{
    let mask = mask_of(bit);
    match operation {
        Operation::Test => al,
        Operation::Toggle => al ^ mask,
        Operation::Place => mask,
        Operation::Set => al | mask,
        Operation::Clear => al & !mask,
    }
}

#[inline(always)]
fn is_zero(operation: Operation, al: u16, bit: u8) -> bool
    requires { bit < 16 }
    ensures { result ≡ ends_zero operation al bit }
{
    match operation {
        Operation::Test => al & mask_of(bit) == 0,
        Operation::Toggle | Operation::Place | Operation::Set | Operation::Clear => alter(
            operation, al, bit,
        ) == 0,
    }
}

#[inline(always)]
fn operate(operation: Operation, bit: u8, registers: &mut Registers)
    requires { bit < 16 }
    ensures { registers.new ≡ bit_done operation bit registers.old }
{
    let al = registers.low_half();
    registers.a = registers.a - u32::from(al) + u32::from(alter(operation, al, bit));
    registers.zr = is_zero(operation, al, bit);
}

// The control byte has the operation in its high half and the bit's number in its low half.
#[inline(always)]
pub(crate) fn control(byte: u8, registers: &mut Registers) -> Result<Option<Pending>, Cause>
    ensures { (v : Viewed) → ending result registers.new ≡ ending_of (controlled byte) registers.old v }
{
    let operation = Operation::try_from(byte / 16)?;
    registers.advance();
    operate(operation, byte % 16, registers);
    Ok(None)
}
