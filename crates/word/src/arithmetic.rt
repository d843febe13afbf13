ghost use Rattle.word.specs.Arithmetic.{outcome, beyond, in_bits, resized, sum, difference, product, quotient};
ghost use Rattle.std.specs.Prelude.{◌≡◌, ◌+◌, ◌+ℤ◌, ◌-ℤ◌, ◌*ℤ◌, nat_lt};
ghost use mir.Val.{to_z};

use crate::register::Register;

/// What a register computes: the apparent result, which is the true one cut to the register, and what the markers are told of both.
#[derive(Clone, Copy, Debug, PartialEq, Eq)]
pub struct Outcome<T> {
    pub value: T,
    pub negative: bool,
    pub zero: bool,
    pub overflow: bool,
    pub carry: bool,
}

impl<R: Register> Outcome<R> {
    fn of(exact: i64, carry: bool) -> Outcome<R>
        ensures { in_bits R.bits result ≡ outcome R.width exact carry }
    {
        let value = R::cut(exact);
        Outcome {
            value,
            negative: exact < 0,
            zero: value.unsigned() == 0,
            overflow: R::is_outside(exact),
            carry,
        }
    }
}

fn exact_sum<R: Register, Q: Register>(a: R, b: Q) -> i64
    ensures { result ≡ to_z R.width (R.bits a) +ℤ to_z Q.width (Q.bits b) }
{
    a.signed() + b.signed()
}

fn exact_difference<R: Register, Q: Register>(a: R, b: Q) -> i64
    ensures { result ≡ to_z R.width (R.bits a) -ℤ to_z Q.width (Q.bits b) }
{
    a.signed() - b.signed()
}

fn exact_product<R: Register>(a: R, b: R) -> i64
    ensures { result ≡ to_z R.width (R.bits a) *ℤ to_z R.width (R.bits b) }
{
    a.signed() * b.signed()
}

fn carries<R: Register>(a: R, b: R) -> bool
    ensures { result ≡ beyond R.width (R.bits a + R.bits b) }
{
    R::is_beyond(a.unsigned() + b.unsigned())
}

fn borrows<R: Register>(a: R, b: R) -> bool
    ensures { result ≡ nat_lt (R.bits a) (R.bits b) }
{
    a.unsigned() < b.unsigned()
}

/// A number of one length in a register of another: extended by its sign, or its low part.
pub fn resize<R: Register, Q: Register>(number: Q) -> R
    ensures { R.bits result ≡ resized R.width Q.width (Q.bits number) }
{
    R::cut(number.signed())
}

/// The second number may have another length than the first, which is the result's: the true result is of the whole of both, and the carry
/// of as many bits of the second as the first has.
pub fn add<R: Register, Q: Register>(a: R, b: Q) -> Outcome<R>
    ensures { in_bits R.bits result ≡ sum R.width Q.width (R.bits a) (Q.bits b) }
{
    Outcome::of(exact_sum(a, b), carries(a, resize(b)))
}

/// Lengths, true result and borrow as in `add`.
pub fn subtract<R: Register, Q: Register>(a: R, b: Q) -> Outcome<R>
    ensures { in_bits R.bits result ≡ difference R.width Q.width (R.bits a) (Q.bits b) }
{
    Outcome::of(exact_difference(a, b), borrows(a, resize(b)))
}

/// A product has no carry of its own: the one given is handed on.
pub fn multiply<R: Register>(a: R, b: R, carry: bool) -> Outcome<R>
    ensures { in_bits R.bits result ≡ product R.width (R.bits a) (R.bits b) carry }
{
    Outcome::of(exact_product(a, b), carry)
}

/// The quotient rounded towards zero; none by 0, nor where it does not fit.
pub fn divide16(a: u16, b: u16) -> Option<u16>
    ensures { result ≡ quotient a b }
{
    a.cast_signed()
        .checked_div(b.cast_signed())
        .map(|exact| exact.cast_unsigned())
}
