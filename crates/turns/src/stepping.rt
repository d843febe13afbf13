ghost use Rattle.access.specs.Access.{sight_of};
ghost use Rattle.access.specs.Stops.{told_of};
ghost use Rattle.book.specs.Readings.{reading};
ghost use Rattle.machine.specs.Act.{ending, ending_of, perform, settled};
ghost use Rattle.turns.specs.Laws.{Local, Only, OperandsByName, Unaltered, operand_granted};
ghost use Rattle.turns.specs.Step.{begun, committed, defined, format_a, half_into, planned, step_end, step_of, stopped};
ghost use Rattle.std.specs.Prelude.{◌≡◌};

use access::{Cause, Place, Reach, Rights, Stop, View};
use book::Book;
use isa::{Format, Name, Reading};
use machine::{Mode, Pending, Registers, at_place, execute};
use store::Store;

// A cause goes up with the address of the instruction.
#[inline(always)]
fn at_address<T>(address: u16, res: Result<T, Cause>) -> Result<T, Stop>
    ensures { result ≡ stopped address res }
{
    res.map_err(|cause| Stop { cause, address })
}

#[inline(always)]
fn is_format_a(format: Format) -> bool
    ensures { result ≡ format_a format }
{
    matches!(
        format,
        Format::A1 | Format::A2 | Format::A3 | Format::A4 | Format::A5
    )
}

#[inline(always)]
fn obey_defined<S: Store>(
    name: Name,
    mode: Mode,
    registers: &mut Registers,
    view: &View<S>,
) -> Result<Option<Pending>, Cause>
    ensures { ending result registers.new ≡ ending_of (defined name mode) registers.old view.now }
{
    if registers.fm && is_format_a(mode.format) {
        return Err(Cause::Floating);
    }
    execute(name, mode, registers, view)
}

// What a word reads as is obeyed, with S at the next one.
#[inline(always)]
fn obey_reading<S: Store>(
    reading: Reading,
    registers: &mut Registers,
    view: &View<S>,
) -> Result<Option<Pending>, Cause>
    ensures { ending result registers.new ≡ ending_of (begun reading) registers.old view.now }
{
    match reading {
        Reading::NoPattern => Err(Cause::NoPattern),
        Reading::Undefined => Err(Cause::Undefined),
        Reading::Defined { name, format, m, d } => obey_defined(
            name,
            Mode {
                format,
                m,
                d: d.cast_unsigned(),
            },
            registers,
            view,
        ),
    }
}

#[inline(always)]
fn obey_word<S: Store>(
    book: &Book,
    registers: &mut Registers,
    view: &View<S>,
) -> Result<Option<Pending>, Cause>
    ensures { ending result registers.new
        ≡ settled registers.old (perform (sight_of view.now) (planned (reading book.now.tables) registers.old)) }
{
    let word = at_place(Place::Fetch, view.fetch(registers.s))?;
    obey_reading(book.reading(word), registers, view)
}

#[inline(always)]
fn write_half<S: Store>(store: &mut S, at: u16, value: u16)
    ensures bytes { S.Store.bytes store.new ≡ half_into (S.Store.bytes store.old) at value }
    ensures footing { S.Store.footing store.new ≡ S.Store.footing store.old }
{
    let [high, low] = value.to_be_bytes();
    store.write(at, high);
    store.write(at.wrapping_add(1), low);
}

#[inline(always)]
fn commit<S: Store>(store: &mut S, pending: Option<Pending>)
    ensures bytes { S.Store.bytes store.new ≡ committed (S.Store.bytes store.old) pending }
    ensures footing { S.Store.footing store.new ≡ S.Store.footing store.old }
{
    match pending {
        None => {}
        Some(Pending::Byte(at, value)) => store.write(at, value),
        Some(Pending::Halfword(at, value)) => write_half(store, at, value),
        // The halves by a quotient and a remainder: the library parts a fullword into bytes, and the rules write two halfwords.
        Some(Pending::Fullword(at, value)) => {
            write_half(store, at, (value / 65536) as u16);
            write_half(store, at.wrapping_add(2), (value % 65536) as u16);
        }
    }
}

// The equation of a step, without its laws. Book, registers, store and rights stay four parameters: a hall holds each of them in another
// place, so that one value of the four would be made for each call, and the clause would name its fields.
#[inline(always)]
pub(crate) fn obey_next<S: Store>(
    book: &Book,
    registers: &mut Registers,
    store: &mut S,
    reach: &Reach,
) -> Result<(), Stop>
    ensures is { step_end result registers.new (S.Store.bytes store.new)
        ≡ step_of (reading book.now.tables) reach.now registers.old (S.Store.bytes store.old) }
    ensures footing { S.Store.footing store.new ≡ S.Store.footing store.old }
{
    let res = obey_word(book, registers, &View::new(store, reach));
    commit(store, at_address(registers.s, res)?);
    Ok(())
}

/// One step, or the stop that it meets.
pub fn step<S: Store>(
    book: &Book,
    registers: &mut Registers,
    store: &mut S,
    rights: &Rights,
) -> Result<(), Stop>
    ensures is { step_end result registers.new (S.Store.bytes store.new)
        ≡ step_of (reading book.now.tables) rights.now registers.old (S.Store.bytes store.old) }
    ensures numbers { told_of result
        ≡ told_of (step_of (reading book.now.tables) rights.now registers.old (S.Store.bytes store.old)).answer }
    ensures footing { S.Store.footing store.new ≡ S.Store.footing store.old }

    // The laws of steps.
    ensures stop_alters_nothing { Unaltered result registers.old registers.new (S.Store.bytes store.old) (S.Store.bytes store.new) }
    ensures writes_its_operand { let may = operand_granted (reading book.now.tables) rights.now registers.old (S.Store.bytes store.old) in
        Only may (S.Store.bytes store.old) (S.Store.bytes store.new) }
    ensures reads_granted_bytes { Local }
    ensures operands_by_name { OperandsByName }
{
    obey_next(book, registers, store, &Reach::new(rights))
}
