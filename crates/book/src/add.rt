ghost use Rattle.std.specs.Prelude.{◌≡◌, ◌<◌, IfSome};
ghost use Rattle.book.specs.Add as spec;
ghost use Rattle.book.specs.Add.{added, number_under, row_count};
ghost use Rattle.book.specs.Columns.{texts};
ghost use Rattle.book.specs.Sound.{reserved};
ghost use Rattle.text.specs.TakeLine.{outcome};

use crate::fault::Fault;
use crate::fields::Fields;
use crate::patterns::{clash, pattern, pattern_length, pattern_place};
use crate::rows::enter;
use crate::tables::Tables;
use isa::{Format, Letter};
use text::decimal;

// The L numbers under which the whole words and BITL lie.
fn is_reserved(number: u32) -> bool
    ensures { result ≡ reserved number }
{
    matches!(number, 18 | 22 | 23 | 39 | 55)
}

// The number that a name of the letter may have.
fn number_for(letter: Letter, value: &[u8]) -> Option<u32>
    ensures is { result ≡ number_under letter value.now }
    ensures within { IfSome result (λ k. k < row_count letter) }
{
    match letter {
        Letter::A => decimal(value, 16, 63),
        Letter::L => decimal(value, 16, 63).filter(|number| !is_reserved(*number)),
        Letter::B => decimal(value, 1, 3),
    }
}

impl Tables {
    fn add_pattern(&mut self, name: &[u8], value: &[u8]) -> Result<(), Fault>
        ensures { outcome result self.new ≡ spec.add_pattern self.old name.now value.now }
    {
        let format = Format::try_from(name)?;
        let place = pattern_place(format).ok_or(Fault::Name)?;
        let v = pattern(value, pattern_length(place)).ok_or(Fault::Value)?;
        if clash(place, v, &self.patterns) {
            return Err(Fault::Repeated);
        }
        self.patterns[place] = Some(v);
        Ok(())
    }

    fn add_name(&mut self, letter: Letter, name: &[u8], value: &[u8]) -> Result<(), Fault>
        ensures { outcome result self.new ≡ spec.add_name letter self.old name.now value.now }
    {
        let name = letter.name(name).ok_or(Fault::Name)?;
        let number = number_for(letter, value).ok_or(Fault::Value)?;
        match letter {
            Letter::A => enter(&mut self.a, name, number),
            Letter::L => enter(&mut self.l, name, number),
            Letter::B => enter(&mut self.b, name, number),
        }
    }

    // The letter says which names a line may have, and how its value is read.
    pub(crate) fn add(&mut self, f: Fields) -> Result<(), Fault>
        ensures { outcome result self.new ≡ added self.old (texts f.entry) }
    {
        let [letter] = f.letter else {
            return Err(Fault::Name);
        };
        match char::from(*letter) {
            'F' => self.add_pattern(f.name, f.value),
            'A' => self.add_name(Letter::A, f.name, f.value),
            'L' => self.add_name(Letter::L, f.name, f.value),
            'B' => self.add_name(Letter::B, f.name, f.value),
            _ => Err(Fault::Name),
        }
    }
}
