ghost use Rattle.std.specs.Prelude.{◌≡◌};
ghost use Rattle.book.specs.Columns.{line_fields, field_texts};

use text::cut;

/// The three fields of a line.
#[derive(Clone, Copy, Debug, PartialEq, Eq)]
pub struct Fields<'a> {
    pub letter: &'a [u8],
    pub name: &'a [u8],
    pub value: &'a [u8],
}

/// A line has just three fields, none of them empty, and every tab parts two fields.
#[tactic(auto, using(crate::proofs::Columns::by_cuts))]
pub fn fields_by_tab(line: &[u8]) -> Option<Fields<'_>>
    ensures { field_texts result ≡ line_fields line.now }
{
    let (letter, rest) = cut(line, b'\t')?;
    let (name, value) = cut(rest, b'\t')?;
    if letter.is_empty() || name.is_empty() || value.is_empty() || cut(value, b'\t').is_some() {
        return None;
    }
    Some(Fields {
        letter,
        name,
        value,
    })
}
