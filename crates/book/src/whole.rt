ghost use Rattle.std.specs.Prelude.{◌≡◌};
ghost use Rattle.book.specs.Wholes.{whole_of, word_of, branches};

use isa::Name;

/// The instruction that a whole word is in every book. The same list stands in `word_of_name` by names: a match each way is read at a
/// glance, and a table would have to be searched in one of them.
#[inline(always)]
pub fn whole_word(word: u16) -> Option<Name>
    ensures { result ≡ whole_of word }
{
    match word {
        0x2700 => Some(Name::Mbs),
        0x2740 => Some(Name::Cpbs),
        0x2780 => Some(Name::Trbs),
        0x27c0 => Some(Name::Scbs),
        0x3700 => Some(Name::Mhs),
        0x1200 => Some(Name::Rk),
        0x1201 => Some(Name::Hrk),
        0x1202 => Some(Name::Sfn),
        0x1700 => Some(Name::Sim),
        0x1701 => Some(Name::Sfm),
        _ => None,
    }
}

pub fn word_of_name(name: Name) -> Option<u16>
    ensures { result ≡ word_of name }
{
    match name {
        Name::Mbs => Some(0x2700),
        Name::Cpbs => Some(0x2740),
        Name::Trbs => Some(0x2780),
        Name::Scbs => Some(0x27c0),
        Name::Mhs => Some(0x3700),
        Name::Rk => Some(0x1200),
        Name::Hrk => Some(0x1201),
        Name::Sfn => Some(0x1202),
        Name::Sim => Some(0x1700),
        Name::Sfm => Some(0x1701),
        _ => None,
    }
}

/// The L instructions whose D is signed: BZ, BNZ, BN, BNN, BCA and BOF.
#[inline(always)]
pub fn is_branch(name: Name) -> bool
    ensures { result ≡ branches name }
{
    matches!(
        name,
        Name::Bz | Name::Bnz | Name::Bn | Name::Bnn | Name::Bca | Name::Bof
    )
}
