ghost use Rattle.std.specs.Prelude.{◌≡◌, Some};
ghost use Rattle.isa.specs.Names.{spelled, fixed_name_of, name_of, name_read};

use crate::letter::Letter;
use std::fmt;
use text::{Spelled, first_spelled};
use thiserror::Error;

/// The name of an instruction, in the order of the letters of a code book: A, L, B, and then those that are the same in every book.
#[derive(Clone, Copy, PartialEq, Eq, Debug)]
pub enum Name {
    Ldb,
    Ld,
    Ldw,
    Ldx,
    Stb,
    St,
    Stw,
    Stx,
    Ad,
    Adw,
    Sb,
    Sbw,
    Adx,
    Sbx,
    Cp,
    Cpw,
    Cpx,
    Nw,
    Nx,
    Mx,
    Dx,
    Ldy,
    Sty,
    Ady,
    Sby,
    Ldz,
    Stz,
    Adz,
    Sbz,
    Bi,
    Bli,
    Ldl,
    Adl,
    Sbl,
    Cpl,
    Nl,
    Ml,
    Bitx,
    Bz,
    Bnz,
    Bn,
    Bnn,
    Bca,
    Bof,
    B,
    Bl,
    Mbs,
    Cpbs,
    Trbs,
    Scbs,
    Mhs,
    Rk,
    Hrk,
    Sfn,
    Sim,
    Sfm,
    Bitl,
}

/// A text that spells no name.
#[derive(Clone, Copy, PartialEq, Eq, Debug, Error)]
#[error("no such name")]
pub struct UnknownName;

const FIXED_NAMES: [Name; 11] = [
    Name::Mbs,
    Name::Cpbs,
    Name::Trbs,
    Name::Scbs,
    Name::Mhs,
    Name::Rk,
    Name::Hrk,
    Name::Sfn,
    Name::Sim,
    Name::Sfm,
    Name::Bitl,
];

impl Spelled for Name {
    ghost spelled = { spelled };

    fn spelling(self) -> &'static str {
        match self {
            Name::Ldb => "LDB",
            Name::Ld => "LD",
            Name::Ldw => "LDW",
            Name::Ldx => "LDX",
            Name::Stb => "STB",
            Name::St => "ST",
            Name::Stw => "STW",
            Name::Stx => "STX",
            Name::Ad => "AD",
            Name::Adw => "ADW",
            Name::Sb => "SB",
            Name::Sbw => "SBW",
            Name::Adx => "ADX",
            Name::Sbx => "SBX",
            Name::Cp => "CP",
            Name::Cpw => "CPW",
            Name::Cpx => "CPX",
            Name::Nw => "NW",
            Name::Nx => "NX",
            Name::Mx => "MX",
            Name::Dx => "DX",
            Name::Ldy => "LDY",
            Name::Sty => "STY",
            Name::Ady => "ADY",
            Name::Sby => "SBY",
            Name::Ldz => "LDZ",
            Name::Stz => "STZ",
            Name::Adz => "ADZ",
            Name::Sbz => "SBZ",
            Name::Bi => "BI",
            Name::Bli => "BLI",
            Name::Ldl => "LDL",
            Name::Adl => "ADL",
            Name::Sbl => "SBL",
            Name::Cpl => "CPL",
            Name::Nl => "NL",
            Name::Ml => "ML",
            Name::Bitx => "BITX",
            Name::Bz => "BZ",
            Name::Bnz => "BNZ",
            Name::Bn => "BN",
            Name::Bnn => "BNN",
            Name::Bca => "BCA",
            Name::Bof => "BOF",
            Name::B => "B",
            Name::Bl => "BL",
            Name::Mbs => "MBS",
            Name::Cpbs => "CPBS",
            Name::Trbs => "TRBS",
            Name::Scbs => "SCBS",
            Name::Mhs => "MHS",
            Name::Rk => "RK",
            Name::Hrk => "HRK",
            Name::Sfn => "SFN",
            Name::Sim => "SIM",
            Name::Sfm => "SFM",
            Name::Bitl => "BITL",
        }
    }
}

impl fmt::Display for Name {
    ghost output = { λ name. Some (spelled name) };

    fn fmt<W: fmt::Write>(&self, f: &mut fmt::Formatter<W>) -> fmt::Result {
        f.write_str(self.spelling())
    }
}

#[tactic(auto, unfolding(crate::specs::Names::fixed_name_of))]
fn fixed_name(text: &[u8]) -> Option<Name>
    ensures { result ≡ fixed_name_of text.now }
{
    first_spelled(&FIXED_NAMES, text)
}

// The name that the text spells, of all names.
fn any_name(text: &[u8]) -> Option<Name>
    ensures { result ≡ name_of text.now }
{
    Letter::A
        .name(text)
        .or(Letter::L.name(text))
        .or(Letter::B.name(text))
        .or(fixed_name(text))
}

impl TryFrom<&[u8]> for Name {
    type Error = UnknownName;

    ghost try_from_gives = { λ text result. result ≡ name_read text.now };

    fn try_from(text: &[u8]) -> Result<Name, UnknownName> {
        any_name(text).ok_or(UnknownName)
    }
}
