ghost use Rattle.std.specs.Prelude.{◌≡◌};
ghost use Rattle.isa.specs.Names.{names_of, name_under};

use crate::name::Name;
use text::first_spelled;

/// The letter under which a code book has a name; the names of the fixed words have none.
#[derive(Clone, Copy, PartialEq, Eq, Debug)]
pub enum Letter {
    A,
    L,
    B,
}

const A_NAMES: [Name; 31] = [
    Name::Ldb,
    Name::Ld,
    Name::Ldw,
    Name::Ldx,
    Name::Stb,
    Name::St,
    Name::Stw,
    Name::Stx,
    Name::Ad,
    Name::Adw,
    Name::Sb,
    Name::Sbw,
    Name::Adx,
    Name::Sbx,
    Name::Cp,
    Name::Cpw,
    Name::Cpx,
    Name::Nw,
    Name::Nx,
    Name::Mx,
    Name::Dx,
    Name::Ldy,
    Name::Sty,
    Name::Ady,
    Name::Sby,
    Name::Ldz,
    Name::Stz,
    Name::Adz,
    Name::Sbz,
    Name::Bi,
    Name::Bli,
];

const L_NAMES: [Name; 13] = [
    Name::Ldl,
    Name::Adl,
    Name::Sbl,
    Name::Cpl,
    Name::Nl,
    Name::Ml,
    Name::Bitx,
    Name::Bz,
    Name::Bnz,
    Name::Bn,
    Name::Bnn,
    Name::Bca,
    Name::Bof,
];

const B_NAMES: [Name; 2] = [Name::B, Name::Bl];

impl Letter {
    fn names(self) -> &'static [Name]
        ensures { result.now ≡ names_of self }
    {
        match self {
            Letter::A => &A_NAMES,
            Letter::L => &L_NAMES,
            Letter::B => &B_NAMES,
        }
    }

    /// The name of this letter that the text spells.
    #[tactic(auto, unfolding(crate::specs::Names::name_under))]
    pub fn name(self, text: &[u8]) -> Option<Name>
        ensures { result ≡ name_under self text.now }
    {
        first_spelled(self.names(), text)
    }
}
