ghost use Rattle.std.specs.Prelude.{◌≡◌, ℕ, List};
ghost use Rattle.text.specs.Spelling.{first};

/// What is written in one way.
pub trait Spelled: Copy {
    ghost spelled: { Self → List ℕ };

    fn spelling(self) -> &'static str
        ensures { result.now ≡ spelled self };
}

/// The first of a list that is spelled so.
pub fn first_spelled<S: Spelled>(all: &[S], text: &[u8]) -> Option<S>
    ensures { result ≡ first S.spelled all.now text.now }
{
    all.iter()
        .copied()
        .find(|one| one.spelling().as_bytes() == text)
}
