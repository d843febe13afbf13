// The worked examples of docs/machine.md, proved of the rules.
#![tactic(auto)]

ghost use Rattle.worked.specs.Examples.{answers, examples};
ghost use Rattle.std.specs.Prelude.{◌≡◌, length};

// How many examples there are: what the rules give for each is what the document says.
pub fn worked_examples() -> u8
    ensures hold { examples ≡ answers }
    ensures counted { result ≡ length answers }
{
    13
}
