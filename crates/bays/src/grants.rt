ghost use Rattle.bays.specs.Grants.{checked, clashes, clashes_any, place};
ghost use Rattle.std.specs.Prelude.{◌≡◌, ◌<◌, length, IfOk, IfSome, Some};

use crate::refusal::Refusal;
use access::{Grant, Use};

// Whether they share a byte, and one of them is exclusive: a close makes its bytes zero.
fn clash(a: Grant, b: Grant) -> bool
    ensures { result ≡ clashes a (Some b) }
{
    (a.kind.permits(Use::Clear) || b.kind.permits(Use::Clear))
        && a.first <= b.last
        && b.first <= a.last
}

/// Whether a grant clashes with one of the others.
pub fn clash_with_any(grant: Grant, others: &[Option<Grant>]) -> bool
    ensures { result ≡ clashes_any grant others.now }
{
    others
        .iter()
        .any(|other| other.is_some_and(|other| clash(grant, other)))
}

// The first place that holds no grant.
fn first_vacant(grants: &[Option<Grant>]) -> Option<usize>
    ensures is { result ≡ place grants.now }
    ensures within { IfSome result (λ p. p < length grants.now) }
{
    grants.iter().position(Option::is_none)
}

/// The check of a grant: its place among the ranges of its own bay. Whether it clashes is for the caller to say, who knows the others.
pub fn check_grant(grant: Grant, own: &[Option<Grant>], clashes: bool) -> Result<usize, Refusal>
    ensures is { result ≡ checked grant own.now clashes }
    ensures within { IfOk result (λ p. p < length own.now) }
{
    if grant.first > grant.last {
        return Err(Refusal::Reversed);
    }
    let place = first_vacant(own).ok_or(Refusal::Full)?;
    if clashes {
        return Err(Refusal::Clash);
    }
    Ok(place)
}
