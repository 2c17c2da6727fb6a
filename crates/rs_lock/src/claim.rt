//! Claims of enlistments to one resource.

ghost use Rattle.std.specs.Prelude.{◌≡◌, ◌≤◌, not, find, vec_len, vec_capacity};
ghost use Rattle.std.specs.Option.{option_copied};
ghost use Rattle.rs_lock.specs.Claims as spec;

use rs_base::{Enlist, Mode, order_of_enlists};

/// A claim to a resource: the enlistment, and the mode in which it holds the resource or waits for it.
#[derive(Clone, Copy)]
pub(crate) struct Claim {
    pub who: Enlist,
    pub mode: Mode,
}

fn is_write(mode: Mode) -> bool
    ensures { result ≡ spec.is_write mode }
{
    match mode {
        Mode::Read => false,
        Mode::Write => true,
    }
}

/// Two modes conflict unless both are for reading.
fn conflicts(one: Mode, other: Mode) -> bool
    ensures { result ≡ spec.conflicts one other }
{
    match one {
        Mode::Read => is_write(other),
        Mode::Write => true,
    }
}

/// A lock for writing covers reading.
fn covers(own: Mode, asked: Mode) -> bool
    ensures { result ≡ spec.covers own asked }
{
    match own {
        Mode::Read => !is_write(asked),
        Mode::Write => true,
    }
}

fn is_by(who: &Enlist, claim: &Claim) -> bool
    ensures { result ≡ spec.is_by who.now claim.now }
{
    order_of_enlists(who, &claim.who).is_eq()
}

/// Returns whether one of the claims is by this enlistment.
pub(crate) fn has(who: &Enlist, claims: &[Claim]) -> bool
    ensures { result ≡ spec.has who.now claims.now }
{
    claims.iter().any(|claim| is_by(who, claim))
}

fn first_by<'c>(who: &Enlist, claims: &'c [Claim]) -> Option<&'c Claim>
    ensures { option_copied result ≡ find (spec.is_by who.now) claims.now }
{
    claims.iter().find(|claim| is_by(who, claim))
}

fn first_by_other<'c>(who: &Enlist, claims: &'c [Claim]) -> Option<&'c Claim>
    ensures { option_copied result ≡ find (λ claim. not (spec.is_by who.now claim)) claims.now }
{
    claims.iter().find(|claim| !is_by(who, claim))
}

/// Returns the mode of the enlistment's claim, if it has one.
pub(crate) fn mode_of(who: &Enlist, claims: &[Claim]) -> Option<Mode>
    ensures { result ≡ spec.mode_of who.now claims.now }
{
    match first_by(who, claims) {
        Some(claim) => Some(claim.mode),
        None => None,
    }
}

/// Returns whose the first claim of another enlistment is, if there is one.
pub(crate) fn other_than(who: &Enlist, claims: &[Claim]) -> Option<Enlist>
    ensures { result ≡ spec.other_than who.now claims.now }
{
    match first_by_other(who, claims) {
        Some(claim) => Some(claim.who),
        None => None,
    }
}

fn stands_against(claim: &Claim, holder: &Claim) -> bool
    ensures { result ≡ spec.stands_against claim.now holder.now }
{
    !is_by(&claim.who, holder) && conflicts(claim.mode, holder.mode)
}

/// Returns whether another holder conflicts.
pub(crate) fn is_refused(claim: &Claim, holders: &[Claim]) -> bool
    ensures { result ≡ spec.is_refused claim.now holders.now }
{
    holders.iter().any(|holder| stands_against(claim, holder))
}

fn covers_claim(claim: &Claim, holder: &Claim) -> bool
    ensures { result ≡ spec.covers_claim claim.now holder.now }
{
    is_by(&claim.who, holder) && covers(holder.mode, claim.mode)
}

/// Returns whether the enlistment holds the resource in a mode that covers the one that is asked for.
pub(crate) fn is_covered(claim: &Claim, holders: &[Claim]) -> bool
    ensures { result ≡ spec.is_covered claim.now holders.now }
{
    holders.iter().any(|holder| covers_claim(claim, holder))
}

/// Removes the claims of the enlistment.
pub(crate) fn remove_claims(who: &Enlist, claims: &mut Vec<Claim>)
    ensures items { claims.new.items ≡ spec.without who.now claims.old.items }
    ensures len { vec_len claims.new ≤ vec_len claims.old }
    ensures capacity { vec_capacity claims.new ≡ vec_capacity claims.old }
{
    claims.retain(|claim: &Claim| !is_by(who, claim));
}
