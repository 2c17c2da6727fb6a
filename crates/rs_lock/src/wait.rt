//! The waits of all resources, in the order in which they began.

ghost use Rattle.std.specs.Prelude.{◌≡◌, ◌++◌, [], ◌∷◌, ◌<◌, map, find, vec_len, vec_capacity};
ghost use Rattle.std.specs.Option.{option_copied};
ghost use Rattle.rs_lock.specs.Waits as spec;

use rs_base::{Enlist, Resource, order_of_enlists};

/// A wait: the enlistment, the resource, and the number of ticks since the wait began.
#[derive(Clone, Copy)]
pub(crate) struct Wait {
    pub who: Enlist,
    pub what: Resource,
    pub ticks: u64,
}

/// The number of ticks after which a wait ends.
const BUDGET: u64 = 16;

fn waits_for(who: &Enlist, wait: &Wait) -> bool
    ensures { result ≡ spec.waits_for who.now wait.now }
{
    order_of_enlists(who, &wait.who).is_eq()
}

fn is_over(wait: &Wait) -> bool
    ensures { result ≡ spec.is_over wait.now }
{
    BUDGET <= wait.ticks
}

/// Returns whether the enlistment waits.
pub(crate) fn has_wait(who: &Enlist, waits: &[Wait]) -> bool
    ensures { result ≡ spec.has_wait who.now waits.now }
{
    waits.iter().any(|wait| waits_for(who, wait))
}

/// Begins a wait. There is spare capacity for it.
pub(crate) fn begin_wait(who: &Enlist, what: &Resource, waits: &mut Vec<Wait>)
    requires { vec_len waits.old < vec_capacity waits.old }
    ensures { waits.new.items
        ≡ waits.old.items ++ (record { who = who.now; what = what.now; ticks = 0 }) ∷ [] }
{
    waits.push_reserved(Wait {
        who: *who,
        what: *what,
        ticks: 0,
    });
}

/// Removes the wait of the enlistment.
pub(crate) fn remove_wait(who: &Enlist, waits: &mut Vec<Wait>)
    ensures { waits.new.items ≡ spec.without_wait who.now waits.old.items }
{
    waits.retain(|wait: &Wait| !waits_for(who, wait));
}

fn grow_older(wait: &mut Wait)
    ensures { wait.new ≡ spec.aged wait.old }
{
    wait.ticks = wait.ticks.saturating_add(1);
}

fn age_each(waits: &mut [Wait])
    ensures { waits.new ≡ map spec.aged waits.old }
{
    for wait in waits.iter_mut() {
        grow_older(wait);
    }
}

/// Counts a tick for each wait.
pub(crate) fn age(waits: &mut Vec<Wait>)
    ensures { waits.new.items ≡ map spec.aged waits.old.items }
{
    age_each(waits.as_mut_slice());
}

fn find_over(waits: &[Wait]) -> Option<&Wait>
    ensures { option_copied result ≡ spec.first_over waits.now }
{
    waits.iter().find(|wait| is_over(wait))
}

/// Returns the wait that began first of those that waited long enough, if there is one.
pub(crate) fn first_over(waits: &[Wait]) -> Option<Wait>
    ensures { result ≡ spec.first_over waits.now }
{
    find_over(waits).copied()
}
