//! The locks of all resources.

ghost use Rattle.std.specs.Prelude.{◌≡◌, [], None, OnOk, OnErr, IfOk};
ghost use Rattle.std.specs.BTreeMap.{get};
ghost use Rattle.rs_base.specs.Orders.{resource_cmp};
ghost use Rattle.rs_lock.specs.Claims as claims_spec;
ghost use Rattle.rs_lock.specs.Lock as lock_spec;
ghost use Rattle.rs_lock.specs.Locks as spec;

use crate::answer::Enlists;
use crate::claim::Claim;
use crate::lock::Lock;
use crate::verdict::Verdict;
use rs_base::{Enlist, Mode, NoMemory, Resource};
use sqlite_items::Items;
use std::alloc::Global;
use std::collections::BTreeMap;

/// The locks of the resources that somebody holds or waits for.
pub(crate) type Table = BTreeMap<Resource, Lock>;

/// Returns whether the claim is granted.
pub(crate) fn verdict_in(claim: &Claim, what: &Resource, table: &Table) -> Verdict
    ensures { result ≡ lock_spec.verdict claim.now (spec.lock_in what.now table.now.entries) }
{
    match table.get(what) {
        Some(lock) => lock.verdict(claim),
        None => Verdict::Free,
    }
}

pub(crate) fn is_covered_in(claim: &Claim, what: &Resource, table: &Table) -> bool
    ensures { result
        ≡ claims_spec.is_covered claim.now (spec.lock_in what.now table.now.entries).holders }
{
    match table.get(what) {
        Some(lock) => lock.is_covered(claim),
        None => false,
    }
}

/// Returns whether no other holder conflicts and nobody waits for the resource.
pub(crate) fn may_hold_in(claim: &Claim, what: &Resource, table: &Table) -> bool
    ensures { result ≡ lock_spec.may_hold claim.now (spec.lock_in what.now table.now.entries) }
{
    match table.get(what) {
        Some(lock) => lock.may_hold(claim),
        None => true,
    }
}

/// Returns the first holder other than this enlistment, if there is one.
pub(crate) fn holder_in(what: &Resource, but: &Enlist, table: &Table) -> Option<Enlist>
    ensures { result
        ≡ claims_spec.other_than but.now (spec.lock_in what.now table.now.entries).holders }
{
    match table.get(what) {
        Some(lock) => lock.holder_other_than(but),
        None => None,
    }
}

/// Returns the mode in which the enlistment holds the resource, if it does.
pub(crate) fn mode_in(who: &Enlist, what: &Resource, table: &Table) -> Option<Mode>
    ensures { result
        ≡ claims_spec.mode_of who.now (spec.lock_in what.now table.now.entries).holders }
{
    match table.get(what) {
        Some(lock) => lock.mode_of(who),
        None => None,
    }
}

/// Adds the lock of a resource that nobody holds or waits for, held by this claim.
fn add_taken(
    alloc: Global,
    what: &Resource,
    claim: &Claim,
    table: &mut Table,
) -> Result<(), NoMemory>
    ensures ok { OnOk result (table.new.entries
        ≡ spec.with_lock what.now (spec.taken_in claim.now lock_spec.unlocked) table.old.entries) }
    ensures err { OnErr result (table.new.entries ≡ table.old.entries) }
{
    let mut lock = Lock::new(alloc);
    lock.grant(claim)?;
    table.insert(*what, lock)?;
    Ok(())
}

/// Grants the claim. On out of memory nothing changes.
pub(crate) fn take_in(
    alloc: Global,
    what: &Resource,
    claim: &Claim,
    table: &mut Table,
) -> Result<(), NoMemory>
    ensures ok { OnOk result (table.new.entries
        ≡ spec.with_lock what.now (spec.taken_in claim.now (spec.lock_in what.now table.old.entries))
        table.old.entries) }
    ensures err { OnErr result (table.new.entries ≡ table.old.entries) }
{
    match table.get_mut(what) {
        Some(lock) => lock.grant(claim),
        None => add_taken(alloc, what, claim, table),
    }
}

/// Adds the lock of a resource that nobody holds or waits for, waited for by this claim.
fn add_enqueued(
    alloc: Global,
    what: &Resource,
    claim: &Claim,
    table: &mut Table,
) -> Result<(), NoMemory>
    ensures ok { OnOk result (table.new.entries
        ≡ spec.with_lock what.now (lock_spec.enqueued claim.now lock_spec.unlocked) table.old.entries) }
    ensures err { OnErr result (table.new.entries ≡ table.old.entries) }
{
    let mut lock = Lock::new(alloc);
    lock.enqueue(claim)?;
    table.insert(*what, lock)?;
    Ok(())
}

/// Lets the claim wait. On out of memory nothing changes.
pub(crate) fn enqueue_in(
    alloc: Global,
    what: &Resource,
    claim: &Claim,
    table: &mut Table,
) -> Result<(), NoMemory>
    ensures ok { OnOk result (table.new.entries
        ≡ spec.with_lock what.now (lock_spec.enqueued claim.now (spec.lock_in what.now table.old.entries))
        table.old.entries) }
    ensures err { OnErr result (table.new.entries ≡ table.old.entries) }
{
    match table.get_mut(what) {
        Some(lock) => lock.enqueue(claim),
        None => add_enqueued(alloc, what, claim, table),
    }
}

/// Ends the enlistment's wait for the resource.
pub(crate) fn dequeue_in(what: &Resource, who: &Enlist, table: &mut Table)
    ensures { table.new.entries ≡ spec.dequeued_in what.now who.now table.old.entries }
{
    let Some(lock) = table.get_mut(what) else {
        return;
    };
    lock.dequeue(who);
}

/// Removes the enlistment from the resource, and lists the enlistments that are granted there.
fn release_lock(
    what: &Resource,
    who: &Enlist,
    table: &mut Table,
    granted: &mut Enlists,
) -> Result<(), NoMemory>
    requires { granted.old ≡ [] }
    ensures { OnOk result ((table.new.entries, granted.new)
        ≡ spec.released_in who.now what.now table.old.entries) }
{
    let Some(lock) = table.get_mut(what) else {
        return Ok(());
    };
    lock.release(who, granted)?;
    if lock.is_free() {
        let _free = table.remove(what);
    }
    Ok(())
}

/// Removes the enlistment from the resource, and returns the enlistments that are granted there.
pub(crate) fn release_in(
    alloc: Global,
    what: &Resource,
    who: &Enlist,
    table: &mut Table,
) -> Result<Enlists, NoMemory>
    ensures { IfOk result (λ granted. (table.new.entries, granted)
        ≡ spec.released_in who.now what.now table.old.entries) }
{
    let mut granted = Items::new(alloc);
    release_lock(what, who, table, &mut granted)?;
    Ok(granted)
}
