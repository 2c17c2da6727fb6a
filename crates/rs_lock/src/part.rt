//! What each enlistment asked for and was granted.

ghost use Rattle.std.specs.Prelude.{◌≡◌, None, IfOk, OnOk};
ghost use Rattle.std.specs.BTreeMap.{get};
ghost use Rattle.rs_base.specs.Txn.{enlist_cmp};
ghost use Rattle.rs_lock.specs.Parts as spec;

use crate::order::Order;
use rs_base::{Enlist, NoMemory, Resource};
use std::alloc::Global;
use std::collections::BTreeMap;

/// What an enlistment asked for, in the order of first asking, and what it was granted, in the order of first granting.
#[derive(Drop)]
pub(crate) struct Part {
    pub asks: Order,
    pub grants: Order,
}

/// The parts of all enlistments.
pub(crate) type Parts = BTreeMap<Enlist, Part>;

impl Part {
    /// Makes the part of an enlistment that asked for nothing.
    pub(crate) fn new(alloc: Global) -> Part
        ensures { result ≡ spec.idle }
    {
        Part {
            asks: Order::new(alloc),
            grants: Order::new(alloc),
        }
    }

    fn ask(&mut self, what: &Resource) -> Result<(), NoMemory>
        ensures { OnOk result (self.new ≡ spec.asked what.now self.old) }
    {
        self.asks.add(what)
    }

    fn give(&mut self, what: &Resource) -> Result<(), NoMemory>
        ensures { OnOk result (self.new ≡ spec.given what.now self.old) }
    {
        self.grants.add(what)
    }
}

/// Adds the part of an enlistment that has none, with this ask.
fn add_asking(
    alloc: Global,
    who: &Enlist,
    what: &Resource,
    parts: &mut Parts,
) -> Result<(), NoMemory>
    requires { get enlist_cmp parts.old who.now ≡ None }
    ensures { OnOk result (parts.new.entries
        ≡ spec.with_part who.now (spec.asked what.now spec.idle) parts.old.entries) }
{
    let mut part = Part::new(alloc);
    part.ask(what)?;
    parts.insert(*who, part)?;
    Ok(())
}

/// Adds the part of an enlistment that has none, with this grant.
fn add_given(
    alloc: Global,
    who: &Enlist,
    what: &Resource,
    parts: &mut Parts,
) -> Result<(), NoMemory>
    requires { get enlist_cmp parts.old who.now ≡ None }
    ensures { OnOk result (parts.new.entries
        ≡ spec.with_part who.now (spec.given what.now spec.idle) parts.old.entries) }
{
    let mut part = Part::new(alloc);
    part.give(what)?;
    parts.insert(*who, part)?;
    Ok(())
}

/// Notes that the enlistment asked for the resource.
pub(crate) fn note_ask(
    alloc: Global,
    who: &Enlist,
    what: &Resource,
    parts: &mut Parts,
) -> Result<(), NoMemory>
    ensures { OnOk result (parts.new.entries
        ≡ spec.with_part who.now (spec.asked what.now (spec.part_in who.now parts.old.entries)) parts.old.entries) }
{
    match parts.get_mut(who) {
        Some(part) => part.ask(what),
        None => add_asking(alloc, who, what, parts),
    }
}

/// Notes that the enlistment was granted the resource.
pub(crate) fn note_grant(
    alloc: Global,
    who: &Enlist,
    what: &Resource,
    parts: &mut Parts,
) -> Result<(), NoMemory>
    ensures { OnOk result (parts.new.entries
        ≡ spec.with_part who.now (spec.given what.now (spec.part_in who.now parts.old.entries)) parts.old.entries) }
{
    match parts.get_mut(who) {
        Some(part) => part.give(what),
        None => add_given(alloc, who, what, parts),
    }
}

/// Removes the part of the enlistment and returns it.
pub(crate) fn remove_part(alloc: Global, who: &Enlist, parts: &mut Parts) -> Part
    ensures part { result ≡ spec.part_in who.now parts.old.entries }
    ensures parts { parts.new.entries ≡ spec.without_part who.now parts.old.entries }
{
    match parts.remove(who) {
        Some(part) => part,
        None => Part::new(alloc),
    }
}
