//! The locks of a site.

ghost use Rattle.std.specs.Prelude.{◌≡◌, IsTrue, false, ◌++◌, IfOk, OnOk, OnErr};
ghost use Rattle.rs_lock.specs.Calls as spec;
ghost use Rattle.rs_lock.specs.Locks.{no_locks};
ghost use Rattle.rs_lock.specs.Waits as waits_spec;

use crate::answer::{Asked, Ended, Enlists};
use crate::claim::Claim;
use crate::part::{Part, Parts, note_ask, note_grant, remove_part};
use crate::table::{
    Table, dequeue_in, enqueue_in, holder_in, is_covered_in, may_hold_in, mode_in, release_in,
    take_in, verdict_in,
};
use crate::verdict::Verdict;
use crate::wait::{Wait, age, begin_wait, first_over, has_wait, remove_wait};
use rs_base::{Enlist, HeldLocks, Mode, NoMemory, Resource};
use sqlite_items::Items;
use std::alloc::Global;
use std::collections::BTreeMap;
use std::marker::Model;

/// The locks of a site: for each resource its holders in the order of granting, and the queue of those who wait; for each
/// enlistment the order in which it asked.
#[derive(Drop)]
pub struct Locks {
    alloc: Global,
    table: Table,
    parts: Parts,
    waits: Vec<Wait>,
}

impl Model for Locks {
    ghost use Rattle.rs_lock.specs.Locks.{Locks};

    ghost Value = { Locks };

    ghost view = { λ it. record {
      table = it.table.entries;
      parts = it.parts.entries;
      waits = it.waits.items;
    } };
}

impl Locks {
    /// Makes the locks of a site where nobody holds or waits for one.
    pub fn new(alloc: Global) -> Locks
        ensures { result ≡ no_locks }
    {
        Locks {
            alloc,
            table: BTreeMap::new(alloc),
            parts: BTreeMap::new(alloc),
            waits: Vec::new(alloc),
        }
    }

    fn note_ask(&mut self, who: &Enlist, what: &Resource) -> Result<(), NoMemory>
        ensures ok { OnOk result (self.new ≡ spec.note_ask who.now what.now self.old) }
        ensures stays { spec.SameLocks self.old self.new }
    {
        note_ask(self.alloc, who, what, &mut self.parts)
    }

    fn note_grant(&mut self, who: &Enlist, what: &Resource) -> Result<(), NoMemory>
        ensures ok { OnOk result (self.new ≡ spec.note_grant who.now what.now self.old) }
        ensures stays { spec.SameLocks self.old self.new }
    {
        note_grant(self.alloc, who, what, &mut self.parts)
    }

    fn take_lock(&mut self, what: &Resource, claim: &Claim) -> Result<(), NoMemory>
        ensures ok { OnOk result (self.new ≡ spec.take_lock what.now claim.now self.old) }
        ensures err { OnErr result (spec.SameLocks self.old self.new) }
    {
        take_in(self.alloc, what, claim, &mut self.table)
    }

    fn wait_for(&mut self, what: &Resource, claim: &Claim) -> Result<(), NoMemory>
        ensures ok { OnOk result (self.new ≡ spec.wait_for what.now claim.now self.old) }
        ensures err { OnErr result (spec.SameLocks self.old self.new) }
    {
        self.waits.reserve(1)?;
        enqueue_in(self.alloc, what, claim, &mut self.table)?;
        begin_wait(&claim.who, what, &mut self.waits);
        Ok(())
    }

    /// Grants an ask.
    fn grant(&mut self, what: &Resource, claim: &Claim) -> Result<(), NoMemory>
        ensures ok { OnOk result (self.new ≡ spec.grant what.now claim.now self.old) }
        ensures err { OnErr result (spec.SameLocks self.old self.new) }
    {
        self.note_ask(&claim.who, what)?;
        self.note_grant(&claim.who, what)?;
        self.take_lock(what, claim)
    }

    /// Lets an ask wait.
    fn enqueue(&mut self, what: &Resource, claim: &Claim) -> Result<(), NoMemory>
        ensures ok { OnOk result (self.new ≡ spec.enqueue what.now claim.now self.old) }
        ensures err { OnErr result (spec.SameLocks self.old self.new) }
    {
        self.note_ask(&claim.who, what)?;
        self.wait_for(what, claim)
    }

    /// Grants or enqueues an ask by its verdict.
    fn ask_by(
        &mut self,
        verdict: Verdict,
        what: &Resource,
        claim: &Claim,
    ) -> Result<Asked, NoMemory>
        ensures ok { IfOk result (λ asked. (asked, self.new)
            ≡ spec.ask_by verdict what.now claim.now self.old) }
        ensures err { OnErr result (spec.SameLocks self.old self.new) }
    {
        match verdict {
            Verdict::Covered => Ok(Asked::Granted),
            Verdict::Free => {
                self.grant(what, claim)?;
                Ok(Asked::Granted)
            }
            Verdict::Blocked(holder) => {
                self.enqueue(what, claim)?;
                Ok(Asked::Waiting(holder))
            }
        }
    }

    /// Returns whether the enlistment waits. It takes no memory. Linear in the number of waits.
    pub fn is_waiting(&self, who: Enlist) -> bool
        ensures { result ≡ waits_spec.has_wait who self.now.waits }
    {
        has_wait(&who, self.waits.as_slice())
    }

    /// Asks for a lock. It is granted if the enlistment's own mode covers it; else exactly if no other holder conflicts and the
    /// enlistment holds the resource or nobody waits for it. Else the enlistment waits: an upgrade from reading to writing
    /// stands before all but earlier upgrades, any other ask last. The enlistment isn't waiting. On
    /// out of memory no lock and no wait changes. Logarithmic in the number of resources and enlistments, linear in the holders
    /// and the queue of the resource.
    pub fn ask(&mut self, who: Enlist, what: Resource, mode: Mode) -> Result<Asked, NoMemory>
        requires { waits_spec.has_wait who self.old.waits ≡ false }
        ensures ok { IfOk result (λ asked. (asked, self.new)
            ≡ spec.ask who what mode self.old) }
        ensures err { OnErr result (spec.SameLocks self.old self.new) }
    {
        let claim = Claim { who, mode };
        let verdict = verdict_in(&claim, &what, &self.table);
        self.ask_by(verdict, &what, &claim)
    }

    /// Returns whether no other holder conflicts and nobody waits for the resource, so that `hold` may be called. It takes no
    /// memory.
    pub fn may_hold(&self, who: Enlist, what: Resource, mode: Mode) -> bool
        ensures { result ≡ spec.may_hold who what mode self.now }
    {
        may_hold_in(&Claim { who, mode }, &what, &self.table)
    }

    /// Stores a lock that the enlistment held before a restart. No other holder conflicts, and nobody waits for the resource.
    /// On out of memory no lock and no wait changes.
    pub fn hold(&mut self, who: Enlist, what: Resource, mode: Mode) -> Result<(), NoMemory>
        requires { IsTrue (spec.may_hold who what mode self.old) }
        ensures ok { OnOk result (self.new ≡ spec.hold who what mode self.old) }
        ensures err { OnErr result (spec.SameLocks self.old self.new) }
    {
        let claim = Claim { who, mode };
        if is_covered_in(&claim, &what, &self.table) {
            return Ok(());
        }
        self.grant(&what, &claim)
    }

    /// Ends the wait of an enlistment that was granted the resource.
    fn end_wait(&mut self, what: &Resource, who: &Enlist) -> Result<(), NoMemory>
        ensures { OnOk result (self.new ≡ spec.end_wait what.now who.now self.old) }
    {
        remove_wait(who, &mut self.waits);
        self.note_grant(who, what)
    }

    fn end_waits(&mut self, what: &Resource, granted: &[Enlist]) -> Result<(), NoMemory>
        ensures { OnOk result (self.new ≡ spec.end_waits what.now granted.now self.old) }
    {
        for who in granted {
            self.end_wait(what, who)?;
        }
        Ok(())
    }

    /// Removes the enlistment from the resource, and lists the enlistments that are granted there.
    fn release_at(
        &mut self,
        who: &Enlist,
        what: &Resource,
        granted: &mut Enlists,
    ) -> Result<(), NoMemory>
        ensures { OnOk result ((self.new, granted.new)
            ≡ spec.release_at who.now what.now self.old granted.old) }
    {
        let here = release_in(self.alloc, what, who, &mut self.table)?;
        self.end_waits(what, here.as_slice())?;
        granted.append(here)?;
        Ok(())
    }

    fn release_each(
        &mut self,
        who: &Enlist,
        asks: &[Resource],
        granted: &mut Enlists,
    ) -> Result<(), NoMemory>
        ensures { OnOk result ((self.new, granted.new)
            ≡ spec.release_each who.now asks.now self.old granted.old) }
    {
        for what in asks {
            self.release_at(who, what, granted)?;
        }
        Ok(())
    }

    /// Removes the enlistment's wait and its part, and returns the part.
    fn leave(&mut self, who: &Enlist) -> Part
        ensures part { result ≡ spec.part_of who.now self.old }
        ensures locks { self.new ≡ spec.left who.now self.old }
    {
        remove_wait(who, &mut self.waits);
        remove_part(self.alloc, who, &mut self.parts)
    }

    /// Releases all that the enlistment holds and its wait. Then, resource by resource in the order in which it first asked for
    /// them, the queue's first ask is granted while no other holder conflicts with it. Returns the enlistments that are granted,
    /// in order.
    pub fn release(&mut self, who: Enlist) -> Result<Enlists, NoMemory>
        ensures { IfOk result (λ granted. (self.new, granted) ≡ spec.release who self.old) }
    {
        let part = self.leave(&who);
        let mut granted = Items::new(self.alloc);
        self.release_each(&who, part.asks.as_slice(), &mut granted)?;
        Ok(granted)
    }

    /// Ends the enlistment's wait without the lock.
    fn give_up(&mut self, wait: &Wait)
        ensures { self.new ≡ spec.give_up wait.now self.old }
    {
        dequeue_in(&wait.what, &wait.who, &mut self.table);
        remove_wait(&wait.who, &mut self.waits);
    }

    fn end(&mut self, wait: &Wait) -> Option<Ended>
        ensures { (result, self.new)
            ≡ spec.ended_by wait.now (spec.holder_of wait.now.what wait.now.who self.old) self.old }
    {
        let holder = self.holder(&wait.what, wait.who)?;
        self.give_up(wait);
        Some(Ended {
            who: wait.who,
            what: wait.what,
            holder,
        })
    }

    /// Counts a tick for each wait. Then, of the waits that have counted 16, the one that began first ends. Returns it with the
    /// first holder of its resource other than the enlistment. It takes no memory. Linear in the number of waits.
    pub fn tick(&mut self) -> Option<Ended>
        ensures { (result, self.new) ≡ spec.tick self.old }
    {
        age(&mut self.waits);
        let wait = first_over(self.waits.as_slice())?;
        self.end(&wait)
    }

    /// Returns the first holder of the resource other than this enlistment, if there is one. It takes no memory.
    pub fn holder(&self, what: &Resource, but: Enlist) -> Option<Enlist>
        ensures { result ≡ spec.holder_of what.now but self.now }
    {
        holder_in(what, &but, &self.table)
    }

    fn push_held(&self, who: &Enlist, what: &Resource, held: &mut HeldLocks) -> Result<(), NoMemory>
        ensures { OnOk result (held.new
            ≡ held.old ++ spec.as_list (spec.held_at who.now self.now what.now)) }
    {
        if let Some(mode) = mode_in(who, what, &self.table) {
            held.push((*what, mode))?;
        }
        Ok(())
    }

    fn held_of(&self, who: &Enlist, grants: &[Resource]) -> Result<HeldLocks, NoMemory>
        ensures { IfOk result (λ held. held ≡ spec.held_of who.now self.now grants.now) }
    {
        let mut held = Items::new(self.alloc);
        for what in grants {
            self.push_held(who, what, &mut held)?;
        }
        Ok(held)
    }

    /// Returns what the enlistment holds with its mode now, in the order of first granting.
    pub fn held(&self, who: Enlist) -> Result<HeldLocks, NoMemory>
        ensures { IfOk result (λ held. held ≡ spec.held who self.now) }
    {
        match self.parts.get(&who) {
            Some(part) => self.held_of(&who, part.grants.as_slice()),
            None => Ok(Items::new(self.alloc)),
        }
    }
}
