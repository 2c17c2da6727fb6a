//! The locks of one resource.

ghost use Rattle.std.specs.Prelude.{◌≡◌, ◌≤◌, not, length, position, Some, OnOk, OnErr};
ghost use Rattle.rs_lock.specs.Claims as claims_spec;
ghost use Rattle.rs_lock.specs.Lock as spec;

use crate::answer::Enlists;
use crate::claim::{Claim, has, is_covered, is_refused, mode_of, other_than, remove_claims};
use crate::verdict::Verdict;
use rs_base::{Enlist, Mode, NoMemory};
use std::alloc::Global;
use std::marker::Model;

/// The claims that hold a resource, in the order of granting, and those that wait for it, in the order in which they are to
/// be granted.
#[derive(Drop)]
pub(crate) struct Lock {
    holders: Vec<Claim>,
    queue: Vec<Claim>,
}

impl Model for Lock {
    ghost use Rattle.rs_lock.specs.Lock.{Lock};

    ghost Value = { Lock };

    ghost view = { λ it. record { holders = it.holders.items; queue = it.queue.items } };
}

/// Returns the position of the first claim in the queue whose enlistment holds no lock here, if there is one.
fn first_of_no_holder(holders: &[Claim], queue: &[Claim]) -> Option<usize>
    ensures { result
        ≡ position (λ queued. not (claims_spec.has queued.who holders.now)) queue.now }
{
    queue.iter().position(|queued| !has(&queued.who, holders))
}

fn next_grant(holders: &[Claim], queue: &[Claim]) -> Option<Claim>
    ensures { result ≡ spec.next_grant holders.now queue.now }
{
    match queue {
        [] => None,
        [claim, ..] => {
            if is_refused(claim, holders) {
                None
            } else {
                Some(*claim)
            }
        }
    }
}

impl Lock {
    /// Makes the locks of a resource that nobody holds or waits for.
    pub(crate) fn new(alloc: Global) -> Lock
        ensures { result ≡ spec.unlocked }
    {
        Lock {
            holders: Vec::new(alloc),
            queue: Vec::new(alloc),
        }
    }

    pub(crate) fn is_free(&self) -> bool
        ensures { result ≡ spec.is_free self.now }
    {
        self.holders.is_empty() && self.queue.is_empty()
    }

    /// Returns whether no other holder conflicts and nobody waits.
    pub(crate) fn may_hold(&self, claim: &Claim) -> bool
        ensures { result ≡ spec.may_hold claim.now self.now }
    {
        !is_refused(claim, self.holders.as_slice()) && self.queue.is_empty()
    }

    pub(crate) fn is_covered(&self, claim: &Claim) -> bool
        ensures { result ≡ claims_spec.is_covered claim.now self.now.holders }
    {
        is_covered(claim, self.holders.as_slice())
    }

    pub(crate) fn mode_of(&self, who: &Enlist) -> Option<Mode>
        ensures { result ≡ claims_spec.mode_of who.now self.now.holders }
    {
        mode_of(who, self.holders.as_slice())
    }

    /// Returns the first holder other than this enlistment, if there is one.
    pub(crate) fn holder_other_than(&self, who: &Enlist) -> Option<Enlist>
        ensures { result ≡ claims_spec.other_than who.now self.now.holders }
    {
        other_than(who, self.holders.as_slice())
    }

    fn is_behind(&self, claim: &Claim) -> bool
        ensures { result ≡ spec.is_behind claim.now self.now }
    {
        !has(&claim.who, self.holders.as_slice()) && !self.queue.is_empty()
    }

    fn has_to_wait(&self, claim: &Claim) -> bool
        ensures { result ≡ spec.has_to_wait claim.now self.now }
    {
        is_refused(claim, self.holders.as_slice()) || self.is_behind(claim)
    }

    fn blocker(&self, who: &Enlist) -> Verdict
        ensures { result ≡ spec.blocked_by (claims_spec.other_than who.now self.now.holders) }
    {
        match self.holder_other_than(who) {
            Some(holder) => Verdict::Blocked(holder),
            None => Verdict::Free,
        }
    }

    /// Returns whether the claim is granted.
    pub(crate) fn verdict(&self, claim: &Claim) -> Verdict
        ensures { result ≡ spec.verdict claim.now self.now }
    {
        if self.is_covered(claim) {
            Verdict::Covered
        } else if self.has_to_wait(claim) {
            self.blocker(&claim.who)
        } else {
            Verdict::Free
        }
    }

    /// Grants the claim, in the place of the enlistment's earlier one if there is one. On out of memory nothing changes.
    pub(crate) fn grant(&mut self, claim: &Claim) -> Result<(), NoMemory>
        ensures ok { OnOk result (self.new
            ≡ record self.old { holders = spec.granted claim.now self.old.holders }) }
        ensures err { OnErr result (self.new ≡ self.old) }
    {
        self.holders.reserve(1)?;
        remove_claims(&claim.who, &mut self.holders);
        self.holders.push_reserved(*claim);
        Ok(())
    }

    fn upgrades(&self) -> usize
        ensures count { result ≡ spec.upgrades self.now }
        ensures within { result ≤ length self.now.queue }
    {
        first_of_no_holder(self.holders.as_slice(), self.queue.as_slice()).unwrap_or(
            self.queue.len(),
        )
    }

    fn place(&self, claim: &Claim) -> usize
        ensures place { result ≡ spec.place claim.now self.now }
        ensures within { result ≤ length self.now.queue }
    {
        if has(&claim.who, self.holders.as_slice()) {
            self.upgrades()
        } else {
            self.queue.len()
        }
    }

    /// Lets the claim wait: an upgrade after the earlier upgrades and before all others, any other claim last. On out of
    /// memory nothing changes.
    pub(crate) fn enqueue(&mut self, claim: &Claim) -> Result<(), NoMemory>
        ensures ok { OnOk result (self.new ≡ spec.enqueued claim.now self.old) }
        ensures err { OnErr result (self.new ≡ self.old) }
    {
        let place = self.place(claim);
        self.queue.insert(place, *claim)?;
        Ok(())
    }

    /// Ends the enlistment's wait.
    pub(crate) fn dequeue(&mut self, who: &Enlist)
        ensures { self.new ≡ spec.dequeued who.now self.old }
    {
        remove_claims(who, &mut self.queue);
    }

    fn next_grant(&self) -> Option<Claim>
        ensures { result ≡ spec.next_grant self.now.holders self.now.queue }
    {
        next_grant(self.holders.as_slice(), self.queue.as_slice())
    }

    fn leave(&mut self, who: &Enlist)
        ensures { self.new ≡ record {
          holders = claims_spec.without who.now self.old.holders;
          queue = claims_spec.without who.now self.old.queue;
        } }
    {
        remove_claims(who, &mut self.holders);
        remove_claims(who, &mut self.queue);
    }

    /// Grants the first claim of the queue, which is this one.
    fn grant_next(&mut self, claim: &Claim) -> Result<(), NoMemory>
        requires { spec.next_grant self.old.holders self.old.queue ≡ Some claim.now }
        ensures ok { OnOk result (spec.IsGranted claim.now self.old self.new) }
    {
        let _granted = self.queue.remove(0);
        self.grant(claim)
    }

    /// Grants the first claim of the queue while no other holder conflicts with it, and lists the enlistments.
    fn settle(&mut self, granted: &mut Enlists) -> Result<(), NoMemory>
        ensures { OnOk result ((self.new, granted.new)
            ≡ spec.settled self.old.holders self.old.queue granted.old) }
    {
        while let Some(claim) = self.next_grant() {
            self.grant_next(&claim)?;
            granted.push(claim.who)?;
        }
        Ok(())
    }

    /// Removes all claims of the enlistment, grants the first claims of the queue while no other holder conflicts with them,
    /// and lists the enlistments.
    pub(crate) fn release(&mut self, who: &Enlist, granted: &mut Enlists) -> Result<(), NoMemory>
        ensures { OnOk result ((self.new, granted.new)
            ≡ spec.released who.now self.old granted.old) }
    {
        self.leave(who);
        self.settle(granted)
    }
}
