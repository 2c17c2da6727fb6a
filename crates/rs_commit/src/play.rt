//! The commit of one transaction played: a coordinator and its parts step by one event after the other.

ghost use Rattle.std.specs.Prelude.{◌≡◌, ℕ, List, [], ◌∷◌, map, IfOk};
ghost use Rattle.std.specs.List.{range_with_len};
ghost use Rattle.rs_commit.specs.Decisions.{decisions_after};
ghost use Rattle.rs_commit.specs.Laws.{CommitIsVotedFor, NoneDiffer};
ghost use Rattle.rs_commit.specs.Play as spec;

use crate::coordinator::Coordinator;
use crate::event::{CommitEvent, Outcome, Settlement};
use crate::part::Master;
use crate::parts::Parts;
use rs_base::{Enlist, NoMemory, SiteNo, with_room};
use sqlite_items::Items;
use std::alloc::Global;

/// A coordinator, what it settled, and its parts.
#[derive(Drop)]
struct Play {
    coordinator: Coordinator,
    master: Master,
    parts: Parts,
}

/// The enlistment that stands for the part of this number.
fn enlist_of(number: u8) -> Enlist
    ensures { result ≡ spec.enlist_of number }
{
    Enlist {
        site: SiteNo::first(),
        epoch: 1,
        number: u64::from(number),
    }
}

fn enlists_of(alloc: Global, parts: u8) -> Result<Items<Enlist>, NoMemory>
    ensures { IfOk result (λ enlists. enlists ≡ map spec.enlist_of (range_with_len 0 parts)) }
{
    let mut enlists = with_room(alloc, usize::from(parts))?;
    for number in 0..parts {
        enlists.push(enlist_of(number))?;
    }
    Ok(enlists)
}

impl Play {
    fn new(alloc: Global, parts: u8) -> Result<Play, NoMemory>
        ensures { IfOk result (λ play. play ≡ spec.new_play parts) }
    {
        let enlists = enlists_of(alloc, parts)?;
        let coordinator = Coordinator::new(alloc, enlists.as_slice())?;
        let parts = Parts::new(alloc, parts)?;
        let master = Master {
            settled: None,
            gave_up: false,
        };
        Ok(Play {
            coordinator,
            master,
            parts,
        })
    }

    /// Settles the transaction, unless it is settled.
    fn settle(&mut self, settlement: Settlement)
        ensures { self.new ≡ spec.play_settled settlement self.old }
    {
        if self.master.settled.is_none() {
            self.master.settled = Some(settlement);
        }
    }

    /// Counts the vote of a prepared part.
    fn vote(&mut self, number: u8)
        ensures { self.new ≡ spec.play_voted number self.old }
    {
        if self.parts.is_prepared(number) {
            let _answer = self.coordinator.vote(enlist_of(number));
        }
    }

    /// Decides to commit, if every part has voted.
    fn decide(&mut self)
        ensures { self.new ≡ spec.play_decided self.old }
    {
        if self.coordinator.silent().is_none() {
            self.settle(Settlement::Decided);
        }
    }

    fn give_up(&mut self)
        ensures { self.new ≡ spec.play_given_up self.old }
    {
        self.settle(Settlement::GivenUp);
        self.master.gave_up = true;
    }

    fn step_part(&mut self, number: u8, event: CommitEvent)
        ensures { self.new ≡ spec.play_part_stepped number event self.old }
    {
        self.parts.step(number, event, self.master);
    }

    fn step(&mut self, event: CommitEvent)
        ensures { self.new ≡ spec.play_after event self.old }
    {
        match event {
            CommitEvent::Vote(number) => self.vote(number),
            CommitEvent::Decide => self.decide(),
            CommitEvent::GiveUp => self.give_up(),
            CommitEvent::StopMaster => self.settle(Settlement::Stopped),
            CommitEvent::Ack(_) => {}
            CommitEvent::Prepare(number)
            | CommitEvent::Commit(number)
            | CommitEvent::Abort(number)
            | CommitEvent::Inquire(number)
            | CommitEvent::StopPart(number) => self.step_part(number, event),
        }
    }
}

/// Returns what each of this number of parts has decided after the events. An event that can't come then, or that is of no
/// part, does nothing. No two parts decide differently, and one commits only after each has prepared and voted. Linear in
/// the number of events times that of parts.
pub fn agree(alloc: Global, parts: u8, events: &[CommitEvent]) -> Result<Outcome, NoMemory>
    ensures decided { IfOk result (λ outcome. outcome.decided ≡ decisions_after parts events.now) }
    ensures agreed { IfOk result (λ outcome. NoneDiffer outcome.decided) }
    ensures voted { IfOk result (λ outcome. CommitIsVotedFor parts events.now outcome.decided) }
{
    let mut play = Play::new(alloc, parts)?;
    for event in events {
        play.step(*event);
    }
    let decided = play.parts.decisions(alloc)?;
    Ok(Outcome { decided })
}
