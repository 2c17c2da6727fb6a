//! One part of a transaction whose commit is played.

ghost use Rattle.std.specs.Prelude.{◌≡◌};
ghost use Rattle.rs_commit.specs.Play as spec;

use crate::event::{CommitEvent, Decision, Settlement};
use crate::subordinate::{Abo, Com, Subordinate};

/// A part: its state, and what it has decided. A part that its site's stop lost is aborted and has decided nothing.
#[derive(Clone, Copy)]
pub(crate) struct Part {
    pub(crate) state: Subordinate,
    pub(crate) decided: Option<Decision>,
}

/// What a part's events need of the master: how it settled the transaction, and whether it has given up.
#[derive(Clone, Copy)]
pub(crate) struct Master {
    pub(crate) settled: Option<Settlement>,
    pub(crate) gave_up: bool,
}

impl Part {
    pub(crate) fn new() -> Part
        ensures { result ≡ spec.new_part }
    {
        Part {
            state: Subordinate::new(),
            decided: None,
        }
    }

    fn prepare(&mut self)
        ensures { self.new ≡ spec.part_prepared self.old }
    {
        let _answer = self.state.prepare();
    }

    fn commit(&mut self)
        ensures { self.new ≡ spec.part_committed self.old }
    {
        match self.state.commit() {
            Com::Force => self.decided = Some(Decision::Commit),
            Com::Again | Com::Nothing => {}
        }
    }

    fn abort(&mut self)
        ensures { self.new ≡ spec.part_aborted self.old }
    {
        match self.state.abort() {
            Abo::Note | Abo::Release => self.decided = Some(Decision::Abort),
            Abo::Nothing => {}
        }
    }

    /// Loses a part that is working, as a stop of its site does.
    fn lose(&mut self)
        ensures { self.new ≡ spec.part_lost self.old }
    {
        if !self.state.is_prepared() {
            let _answer = self.state.abort();
        }
    }

    /// Receives Abort, which a master sends that gives up.
    fn receive_abort(&mut self, master: Master)
        ensures { self.new ≡ spec.part_told_abort master self.old }
    {
        match master.settled {
            Some(Settlement::GivenUp) => self.abort(),
            _ => {
                if master.gave_up {
                    self.lose();
                }
            }
        }
    }

    /// Receives Commit, which a master sends that decided.
    fn receive_commit(&mut self, master: Master)
        ensures { self.new ≡ spec.part_told_commit master.settled self.old }
    {
        match master.settled {
            Some(Settlement::Decided) => self.commit(),
            _ => {}
        }
    }

    /// Inquires. A master that has not settled answers nothing, and one that knows nothing answers Abort.
    fn inquire(&mut self, master: Master)
        ensures { self.new ≡ spec.part_inquired master.settled self.old }
    {
        match master.settled {
            None => {}
            Some(Settlement::Decided) => self.commit(),
            Some(Settlement::GivenUp) | Some(Settlement::Stopped) => {
                if self.state.is_prepared() {
                    self.abort();
                }
            }
        }
    }

    /// Steps by one of its events.
    pub(crate) fn step(&mut self, event: CommitEvent, master: Master)
        ensures { self.new ≡ spec.part_after event master self.old }
    {
        match event {
            CommitEvent::Prepare(_) => self.prepare(),
            CommitEvent::Commit(_) => self.receive_commit(master),
            CommitEvent::Abort(_) => self.receive_abort(master),
            CommitEvent::Inquire(_) => self.inquire(master),
            CommitEvent::StopPart(_) => self.lose(),
            _ => {}
        }
    }
}
