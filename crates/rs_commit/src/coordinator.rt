//! The votes and acknowledgements that a coordinator counts.

ghost use Rattle.std.specs.Prelude.{◌≡◌, ◌&&◌, not, map, find, option_map, IfOk, if◌then◌else◌};
ghost use Rattle.std.specs.List.{list_all, list_any};
ghost use Rattle.rs_commit.specs.Coordinator as spec;

use rs_base::{Enlist, NoMemory};
use std::alloc::Global;
use std::marker::Model;

/// The answer to a vote: whether every part has voted.
#[derive(Clone, Copy)]
pub enum Voted {
    More,
    All,
}

/// The answer to an acknowledgement: whether every part has acknowledged.
#[derive(Clone, Copy)]
pub enum Acked {
    More,
    All,
}

/// A part of the transaction, and whether it voted and acknowledged.
#[derive(Clone, Copy)]
pub struct PartState {
    pub enlist: Enlist,
    pub voted: bool,
    pub acked: bool,
}

/// The parts of one transaction in the order of enlisting, with their votes and acknowledgements. A stranger's count for
/// nothing.
#[derive(Drop)]
pub struct Coordinator {
    parts: Vec<PartState>,
}

impl Model for Coordinator {
    ghost use Rattle.std.specs.Prelude.{List};
    ghost use Rattle.rs_commit.specs.declared.coordinator.PartState.{PartState};

    ghost Value = { List PartState };

    ghost view = { λ it. it.parts.items };
}

fn is_same(one: &Enlist, other: &Enlist) -> bool
    ensures { result ≡ spec.is_same one.now other.now }
{
    one == other
}

impl PartState {
    fn voted_by(&self, from: &Enlist) -> PartState
        ensures { result ≡ spec.with_vote from.now self.now }
    {
        PartState {
            enlist: self.enlist,
            voted: self.voted || is_same(&self.enlist, from),
            acked: self.acked,
        }
    }

    fn acked_by(&self, from: &Enlist) -> PartState
        ensures { result ≡ spec.with_ack from.now self.now }
    {
        PartState {
            enlist: self.enlist,
            voted: self.voted,
            acked: self.acked || is_same(&self.enlist, from),
        }
    }
}

/// Counts the vote of each part of this name.
fn count_vote(parts: &mut [PartState], from: &Enlist)
    ensures { parts.new ≡ map (spec.with_vote from.now) parts.old }
{
    for part in parts.iter_mut() {
        *part = part.voted_by(from);
    }
}

/// Counts the acknowledgement of each part of this name.
fn count_ack(parts: &mut [PartState], from: &Enlist)
    ensures { parts.new ≡ map (spec.with_ack from.now) parts.old }
{
    for part in parts.iter_mut() {
        *part = part.acked_by(from);
    }
}

fn have_all_voted(parts: &[PartState]) -> bool
    ensures { result ≡ spec.have_all_voted parts.now }
{
    parts.iter().all(|part| part.voted)
}

fn have_all_acked(parts: &[PartState]) -> bool
    ensures { result ≡ spec.have_all_acked parts.now }
{
    parts.iter().all(|part| part.acked)
}

/// Returns the first part without a vote.
fn first_silent(parts: &[PartState]) -> Option<Enlist>
    ensures { result ≡ spec.first_silent parts.now }
{
    parts
        .iter()
        .find(|part| !part.voted)
        .map(|part| part.enlist)
}

fn has_voted(parts: &[PartState], part: &Enlist) -> bool
    ensures { result ≡ spec.has_voted part.now parts.now }
{
    parts
        .iter()
        .any(|state| is_same(&state.enlist, part) && state.voted)
}

fn has_acked(parts: &[PartState], part: &Enlist) -> bool
    ensures { result ≡ spec.has_acked part.now parts.now }
{
    parts
        .iter()
        .any(|state| is_same(&state.enlist, part) && state.acked)
}

/// Copies the parts, without votes and acknowledgements.
fn silent_parts(alloc: Global, parts: &[Enlist]) -> Result<Vec<PartState>, NoMemory>
    ensures { IfOk result (λ states. states.items ≡ map spec.silent_part parts.now) }
{
    let mut states = Vec::with_capacity(alloc, parts.len())?;
    for part in parts {
        states.push(PartState {
            enlist: *part,
            voted: false,
            acked: false,
        })?;
    }
    Ok(states)
}

impl Coordinator {
    /// Makes the coordinator of these parts, none of which has voted.
    pub fn new(alloc: Global, parts: &[Enlist]) -> Result<Coordinator, NoMemory>
        ensures { IfOk result (λ coordinator. coordinator ≡ map spec.silent_part parts.now) }
    {
        let parts = silent_parts(alloc, parts)?;
        Ok(Coordinator { parts })
    }

    /// Counts a part's vote. `All` exactly if every part has voted.
    pub fn vote(&mut self, from: Enlist) -> Voted
        ensures state { self.new ≡ map (spec.with_vote from) self.old }
        ensures answer { result ≡ spec.vote_answer self.new }
    {
        count_vote(&mut self.parts, &from);
        if have_all_voted(&self.parts) {
            Voted::All
        } else {
            Voted::More
        }
    }

    /// Returns the first part without a vote; `None` exactly if every part has voted.
    pub fn silent(&self) -> Option<Enlist>
        ensures { result ≡ spec.first_silent self.now }
    {
        first_silent(&self.parts)
    }

    /// Counts a part's acknowledgement. `All` exactly if every part has acknowledged.
    pub fn ack(&mut self, from: Enlist) -> Acked
        ensures state { self.new ≡ map (spec.with_ack from) self.old }
        ensures answer { result ≡ spec.ack_answer self.new }
    {
        count_ack(&mut self.parts, &from);
        if have_all_acked(&self.parts) {
            Acked::All
        } else {
            Acked::More
        }
    }

    /// Returns whether this part has voted.
    pub fn voted(&self, part: Enlist) -> bool
        ensures { result ≡ spec.has_voted part self.now }
    {
        has_voted(&self.parts, &part)
    }

    /// Returns whether this part has acknowledged.
    pub fn acked(&self, part: Enlist) -> bool
        ensures { result ≡ spec.has_acked part self.now }
    {
        has_acked(&self.parts, &part)
    }
}
