//! The parts of a transaction whose commit is played.

ghost use Rattle.std.specs.Prelude.{◌≡◌, ◌++◌, map, slice_get, option_map, IfOk};
ghost use Rattle.std.specs.List.{range_with_len};
ghost use Rattle.rs_commit.specs.Play as spec;

use crate::event::{CommitEvent, Decisions};
use crate::part::{Master, Part};
use rs_base::{NoMemory, with_room};
use std::alloc::Global;
use std::marker::Model;

/// The parts of one transaction, by their numbers from 0.
#[derive(Drop)]
pub(crate) struct Parts {
    parts: Vec<Part>,
}

impl Model for Parts {
    ghost use Rattle.std.specs.Prelude.{List};
    ghost use Rattle.rs_commit.specs.declared.part.Part.{Part};

    ghost Value = { List Part };

    ghost view = { λ it. it.parts.items };
}

fn new_parts(alloc: Global, parts: u8) -> Result<Vec<Part>, NoMemory>
    ensures { IfOk result (λ made. made.items ≡ spec.new_parts parts) }
{
    let mut made = Vec::with_capacity(alloc, usize::from(parts))?;
    for _number in 0..parts {
        made.push(Part::new())?;
    }
    Ok(made)
}

impl Parts {
    /// Makes this number of parts, each of them working.
    pub(crate) fn new(alloc: Global, parts: u8) -> Result<Parts, NoMemory>
        ensures { IfOk result (λ made. made ≡ spec.new_parts parts) }
    {
        let parts = new_parts(alloc, parts)?;
        Ok(Parts { parts })
    }

    /// Returns whether there is such a part, and it is prepared.
    pub(crate) fn is_prepared(&self, number: u8) -> bool
        ensures { result ≡ spec.part_is_prepared (slice_get self.now number) }
    {
        match self.parts.get(usize::from(number)) {
            Some(part) => part.state.is_prepared(),
            None => false,
        }
    }

    /// Steps the part of this number, if there is such a part.
    pub(crate) fn step(&mut self, number: u8, event: CommitEvent, master: Master)
        ensures { self.new ≡ spec.parts_after number event master self.old (slice_get self.old number) }
    {
        if let Some(part) = self.parts.get_mut(usize::from(number)) {
            part.step(event, master);
        }
    }

    /// Returns what each part has decided.
    pub(crate) fn decisions(&self, alloc: Global) -> Result<Decisions, NoMemory>
        ensures { IfOk result (λ decisions. decisions ≡ map (λ part. part.decided) self.now) }
    {
        decisions_of(alloc, &self.parts)
    }
}

fn decisions_of(alloc: Global, parts: &[Part]) -> Result<Decisions, NoMemory>
    ensures { IfOk result (λ decisions. decisions ≡ map (λ part. part.decided) parts.now) }
{
    let mut decisions = with_room(alloc, parts.len())?;
    for part in parts {
        decisions.push(part.decided)?;
    }
    Ok(decisions)
}
