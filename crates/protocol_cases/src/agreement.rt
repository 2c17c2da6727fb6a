//! Lists of events of one transaction, and what its parts decide.

use case_tools::{Cases, Output, Words};
use rs_base::NoMemory;
use rs_commit::{CommitEvent, Decision, agree};
use sqlite_items::Items;
use std::alloc::Global;

/// Each call is made alone.
#[derive(Drop)]
pub struct AgreementCases;

/// Reads an event: its name, and for one of a part `:` and its number.
fn read_event(word: &str) -> Option<CommitEvent> {
    let (name, number) = word.split_once(':').unwrap_or((word, "0"));
    let part = number.parse().ok()?;
    match name {
        "prepare" => Some(CommitEvent::Prepare(part)),
        "vote" => Some(CommitEvent::Vote(part)),
        "decide" => Some(CommitEvent::Decide),
        "give-up" => Some(CommitEvent::GiveUp),
        "commit" => Some(CommitEvent::Commit(part)),
        "abort" => Some(CommitEvent::Abort(part)),
        "ack" => Some(CommitEvent::Ack(part)),
        "inquire" => Some(CommitEvent::Inquire(part)),
        "stop" => Some(CommitEvent::StopPart(part)),
        "stop-master" => Some(CommitEvent::StopMaster),
        _ => None,
    }
}

/// Reads the events that are left of the line.
fn read_events(alloc: Global, words: &mut Words<'_>) -> Result<Items<CommitEvent>, NoMemory> {
    let mut events = Items::new(alloc);
    for _ in 0..u64::MAX {
        if words.rest().is_empty() {
            break;
        }
        match read_event(words.next()) {
            Some(event) => events.push(event)?,
            None => words.refuse(),
        }
    }
    Ok(events)
}

fn decision_text(decided: Option<Decision>) -> &'static str {
    match decided {
        Some(Decision::Commit) => "commit ",
        Some(Decision::Abort) => "abort ",
        None => "none ",
    }
}

impl Cases for AgreementCases {
    fn answer(&mut self, words: &mut Words<'_>, out: &mut Output) -> Result<(), NoMemory> {
        let parts = words.byte();
        let events = read_events(out.alloc, words)?;
        let outcome = agree(out.alloc, parts, events.as_slice())?;
        for decided in outcome.decided.as_slice() {
            out.text(decision_text(*decided));
        }
        Ok(())
    }
}
