//! Votes and acknowledgements that a coordinator counts.

use case_tools::{Cases, Output, Words};
use rs_base::{Enlist, NoMemory};
use rs_commit::{Acked, Coordinator, Voted};
use sqlite_items::Items;
use std::alloc::Global;

/// The coordinator that the calls are made on.
#[derive(Drop)]
pub struct CoordinatorCases {
    coordinator: Coordinator,
}

fn append_truth(truth: bool, out: &mut Output) {
    out.text(if truth { "true" } else { "false" });
}

fn append_enlist(enlist: &Enlist, out: &mut Output) {
    out.number(u64::from(enlist.site.number()));
    out.text(" ");
    out.number(u64::from(enlist.epoch));
    out.text(" ");
    out.number(enlist.number);
}

/// Reads `COUNT` and this number of parts.
fn read_parts(alloc: Global, words: &mut Words<'_>) -> Result<Items<Enlist>, NoMemory> {
    let count = words.byte();
    let mut parts = Items::new(alloc);
    for _ in 0..count {
        parts.push(words.enlist())?;
    }
    Ok(parts)
}

impl CoordinatorCases {
    pub fn new(alloc: Global) -> Result<CoordinatorCases, NoMemory> {
        let coordinator = Coordinator::new(alloc, &[])?;
        Ok(CoordinatorCases { coordinator })
    }

    fn begin(&mut self, words: &mut Words<'_>, out: &Output) -> Result<(), NoMemory> {
        let parts = read_parts(out.alloc, words)?;
        self.coordinator = Coordinator::new(out.alloc, parts.as_slice())?;
        Ok(())
    }

    fn append_silent(&self, out: &mut Output) {
        match self.coordinator.silent() {
            Some(part) => append_enlist(&part, out),
            None => out.text("none"),
        }
    }
}

impl Cases for CoordinatorCases {
    fn answer(&mut self, words: &mut Words<'_>, out: &mut Output) -> Result<(), NoMemory> {
        match words.next() {
            "new" => self.begin(words, out)?,
            "vote" => out.text(match self.coordinator.vote(words.enlist()) {
                Voted::More => "more",
                Voted::All => "all",
            }),
            "ack" => out.text(match self.coordinator.ack(words.enlist()) {
                Acked::More => "more",
                Acked::All => "all",
            }),
            "silent" => self.append_silent(out),
            "voted" => append_truth(self.coordinator.voted(words.enlist()), out),
            "acked" => append_truth(self.coordinator.acked(words.enlist()), out),
            _ => words.refuse(),
        }
        Ok(())
    }
}
