//! Messages of a coordinator to one part.

use case_tools::{Cases, Output, Words};
use rs_base::NoMemory;
use rs_commit::{Abo, Com, Prep, Subordinate};

/// The part that the calls are made on.
#[derive(Drop)]
pub struct PartCases {
    part: Subordinate,
}

fn prepare(part: &mut Subordinate) -> &'static str {
    match part.prepare() {
        Prep::Force => "force",
        Prep::Again => "again",
        Prep::Gone => "gone",
    }
}

fn commit(part: &mut Subordinate) -> &'static str {
    match part.commit() {
        Com::Force => "force",
        Com::Again => "again",
        Com::Nothing => "nothing",
    }
}

fn abort(part: &mut Subordinate) -> &'static str {
    match part.abort() {
        Abo::Note => "note",
        Abo::Release => "release",
        Abo::Nothing => "nothing",
    }
}

impl PartCases {
    pub fn new() -> PartCases {
        PartCases {
            part: Subordinate::new(),
        }
    }
}

impl Cases for PartCases {
    fn answer(&mut self, words: &mut Words<'_>, out: &mut Output) -> Result<(), NoMemory> {
        match words.next() {
            "new" => self.part = Subordinate::new(),
            "prepare" => out.text(prepare(&mut self.part)),
            "commit" => out.text(commit(&mut self.part)),
            "abort" => out.text(abort(&mut self.part)),
            "prepared" => out.text(if self.part.is_prepared() {
                "true"
            } else {
                "false"
            }),
            _ => words.refuse(),
        }
        Ok(())
    }
}
