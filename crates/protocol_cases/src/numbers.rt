//! The numbers of a caller's calls.

use case_tools::{Cases, Output, Words};
use rs_base::NoMemory;
use rs_call::{Caller, Heard};

/// The caller that the calls are made on.
#[derive(Drop)]
pub struct NumberCases {
    caller: Caller,
}

impl NumberCases {
    pub fn new() -> NumberCases {
        NumberCases {
            caller: Caller::new(),
        }
    }

    fn append_next(&mut self, out: &mut Output) {
        match self.caller.next() {
            Some(number) => out.number(number),
            None => out.text("none"),
        }
    }
}

impl Cases for NumberCases {
    fn answer(&mut self, words: &mut Words<'_>, out: &mut Output) -> Result<(), NoMemory> {
        match words.next() {
            "new" => *self = NumberCases::new(),
            "next" => self.append_next(out),
            "reply" => out.text(match self.caller.reply(words.number()) {
                Heard::Fresh => "fresh",
                Heard::Old => "old",
            }),
            _ => words.refuse(),
        }
        Ok(())
    }
}
