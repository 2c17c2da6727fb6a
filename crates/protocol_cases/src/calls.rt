//! Deliveries of numbered calls to a callee.

ghost use Rattle.std.specs.Prelude.{⊤};

use case_tools::{Cases, Output, Words};
use rs_base::NoMemory;
use rs_call::{Body, Callee, Step, Took};
use sqlite_items::Items;
use std::alloc::Global;

/// A body that keeps what it ran. It replies to an even number with the next one, and an odd one waits.
#[derive(Drop)]
struct Recorder {
    ran: Items<u64>,
}

impl Body for Recorder {
    type Ask = u64;

    type Told = u64;

    ghost runs = { λ before ask after step. ⊤ };

    fn run(&mut self, ask: &u64) -> Result<Step<u64>, NoMemory> {
        self.ran.push(*ask)?;
        if *ask % 2 == 0 {
            Ok(Step::Told(ask.saturating_add(1)))
        } else {
            Ok(Step::Waits)
        }
    }
}

/// The callee that the calls are made on, and its body.
#[derive(Drop)]
pub struct CallCases {
    callee: Callee<u64>,
    body: Recorder,
}

fn answer_of(took: Took) -> &'static str {
    match took {
        Took::Ran => "ran",
        Took::Parked => "parked",
        Took::Repeat => "repeat",
        Took::Old => "old",
        Took::Ahead => "ahead",
    }
}

impl CallCases {
    pub fn new(alloc: Global) -> CallCases {
        CallCases {
            callee: Callee::new(),
            body: Recorder {
                ran: Items::new(alloc),
            },
        }
    }

    fn take(&mut self, words: &mut Words<'_>, out: &mut Output) -> Result<(), NoMemory> {
        let number = words.number();
        let ask = words.number();
        let took = self.callee.take(number, &ask, &mut self.body)?;
        out.text(answer_of(took));
        Ok(())
    }

    fn told(&mut self, words: &mut Words<'_>, out: &mut Output) {
        let reply = words.number();
        if self.callee.is_parked() {
            self.callee.told(reply);
        } else {
            out.text("none waits");
        }
    }

    fn append_kept(&self, out: &mut Output) {
        match self.callee.kept() {
            Some(reply) => out.number(*reply),
            None => out.text("none"),
        }
    }

    /// Appends what the body ran, each call with a blank after it.
    fn append_ran(&self, out: &mut Output) {
        for ask in self.body.ran.as_slice() {
            out.number(*ask);
            out.text(" ");
        }
    }
}

impl Cases for CallCases {
    fn answer(&mut self, words: &mut Words<'_>, out: &mut Output) -> Result<(), NoMemory> {
        match words.next() {
            "new" => *self = CallCases::new(out.alloc),
            "take" => self.take(words, out)?,
            "told" => self.told(words, out),
            "kept" => self.append_kept(out),
            "ran" => self.append_ran(out),
            _ => words.refuse(),
        }
        Ok(())
    }
}
