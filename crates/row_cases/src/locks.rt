//! Calls on locks.

use case_tools::{Cases, Output, Words};
use rs_base::{Enlist, Mode, NoMemory, Resource, Txn};
use rs_lock::{Asked, Ended, Locks};

/// The locks that the calls are made on.
#[derive(Drop)]
pub struct LockCases {
    locks: Locks,
}

/// Reads `table NAME`, `birth NAME`, `program USER NAME` or `synonyms USER`.
fn read_resource(words: &mut Words<'_>) -> Resource {
    match words.next() {
        "table" => Resource::Table(words.name()),
        "birth" => Resource::Birth(words.name()),
        "program" => Resource::Program(words.ident(), words.ident()),
        _ => Resource::Synonyms(words.ident()),
    }
}

/// Reads `read` or `write`.
fn read_mode(words: &mut Words<'_>) -> Mode {
    match words.next() {
        "read" => Mode::Read,
        _ => Mode::Write,
    }
}

/// Appends an enlistment as a transaction is printed.
fn append_enlist(who: &Enlist, out: &mut Output) {
    out.txn(&Txn {
        site: who.site,
        epoch: who.epoch,
        number: who.number,
    });
}

fn append_resource(what: &Resource, out: &mut Output) {
    match what {
        Resource::Table(name) => {
            out.text("table ");
            out.name(name);
        }
        Resource::Birth(name) => {
            out.text("birth ");
            out.name(name);
        }
        Resource::Program(user, program) => {
            out.text("program ");
            out.append(user.as_bytes());
            out.text(" ");
            out.append(program.as_bytes());
        }
        Resource::Synonyms(user) => {
            out.text("synonyms ");
            out.append(user.as_bytes());
        }
    }
}

fn append_asked(asked: &Asked, out: &mut Output) {
    match asked {
        Asked::Granted => out.text("granted"),
        Asked::Waiting(holder) => {
            out.text("waits for ");
            append_enlist(holder, out);
        }
    }
}

fn append_ended(ended: &Ended, out: &mut Output) {
    append_enlist(&ended.who, out);
    out.text(" ");
    append_resource(&ended.what, out);
    out.text(" ");
    append_enlist(&ended.holder, out);
}

fn append_mode(mode: Mode, out: &mut Output) {
    out.text(match mode {
        Mode::Read => " read ",
        Mode::Write => " write ",
    });
}

impl LockCases {
    pub fn new(out: &Output) -> LockCases {
        LockCases {
            locks: Locks::new(out.alloc),
        }
    }

    /// Asks for the lock, if the enlistment isn't waiting.
    fn ask_for(
        &mut self,
        who: &Enlist,
        what: &Resource,
        mode: Mode,
        out: &mut Output,
    ) -> Result<(), NoMemory> {
        if self.locks.is_waiting(*who) {
            out.text("is waiting");
            return Ok(());
        }
        append_asked(&self.locks.ask(*who, *what, mode)?, out);
        Ok(())
    }

    fn ask(&mut self, words: &mut Words<'_>, out: &mut Output) -> Result<(), NoMemory> {
        self.ask_for(
            &words.enlist(),
            &read_resource(words),
            read_mode(words),
            out,
        )
    }

    /// Holds the lock, if it may be held.
    fn hold_in(
        &mut self,
        who: &Enlist,
        what: &Resource,
        mode: Mode,
        out: &mut Output,
    ) -> Result<(), NoMemory> {
        if !self.locks.may_hold(*who, *what, mode) {
            out.text("conflict");
            return Ok(());
        }
        self.locks.hold(*who, *what, mode)
    }

    fn hold(&mut self, words: &mut Words<'_>, out: &mut Output) -> Result<(), NoMemory> {
        self.hold_in(
            &words.enlist(),
            &read_resource(words),
            read_mode(words),
            out,
        )
    }

    fn tick(&mut self, out: &mut Output) {
        match self.locks.tick() {
            Some(ended) => append_ended(&ended, out),
            None => out.text("none"),
        }
    }

    fn release(&mut self, words: &mut Words<'_>, out: &mut Output) -> Result<(), NoMemory> {
        let granted = self.locks.release(words.enlist())?;
        for who in granted.as_slice() {
            append_enlist(who, out);
            out.text(" ");
        }
        Ok(())
    }

    fn holder(&self, words: &mut Words<'_>, out: &mut Output) {
        match self.locks.holder(&read_resource(words), words.enlist()) {
            Some(holder) => append_enlist(&holder, out),
            None => out.text("none"),
        }
    }

    fn held(&self, words: &mut Words<'_>, out: &mut Output) -> Result<(), NoMemory> {
        let held = self.locks.held(words.enlist())?;
        for (what, mode) in held.as_slice() {
            append_resource(what, out);
            append_mode(*mode, out);
        }
        Ok(())
    }
}

impl Cases for LockCases {
    fn answer(&mut self, words: &mut Words<'_>, out: &mut Output) -> Result<(), NoMemory> {
        match words.next() {
            "new" => {
                self.locks = Locks::new(out.alloc);
                Ok(())
            }
            "ask" => self.ask(words, out),
            "hold" => self.hold(words, out),
            "release" => self.release(words, out),
            "held" => self.held(words, out),
            "holder" => {
                self.holder(words, out);
                Ok(())
            }
            "tick" => {
                self.tick(out);
                Ok(())
            }
            _ => {
                words.refuse();
                Ok(())
            }
        }
    }
}
