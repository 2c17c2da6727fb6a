//! The side that is called.

ghost use Rattle.std.specs.Prelude.{◌≡◌, IsTrue, Ok, IfOk, OnOk, OnErr, IfSome, option_copied};
ghost use Rattle.rs_call.specs.Callee as spec;

use crate::body::{Body, Step};
use rs_base::NoMemory;

/// The answer to a delivered call. `Ran`: it has run, and its reply is kept; `Parked`: it waits for its reply; `Repeat`: it
/// is the last call again, whose reply is kept; `Old`: an earlier call, or number 0; `Ahead`: a later call than the next,
/// or the next while the last waits.
#[derive(Clone, Copy)]
pub enum Took {
    Ran,
    Parked,
    Repeat,
    Old,
    Ahead,
}

/// The number of the last call that was accepted, 0 at first, and its reply. It waits while it has none.
#[derive(Drop)]
pub struct Callee<T> {
    last: u64,
    reply: Option<T>,
}

fn took_by<T>(step: &Step<T>) -> Took
    ensures { result ≡ spec.took_by step.now }
{
    match step {
        Step::Told(_) => Took::Ran,
        Step::Waits => Took::Parked,
    }
}

impl<T: Drop> Callee<T> {
    /// Makes a callee that has accepted no call.
    pub fn new() -> Callee<T>
        ensures { result ≡ spec.fresh }
    {
        Callee {
            last: 0,
            reply: None,
        }
    }

    /// Returns whether the last call waits for its reply.
    pub fn is_parked(&self) -> bool
        ensures { result ≡ spec.is_parked self.now }
    {
        self.last != 0 && self.reply.is_none()
    }

    /// Returns the kept reply: that of the last call, unless it waits.
    pub fn kept(&self) -> Option<&T>
        ensures { option_copied result ≡ spec.kept self.now }
    {
        self.reply.as_ref()
    }

    /// Returns the answer to a call of this number that is not run; `None` exactly if it is the next and runs.
    fn unrun(&self, number: u64) -> Option<Took>
        ensures { result ≡ spec.unrun number self.now }
    {
        if number == 0 || number < self.last {
            return Some(Took::Old);
        }
        if number == self.last {
            return Some(if self.reply.is_some() {
                Took::Repeat
            } else {
                Took::Parked
            });
        }
        if number - 1 == self.last && !self.is_parked() {
            return None;
        }
        Some(Took::Ahead)
    }

    /// Accepts what a run of the call of this number gave.
    fn accept(&mut self, number: u64, step: Step<T>)
        ensures { self.new ≡ spec.accepted number step }
    {
        self.last = number;
        self.reply = match step {
            Step::Told(reply) => Some(reply),
            Step::Waits => None,
        };
    }

    /// Delivers a call. The body runs it exactly if it is the next and no call waits. On out of memory nothing changes.
    pub fn take<B: Body<Told = T>>(
        &mut self,
        number: u64,
        ask: &B::Ask,
        body: &mut B,
    ) -> Result<Took, NoMemory>
        ensures unrun { IfSome (spec.unrun number self.old) (λ took. result ≡ Ok took) }
        ensures ok { IfOk result (λ took. spec.Takes B.runs number ask.now self.old body.old self.new body.new took) }
        ensures err { OnErr result ((self.new ≡ self.old) × (body.new ≡ body.old)) }
    {
        if let Some(took) = self.unrun(number) {
            return Ok(took);
        }
        let step = body.run(ask)?;
        let took = took_by(&step);
        self.accept(number, step);
        Ok(took)
    }

    /// Gives the parked call its reply.
    pub fn told(&mut self, reply: T)
        requires { IsTrue (spec.is_parked self.old) }
        ensures { self.new ≡ spec.answered reply self.old }
    {
        self.reply = Some(reply);
    }
}
