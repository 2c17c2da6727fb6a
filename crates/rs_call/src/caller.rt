//! The side that calls.

ghost use Rattle.std.specs.Prelude.{◌≡◌};
ghost use Rattle.rs_call.specs.Caller as spec;

/// The answer to a reply that comes: that of the last call, for the first time, or an old one.
#[derive(Clone, Copy)]
pub enum Heard {
    Fresh,
    Old,
}

/// The number of the last call, 0 at first, and whether it waits for its reply.
#[derive(Clone, Copy)]
pub struct Caller {
    last: u64,
    waits: bool,
}

impl Caller {
    /// Makes a caller that has made no call.
    pub fn new() -> Caller
        ensures { result ≡ spec.fresh }
    {
        Caller {
            last: 0,
            waits: false,
        }
    }

    /// Returns the number of a new call: 1, 2, 3 and so on; `None` exactly after 2^64 - 1.
    pub fn next(&mut self) -> Option<u64>
        ensures number { result ≡ spec.next_number self.old }
        ensures state { self.new ≡ spec.after_next self.old }
    {
        let number = self.last.checked_add(1)?;
        self.last = number;
        self.waits = true;
        Some(number)
    }

    /// Receives the reply to the call of this number. `Fresh` exactly if it is the last call, and has had no reply.
    pub fn reply(&mut self, number: u64) -> Heard
        ensures answer { result ≡ spec.heard number self.old }
        ensures state { self.new ≡ spec.after_reply number self.old }
    {
        if self.waits && number == self.last {
            self.waits = false;
            return Heard::Fresh;
        }
        Heard::Old
    }
}
