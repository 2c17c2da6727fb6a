//! One step of a site.

ghost use Rattle.std.specs.Prelude.{◌≡◌, ℕ, true, List, Some, IfOk, OnErr};
ghost use Rattle.rs_base.specs.declared.peer.Peer.{Peer};
ghost use Rattle.rs_msg.specs.Limits.{HasRoom};
ghost use Rattle.rs_course.specs.declared.input.Input.TheVariants as inputs;
ghost use Rattle.rs_course.specs.Outs.{no_outs};
ghost use Rattle.rs_site.specs.Dropped.{IsDropped};
ghost use Rattle.rs_site.specs.Planned.{IsDone, done};
ghost use Rattle.rs_site.specs.Step as spec;

use crate::outs::no_outs;
use crate::site::Site;
use rs_base::{NoMemory, Peer, ReadFault};
use rs_course::{Input, Outs};
use rs_msg::{Message, decode};
use std::alloc::Global;

/// The largest datagram, in bytes.
const MOST_BYTES: usize = 32_768;

impl Site {
    /// Handles a message from a peer.
    fn on_message(&mut self, alloc: Global, from: &Peer, message: Message) -> Result<Outs, NoMemory>
        requires { HasRoom message }
        ensures ok { IfOk result (IsDone (spec.on_message self.old from.now message) self.new) }
        ensures err { OnErr result (self.new ≡ self.old) }
    {
        match message {
            Message::Ask(ask) => self.on_ask(alloc, from, ask),
            Message::Reply(_) => Ok(no_outs(alloc)),
        }
    }

    /// Handles a datagram from a peer.
    #[tactic(auto, using(crate::proofs::Rooms::has_room), unfolding(crate::specs::Planned::when))]
    fn on_datagram(&mut self, alloc: Global, from: &Peer, bytes: &[u8]) -> Result<Outs, NoMemory>
        ensures ok { IfOk result (IsDone (spec.on_datagram self.old from.now bytes.now) self.new) }
        ensures err { OnErr result (self.new ≡ self.old) }
    {
        if MOST_BYTES < bytes.len() {
            return Ok(no_outs(alloc));
        }
        match decode(alloc, bytes) {
            Ok(message) => self.on_message(alloc, from, message),
            Err(ReadFault::Malformed) => Ok(no_outs(alloc)),
            Err(ReadFault::NoMemory) => Err(NoMemory),
        }
    }

    /// Makes the step of its definition.
    #[tactic(auto, unfolding(crate::specs::Step::planned_step))]
    fn on_input(&mut self, alloc: Global, input: &Input) -> Result<Outs, NoMemory>
        ensures ok { IfOk result (IsDone (spec.planned_step self.old input.now) self.new) }
        ensures err { OnErr result (self.new ≡ self.old) }
    {
        match input {
            Input::Datagram(from, bytes) => self.on_datagram(alloc, from, bytes.as_slice()),
            Input::Tick => Ok(no_outs(alloc)),
        }
    }

    /// Handles one input, and returns what is sent, replied and committed. A datagram of more than 32,768 bytes, one that is
    /// no message, and one that no rule handles change nothing, and nothing is sent. On out of memory the site stays as it
    /// was.
    pub fn step(&mut self, alloc: Global, input: &Input) -> Result<Outs, NoMemory>
        ensures ok { IfOk result (λ outs. done (spec.planned_step self.old input.now) true ≡ (Some self.new, outs)) }
        ensures dropped { (from : Peer) (bytes : List ℕ) → input.now ≡ inputs.Datagram from bytes → IsDropped self.old bytes
            → IfOk result (λ outs. (self.new ≡ self.old) × (outs ≡ no_outs)) }
        ensures err { OnErr result (self.new ≡ self.old) }
    {
        self.on_input(alloc, input)
    }
}
