//! What runs a call.

ghost use Rattle.std.specs.Prelude.{◌≡◌, IfOk, OnErr};
ghost use Rattle.rs_call.specs.declared.body.Step.{Step};

use rs_base::NoMemory;

/// What a run of a call gives: its reply, or that the call waits for it.
#[derive(Drop)]
pub enum Step<T> {
    Told(T),
    Waits,
}

/// A body that runs calls.
pub trait Body {
    type Ask;

    type Told;

    /// A run leads from one body, by a call, to another body and a step.
    ghost runs: { Self → Self.Ask → Self → Step Self.Told → Type 0 };

    /// Runs a call. On out of memory nothing changes.
    fn run(&mut self, ask: &Self::Ask) -> Result<Step<Self::Told>, NoMemory>
        ensures ok { IfOk result (λ step. runs self.old ask.now self.new step) }
        ensures err { OnErr result (self.new ≡ self.old) };
}
