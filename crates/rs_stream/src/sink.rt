//! Where bytes go.

ghost use Rattle.std.specs.Prelude.{◌<◌, ◌≤◌, length, IfOk};
ghost use Rattle.std.specs.Io.KnownBytes.{WriteAppends};
ghost use Rattle.rs_base.specs.Faults.{CountsFault};

use rs_base::Fault;

/// A stream of bytes to write, with a count of the writes that failed.
pub trait Sink {
    ghost use Rattle.std.specs.Prelude.{List, Option, ℕ};

    // The bytes that were written, if the sink reports them.
    ghost written: { Self → Option (List ℕ) };

    // The number of writes that failed.
    ghost faults: { Self → ℕ };

    /// Writes the first bytes of `from` and returns how many: at least one, unless `from` is empty. A write that failed has
    /// written nothing.
    fn write(&mut self, from: &[u8]) -> Result<usize, Fault>
        ensures within { IfOk result (λ n. n ≤ length from.now) }
        ensures progress { 0 < length from.now → IfOk result (λ n. 0 < n) }
        ensures bytes { WriteAppends (written self.old) (written self.new) result from.now }
        ensures faults { CountsFault result (faults self.old) (faults self.new) };
}
