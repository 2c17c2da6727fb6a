//! Where bytes come from.

ghost use Rattle.std.specs.Prelude.{◌≤◌, length, IfOk};
ghost use Rattle.std.specs.Io.KnownBytes.{ReadConsumes};
ghost use Rattle.rs_base.specs.Faults.{CountsFailed};

use rs_base::Failed;

/// A stream of bytes to read, with a count of the reads that failed.
pub trait Source {
    ghost use Rattle.std.specs.Prelude.{List, Option, ℕ};

    // The bytes that are left, if the source reports them.
    ghost left: { Self → Option (List ℕ) };

    // The number of reads that failed.
    ghost faults: { Self → ℕ };

    /// Reads into the first bytes of `into` and returns how many. `Ok(0)` for a buffer that isn't empty is the end of the
    /// input. A read that failed has read nothing.
    fn read(&mut self, into: &mut [u8]) -> Result<usize, Failed>
        ensures within { IfOk result (λ n. n ≤ length into.old) }
        ensures bytes { ReadConsumes (left self.old) (left self.new) result into.new }
        ensures faults { CountsFailed result (faults self.old) (faults self.new) };
}
