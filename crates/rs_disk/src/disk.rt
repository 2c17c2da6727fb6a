//! A disk: what its calls answer, and what happens to it.

ghost use Rattle.std.specs.Prelude.{◌≡◌, length, take, drop, IfOk, OnOk};
ghost use Rattle.rs_base.specs.Faults.{CountsFault};
ghost use Rattle.rs_disk.specs.declared.call.Call.TheVariants as calls;
ghost use Rattle.rs_disk.specs.Answers.{Answers, IfKnown, StaysSteady};

use rs_base::Fault;

/// A disk of one file. Offsets and lengths are in bytes. A read past the end, a write that starts past it and a cut beyond
/// it fail. Until a sync a stop may lose or tear what was written: specs/Images.antt says what it may leave. On out of
/// memory nothing changes.
pub trait Disk {
    ghost use Rattle.std.specs.Prelude.{ℕ};
    ghost use Rattle.rs_disk.specs.Answers.{Course};

    // All that happened to the disk, if it reports it. It says what a read gives, what a stop may leave, now or since an
    // earlier state, and which calls were made.
    ghost course: { Self → Course };

    // The number of calls that failed.
    ghost faults: { Self → ℕ };

    // It promises that each call in range succeeds, or runs out of memory.
    ghost Steady: { Self → Type 0 };

    /// Returns the length of the content.
    fn size(&mut self) -> Result<u64, Fault>
        ensures call { Answers result calls.Size (course self.old) (course self.new) }
        ensures size { IfOk result (λ n. IfKnown (course self.old) (λ content. n ≡ length content)) }
        ensures faults { CountsFault result (faults self.old) (faults self.new) }
        ensures steady { StaysSteady result calls.Size (course self.old)
            (Steady self.old) (Steady self.new) };

    /// Reads as many bytes as `into` has, from the offset `at` on.
    fn read_at(&mut self, at: u64, into: &mut [u8]) -> Result<(), Fault>
        ensures call { Answers result (calls.Read at (length into.old))
            (course self.old) (course self.new) }
        ensures bytes { OnOk result (IfKnown (course self.old)
            (λ content. into.new ≡ take (length into.old) (drop at content))) }
        ensures faults { CountsFault result (faults self.old) (faults self.new) }
        ensures steady { StaysSteady result (calls.Read at (length into.old)) (course self.old)
            (Steady self.old) (Steady self.new) };

    /// Writes the bytes at the offset `at`, over what is there and past its end.
    fn write_at(&mut self, at: u64, from: &[u8]) -> Result<(), Fault>
        ensures call { Answers result (calls.Write at from.now) (course self.old) (course self.new) }
        ensures faults { CountsFault result (faults self.old) (faults self.new) }
        ensures steady { StaysSteady result (calls.Write at from.now) (course self.old)
            (Steady self.old) (Steady self.new) };

    /// Keeps the first `len` bytes.
    fn cut(&mut self, len: u64) -> Result<(), Fault>
        ensures call { Answers result (calls.Cut len) (course self.old) (course self.new) }
        ensures faults { CountsFault result (faults self.old) (faults self.new) }
        ensures steady { StaysSteady result (calls.Cut len) (course self.old)
            (Steady self.old) (Steady self.new) };

    /// Makes the content safe from a stop.
    fn sync(&mut self) -> Result<(), Fault>
        ensures call { Answers result calls.Sync (course self.old) (course self.new) }
        ensures faults { CountsFault result (faults self.old) (faults self.new) }
        ensures steady { StaysSteady result calls.Sync (course self.old)
            (Steady self.old) (Steady self.new) };
}
