//! A log over a disk.

ghost use Rattle.std.specs.Prelude.{◌≡◌, ◌+◌, ◌<◌, ◌≤◌, ◌^◌, [], ◌∷◌, ◌++◌, length, IfOk, OnOk, OnErr};
ghost use Rattle.rs_base.specs.Faults.{CountsFault};
ghost use Rattle.rs_log.specs.Format.{batch_bytes, items_bytes};
ghost use Rattle.rs_log.specs.Calls.{batch_calls, force_calls};
ghost use Rattle.rs_log.specs.Runs.{Runs, StaysSteadyBy};
ghost use Rattle.rs_log.specs.Gated.{MayBeUsed, Gains, KeepsAlways, IsSteadyForce};

use crate::batch::encode_batch;
use rs_base::{Bytes, Fault, NoMemory};
use rs_disk::Disk;
use sqlite_items::Items;
use std::alloc::Global;

/// A log over a disk: its stable items are on the disk, and its tail in memory.
#[derive(Drop)]
pub struct GatedLog<D: Disk> {
    alloc: Global,
    disk: D,
    gate: u64,
    tail: Items<Bytes>,
}

/// Returns the offset of the last gate after a batch is written. Fails if a file can't be that long.
fn next_gate(gate: u64, batch: usize) -> Result<u64, NoMemory>
    ensures gate { IfOk result (λ next. next ≡ gate + batch) }
    ensures fits { IfOk result (λ next. next < 2 ^ 64) }
{
    gate.checked_add(batch as u64).ok_or(NoMemory)
}

/// Writes a batch after the closed gate at this offset and opens the gate, and syncs after each.
fn write_batch<D: Disk>(disk: &mut D, gate: u64, batch: &[u8]) -> Result<(), Fault>
    requires { gate + 1 < 2 ^ 64 }
    ensures calls { Runs result (batch_calls gate batch.now) (D.course disk.old) (D.course disk.new) }
    ensures faults { CountsFault result (D.faults disk.old) (D.faults disk.new) }
    ensures steady { StaysSteadyBy result (batch_calls gate batch.now) (D.course disk.old)
        (D.Steady disk.old) (D.Steady disk.new) }
{
    disk.write_at(gate + 1, batch)?;
    disk.sync()?;
    disk.write_at(gate, &[1])?;
    disk.sync()
}

impl<D: Disk> GatedLog<D> {
    /// Adds an item to the tail. It makes no device call. On out of memory nothing changes. Linear in the item's length.
    pub fn append(&mut self, item: &[u8]) -> Result<(), NoMemory>
        ensures ok { OnOk result (self.new.tail ≡ self.old.tail ++ item.now ∷ []) }
        ensures err { OnErr result (self.new.tail ≡ self.old.tail) }
        ensures disk { self.new.disk ≡ self.old.disk }
        ensures gate { self.new.gate ≡ self.old.gate }
    {
        let item = Bytes::from_slice(self.alloc, item)?;
        self.tail.push(item)?;
        Ok(())
    }

    /// Makes the tail stable. It makes four device calls, or none if the tail is empty: it writes the tail after the last
    /// gate, with a closed gate after it, syncs, opens the last gate, and syncs. After an `Err` the log is opened again
    /// before it is used. Over a steady disk it never fails but for want of memory. Linear in the tail.
    pub fn force(&mut self) -> Result<(), Fault>
        requires { MayBeUsed (D.course self.old.disk) self.old.gate }
        ensures calls { Runs result (force_calls self.old.gate self.old.tail)
            (D.course self.old.disk) (D.course self.new.disk) }
        ensures faults { CountsFault result (D.faults self.old.disk) (D.faults self.new.disk) }
        ensures tail { OnOk result (self.new.tail ≡ []) }
        ensures steady { IsSteadyForce result (D.course self.old.disk)
            (D.Steady self.old.disk) (D.Steady self.new.disk) }
        ensures stable { OnOk result (Gains self.old.tail (D.course self.old.disk)
            (D.course self.new.disk) self.old.gate self.new.gate) }
        ensures stop { KeepsAlways self.old.tail (D.course self.old.disk)
            (D.course self.new.disk) self.old.gate }
    {
        if self.tail.is_empty() {
            return Ok(());
        }
        let batch = encode_batch(self.alloc, self.tail.as_slice())?;
        let gate = next_gate(self.gate, batch.len())?;
        write_batch(&mut self.disk, self.gate, batch.as_slice())?;
        self.gate = gate;
        self.tail = Items::new(self.alloc);
        Ok(())
    }
}
