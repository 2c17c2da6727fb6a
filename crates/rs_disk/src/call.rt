//! The calls of a disk, and the record that is kept of them.

ghost use Rattle.std.specs.Prelude.{◌≡◌, [], ◌∷◌, IfOk};
ghost use Rattle.rs_disk.specs.Disk.{settled};

use rs_base::{Bytes, NoMemory};
use sqlite_items::Items;
use std::alloc::Global;

/// A call of a disk. Offsets and lengths are in bytes.
#[derive(Drop)]
pub enum Call {
    /// Asks for the length of the content.
    Size,
    /// Reads `len` bytes from the offset `at` on.
    Read { at: u64, len: usize },
    /// Writes bytes at the offset `at`, over what is there and past its end.
    Write { at: u64, bytes: Bytes },
    /// Keeps the first `len` bytes.
    Cut { len: u64 },
    /// Makes what was written safe from a stop.
    Sync,
}

/// What is on a disk: the content at the last sync, and the writes and cuts since then, in order.
#[derive(Drop)]
pub struct State {
    pub base: Bytes,
    pub changes: Items<Call>,
}

/// What happened to a disk.
#[derive(Drop)]
pub enum Act {
    /// A call was done.
    Done(Call),
    /// A call out of range failed, and changed nothing.
    Refused(Call),
    /// A call failed, and left this.
    Failed(Call, State),
    /// The disk stopped between two calls, and left this.
    Stopped(State),
}

/// The call that will fail: the `calls`-th from now. Of the writes and cuts since the last sync, that call included, the
/// first `writes` are kept, and the first `bytes` bytes of the next.
#[derive(Clone, Copy)]
pub struct Arm {
    pub calls: u64,
    pub writes: u64,
    pub bytes: u64,
}

impl Call {
    pub fn copy(&self, alloc: Global) -> Result<Call, NoMemory>
        ensures { IfOk result (λ copy. copy ≡ self.now) }
    {
        Ok(match self {
            Call::Size => Call::Size,
            Call::Read { at, len } => Call::Read { at: *at, len: *len },
            Call::Write { at, bytes } => Call::Write {
                at: *at,
                bytes: bytes.copy(alloc)?,
            },
            Call::Cut { len } => Call::Cut { len: *len },
            Call::Sync => Call::Sync,
        })
    }
}

impl State {
    /// Returns the state of a disk that has this content, all of it synced.
    pub fn settled(alloc: Global, content: &[u8]) -> Result<State, NoMemory>
        ensures { IfOk result (λ state. state ≡ settled content.now) }
    {
        Ok(State {
            base: Bytes::from_slice(alloc, content)?,
            changes: Items::new(alloc),
        })
    }
}
