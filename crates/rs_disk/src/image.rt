//! What writes, cuts and crashes make of a content.

ghost use Rattle.std.specs.Prelude.{◌≡◌, [], ◌∷◌, if◌then◌else◌, IfOk, OnOk, OnErr};
ghost use Rattle.rs_disk.specs.declared.call.State.{State};
ghost use Rattle.rs_disk.specs.Disk.{put, applied, all_applied, content, in_range, changed, tried};
ghost use Rattle.rs_disk.specs.MemDisk.{kept};

use crate::call::{Call, State};
use rs_base::NoMemory;
use sqlite_items::Items;
use std::alloc::Global;

/// Puts bytes over what is there from an offset on, and past the end; at the end, if the offset is past it. On out of
/// memory nothing changes.
fn put(content: &mut Vec<u8>, at: u64, bytes: &[u8]) -> Result<(), NoMemory>
    ensures ok { OnOk result (content.new.items ≡ put at bytes.now content.old.items) }
    ensures err { OnErr result (content.new.items ≡ content.old.items) }
{
    let at = at.min(content.len() as u64) as usize;
    let inside = bytes.len().min(content.len() - at);
    let (over, past) = bytes.split_at(inside);
    content.extend_from_slice(past)?;
    content[at..at + inside].copy_from_slice(over);
    Ok(())
}

/// Makes a write or a cut. On out of memory nothing changes.
pub(crate) fn apply(content: &mut Vec<u8>, call: &Call) -> Result<(), NoMemory>
    ensures ok { OnOk result (content.new.items ≡ applied call.now content.old.items) }
    ensures err { OnErr result (content.new.items ≡ content.old.items) }
{
    match call {
        Call::Size | Call::Read { .. } | Call::Sync => Ok(()),
        Call::Write { at, bytes } => put(content, *at, bytes.as_slice()),
        Call::Cut { len } => {
            content.truncate((*len).min(content.len() as u64) as usize);
            Ok(())
        }
    }
}

/// Makes the first bytes of a write. On out of memory nothing changes.
fn apply_part(content: &mut Vec<u8>, call: &Call, most: u64) -> Result<(), NoMemory>
    ensures ok { OnOk result (content.new.items
        ≡ all_applied (kept 0 most (call.now ∷ [])) content.old.items) }
{
    match call {
        Call::Size | Call::Read { .. } | Call::Cut { .. } | Call::Sync => Ok(()),
        Call::Write { at, bytes } => {
            let len = most.min(bytes.len() as u64) as usize;
            put(content, *at, &bytes.as_slice()[..len])
        }
    }
}

/// Returns the content after the first of the changes, and the first bytes of the next, if that is a write.
pub(crate) fn crash(
    alloc: Global,
    base: &[u8],
    changes: &[Call],
    writes: u64,
    bytes: u64,
) -> Result<Vec<u8>, NoMemory>
    ensures { IfOk result (λ image. image.items
        ≡ all_applied (kept writes bytes changes.now) base.now) }
{
    let mut image = Vec::from_slice(alloc, base)?;
    let mut left = changes;
    let mut writes = writes;
    while let [call, more @ ..] = left {
        if writes == 0 {
            apply_part(&mut image, call, bytes)?;
            return Ok(image);
        }
        apply(&mut image, call)?;
        writes -= 1;
        left = more;
    }
    Ok(image)
}

/// Tests whether a call is in range of a content of this length.
pub(crate) fn in_range(call: &Call, content: &[u8]) -> bool
    ensures { result ≡ in_range call.now content.now }
{
    let len = content.len() as u64;
    match call {
        Call::Size | Call::Sync => true,
        Call::Read { at, len: n } => *at <= len && *n as u64 <= len - *at,
        Call::Write { at, .. } => *at <= len,
        Call::Cut { len: n } => *n <= len,
    }
}

/// Copies the writes and cuts that aren't synced.
fn copy_calls(alloc: Global, calls: &[Call]) -> Result<Items<Call>, NoMemory>
    ensures { IfOk result (λ copy. copy ≡ calls.now) }
{
    let mut copy = Items::new(alloc);
    for call in calls {
        copy.push(call.copy(alloc)?)?;
    }
    Ok(copy)
}

/// Tests whether a call that fails counts as made: it is a write or a cut in range.
fn counts_as_made(call: &Call, bytes: &[u8]) -> bool
    ensures { (s : State) → bytes.now ≡ content s
        → tried call.now s ≡ (if result then changed call.now s else s) }
{
    match call {
        Call::Size | Call::Read { .. } | Call::Sync => false,
        Call::Write { .. } | Call::Cut { .. } => in_range(call, bytes),
    }
}

/// Returns the writes and cuts that aren't synced after a call that fails, which counts as made if it is a write or a cut
/// in range.
pub(crate) fn tried_changes(
    alloc: Global,
    state: &State,
    bytes: &[u8],
    call: &Call,
) -> Result<Items<Call>, NoMemory>
    requires { bytes.now ≡ content state.now }
    ensures { IfOk result (λ changes. changes ≡ (tried call.now state.now).changes) }
{
    let mut changes = copy_calls(alloc, state.changes.as_slice())?;
    if counts_as_made(call, bytes) {
        changes.push(call.copy(alloc)?)?;
    }
    Ok(changes)
}
