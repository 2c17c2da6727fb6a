//! A disk in memory, which can be crashed, and made to crash at a later call.

ghost use Rattle.std.specs.Prelude.{◌≡◌, ◌≤◌, ◌+◌, length, take, drop, Some, None, IfOk, IfSome, IfNone, OnOk, OnErr, IsTrue, IsFalse};
ghost use Rattle.rs_base.specs.Faults.{CountsFault};
ghost use Rattle.rs_disk.specs.declared.call.Call.TheVariants as calls;
ghost use Rattle.rs_disk.specs.Answers.{Answers, IfKnown, StaysSteady};
ghost use Rattle.rs_disk.specs.Disk.{content_of, in_range, state_of, IsPlain, IsChange};
ghost use Rattle.rs_disk.specs.Images.{IsInRange};
ghost use Rattle.rs_disk.specs.MemDisk.{empty, raised, nearer, stopped, is_due, failed, performed, refused, IsCalled};

use crate::call::{Act, Arm, Call, State};
use crate::disk::Disk;
use crate::image::{apply, crash, in_range, tried_changes};
use rs_base::{Bytes, Fault, NoMemory};
use sqlite_items::Items;
use std::alloc::Global;
use std::marker::Model;

/// A disk in memory. It keeps a record of all its calls, with the bytes that were written. A sync is linear in the
/// content, and so is a write. The count of faults stays at `u64::MAX` once it reaches it.
#[derive(Drop)]
pub struct MemDisk {
    alloc: Global,
    content: Vec<u8>,
    state: State,
    acts: Items<Act>,
    arm: Option<Arm>,
    faults: u64,
}

impl Model for MemDisk {
    ghost use Rattle.rs_disk.specs.MemDisk.{MemDisk};

    ghost Value = { MemDisk };

    ghost use Rattle.std.specs.Prelude.{◌≡◌};
    ghost use Rattle.rs_disk.specs.MemDiskInside.{IsKept};

    ghost view = { λ it. record { acts = it.acts; arm = it.arm; faults = it.faults } };

    ghost invariant = { IsKept };
}

impl MemDisk {
    /// Returns an empty disk.
    pub fn new(alloc: Global) -> MemDisk
        ensures { result ≡ empty }
    {
        MemDisk {
            alloc,
            content: Vec::new(alloc),
            state: State {
                base: Bytes::new(alloc),
                changes: Items::new(alloc),
            },
            acts: Items::new(alloc),
            arm: None,
            faults: 0,
        }
    }

    /// Returns what a read of the whole disk gives.
    pub fn content(&self) -> &[u8]
        ensures { result.now ≡ content_of self.now.acts }
    {
        self.content.as_slice()
    }

    /// Crashes. Of the writes and cuts since the last sync the first `writes` are kept, and the first `bytes` bytes of the
    /// next, if that is a write. What is there then counts as synced. On out of memory nothing changes.
    pub fn crash(&mut self, writes: u64, bytes: u64) -> Result<(), NoMemory>
        ensures ok { OnOk result (self.new ≡ stopped writes bytes self.old) }
        ensures err { OnErr result (self.new ≡ self.old) }
    {
        let changes = self.state.changes.as_slice();
        let image = crash(
            self.alloc,
            self.state.base.as_slice(),
            changes,
            writes,
            bytes,
        )?;
        let left = State::settled(self.alloc, &image)?;
        let state = State::settled(self.alloc, &image)?;
        self.acts.push(Act::Stopped(left))?;
        self.content = image;
        self.state = state;
        Ok(())
    }

    /// Makes the `calls`-th call from now fail. A write or cut in range counts as made there, and any other call as not
    /// made; then the disk crashes as by `crash(writes, bytes)`. It replaces an earlier one that isn't met.
    pub fn arm(&mut self, calls: u64, writes: u64, bytes: u64)
        requires { 1 ≤ calls }
        ensures { self.new ≡ record self.old {
          arm = Some (record { calls = calls; writes = writes; bytes = bytes });
        } }
    {
        self.arm = Some(Arm {
            calls,
            writes,
            bytes,
        });
    }

    /// Counts one call less until the one that will fail.
    fn count_down(&mut self)
        ensures { self.new ≡ record self.old { arm = nearer self.old.arm } }
    {
        if let Some(arm) = &mut self.arm {
            arm.calls = arm.calls.saturating_sub(1);
        }
    }

    /// Counts a fault.
    fn count_fault(&mut self)
        ensures { self.new ≡ record self.old { faults = raised self.old.faults } }
    {
        self.faults = self.faults.saturating_add(1);
    }

    /// Fails the call by a crash. On out of memory nothing changes.
    fn fail(&mut self, call: Call, arm: Arm) -> Result<(), NoMemory>
        requires { self.old.arm ≡ Some arm }
        ensures ok { OnOk result (self.new ≡ failed call self.old) }
        ensures err { OnErr result (self.new ≡ self.old) }
    {
        let changes = tried_changes(self.alloc, &self.state, &self.content, &call)?;
        let base = self.state.base.as_slice();
        let image = crash(self.alloc, base, changes.as_slice(), arm.writes, arm.bytes)?;
        let left = State::settled(self.alloc, &image)?;
        let state = State::settled(self.alloc, &image)?;
        self.acts.push(Act::Failed(call, left))?;
        self.content = image;
        self.state = state;
        self.arm = None;
        self.count_fault();
        Ok(())
    }

    /// Fails a call that is out of range. On out of memory nothing changes.
    fn refuse(&mut self, call: Call) -> Result<(), NoMemory>
        ensures ok { OnOk result (self.new ≡ refused call self.old) }
        ensures err { OnErr result (self.new ≡ self.old) }
    {
        self.acts.push(Act::Refused(call))?;
        self.count_down();
        self.count_fault();
        Ok(())
    }

    /// Does a sync. On out of memory nothing changes.
    fn settle(&mut self) -> Result<(), NoMemory>
        ensures ok { OnOk result (self.new ≡ performed calls.Sync self.old) }
        ensures err { OnErr result (self.new ≡ self.old) }
    {
        let state = State::settled(self.alloc, &self.content)?;
        self.acts.push(Act::Done(Call::Sync))?;
        self.state = state;
        self.count_down();
        Ok(())
    }

    /// Does a size or a read, which change nothing. On out of memory nothing changes.
    fn note(&mut self, call: Call) -> Result<(), NoMemory>
        requires { IsPlain call }
        ensures ok { OnOk result (self.new ≡ performed call self.old) }
        ensures err { OnErr result (self.new ≡ self.old) }
    {
        self.acts.push(Act::Done(call))?;
        self.count_down();
        Ok(())
    }

    /// Does a write or a cut. On out of memory nothing changes.
    fn change(&mut self, call: Call) -> Result<(), NoMemory>
        requires change { IsChange call }
        requires within { IsTrue (in_range call (content_of self.old.acts)) }
        ensures ok { OnOk result (self.new ≡ performed call self.old) }
        ensures err { OnErr result (self.new ≡ self.old) }
    {
        let mut content = Vec::from_slice(self.alloc, &self.content)?;
        apply(&mut content, &call)?;
        let kept = call.copy(self.alloc)?;
        self.state.changes.push(kept)?;
        if let Err(error) = self.acts.push(Act::Done(call)) {
            self.state.changes.pop();
            return Err(error.into());
        }
        self.content = content;
        self.count_down();
        Ok(())
    }

    /// Does a call that is in range. On out of memory nothing changes.
    fn perform(&mut self, call: Call) -> Result<(), NoMemory>
        requires { IsTrue (in_range call (content_of self.old.acts)) }
        ensures ok { OnOk result (self.new ≡ performed call self.old) }
        ensures err { OnErr result (self.new ≡ self.old) }
    {
        match call {
            Call::Size | Call::Read { .. } => self.note(call),
            Call::Write { .. } | Call::Cut { .. } => self.change(call),
            Call::Sync => self.settle(),
        }
    }

    /// Returns the arm, if the next call is the one that will fail.
    fn due(&self) -> Option<Arm>
        ensures due { IfSome result (λ arm. (self.now.arm ≡ Some arm) × IsTrue (is_due self.now.arm)) }
        ensures none { IfNone result (IsFalse (is_due self.now.arm)) }
    {
        match self.arm {
            Some(arm) if arm.calls <= 1 => Some(arm),
            _ => None,
        }
    }

    /// Copies the content from an offset on.
    fn copy_to(&self, at: u64, into: &mut [u8])
        requires { at + length into.old ≤ length (content_of self.now.acts) }
        ensures { into.new ≡ take (length into.old) (drop at (content_of self.now.acts)) }
    {
        let at = at as usize;
        into.copy_from_slice(&self.content[at..at + into.len()]);
    }

    /// Answers a call. On out of memory nothing changes.
    fn call(&mut self, call: Call) -> Result<(), Fault>
        ensures called { IsCalled result call self.old self.new }
        ensures state { IsInRange (state_of self.old.acts) }
    {
        if let Some(arm) = self.due() {
            self.fail(call, arm)?;
            return Err(Fault::Failed);
        }
        if !in_range(&call, &self.content) {
            self.refuse(call)?;
            return Err(Fault::Failed);
        }
        Ok(self.perform(call)?)
    }
}

impl Disk for MemDisk {
    ghost use Rattle.std.specs.Prelude.{Some, None, ◌≡◌};

    ghost course = { λ it. Some it.acts };

    ghost faults = { λ it. it.faults };

    ghost Steady = { λ it. it.arm ≡ None };

    fn size(&mut self) -> Result<u64, Fault>
        ensures call { Answers result calls.Size (Some self.old.acts) (Some self.new.acts) }
        ensures size { IfOk result (λ n. IfKnown (Some self.old.acts) (λ content. n ≡ length content)) }
        ensures faults { CountsFault result self.old.faults self.new.faults }
        ensures steady { StaysSteady result calls.Size (Some self.old.acts)
            (self.old.arm ≡ None) (self.new.arm ≡ None) }
        ensures called { IsCalled result calls.Size self.old self.new }
    {
        if let Err(fault) = self.call(Call::Size) {
            return Err(fault);
        }
        Ok(self.content().len() as u64)
    }

    fn read_at(&mut self, at: u64, into: &mut [u8]) -> Result<(), Fault>
        ensures call { Answers result (calls.Read at (length into.old)) (Some self.old.acts) (Some self.new.acts) }
        ensures bytes { OnOk result (IfKnown (Some self.old.acts)
            (λ content. into.new ≡ take (length into.old) (drop at content))) }
        ensures faults { CountsFault result self.old.faults self.new.faults }
        ensures steady { StaysSteady result (calls.Read at (length into.old)) (Some self.old.acts)
            (self.old.arm ≡ None) (self.new.arm ≡ None) }
        ensures called { IsCalled result (calls.Read at (length into.old)) self.old self.new }
    {
        let call = Call::Read {
            at,
            len: into.len(),
        };
        match self.call(call) {
            Ok(()) => {
                self.copy_to(at, into);
                Ok(())
            }
            Err(fault) => Err(fault),
        }
    }

    fn write_at(&mut self, at: u64, from: &[u8]) -> Result<(), Fault>
        ensures call { Answers result (calls.Write at from.now) (Some self.old.acts) (Some self.new.acts) }
        ensures faults { CountsFault result self.old.faults self.new.faults }
        ensures steady { StaysSteady result (calls.Write at from.now) (Some self.old.acts)
            (self.old.arm ≡ None) (self.new.arm ≡ None) }
        ensures called { IsCalled result (calls.Write at from.now) self.old self.new }
    {
        let bytes = Bytes::from_slice(self.alloc, from)?;
        self.call(Call::Write { at, bytes })
    }

    fn cut(&mut self, len: u64) -> Result<(), Fault>
        ensures call { Answers result (calls.Cut len) (Some self.old.acts) (Some self.new.acts) }
        ensures faults { CountsFault result self.old.faults self.new.faults }
        ensures steady { StaysSteady result (calls.Cut len) (Some self.old.acts)
            (self.old.arm ≡ None) (self.new.arm ≡ None) }
        ensures called { IsCalled result (calls.Cut len) self.old self.new }
    {
        self.call(Call::Cut { len })
    }

    fn sync(&mut self) -> Result<(), Fault>
        ensures call { Answers result calls.Sync (Some self.old.acts) (Some self.new.acts) }
        ensures faults { CountsFault result self.old.faults self.new.faults }
        ensures steady { StaysSteady result calls.Sync (Some self.old.acts)
            (self.old.arm ≡ None) (self.new.arm ≡ None) }
        ensures called { IsCalled result calls.Sync self.old self.new }
    {
        self.call(Call::Sync)
    }
}
