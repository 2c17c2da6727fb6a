//! A disk over a file of the operating system. It reports nothing of the content: what it does to the file is trusted.

ghost use Rattle.std.specs.Prelude.{◌≡◌, length, None, is_err, IfOk, OnOk, MatchResult};
ghost use Rattle.rs_base.specs.Faults.{CountsFault};
ghost use Rattle.rs_disk.specs.declared.call.Call.TheVariants as calls;
ghost use Rattle.rs_disk.specs.Answers.{Answers, IfKnown, StaysSteady};

use crate::disk::Disk;
use rs_base::Fault;
use std::fs::File;
use std::io;
use std::os::unix::fs::FileExt;

/// A disk over a file. Each error of the system is a fault, and no call takes memory. The count of faults stays at
/// `u64::MAX` once it reaches it.
#[derive(Drop)]
pub struct FileDisk {
    file: File,
    faults: u64,
}

fn reaches(file: &File, at: u64) -> io::Result<()> {
    if file.metadata()?.len() < at {
        return Err(io::ErrorKind::InvalidInput.into());
    }
    Ok(())
}

fn write(file: &File, at: u64, from: &[u8]) -> io::Result<()> {
    reaches(file, at)?;
    file.write_all_at(from, at)
}

fn cut(file: &File, len: u64) -> io::Result<()> {
    reaches(file, len)?;
    file.set_len(len)
}

impl FileDisk {
    pub fn new(file: File) -> FileDisk
        ensures { result.faults ≡ 0 }
    {
        FileDisk { file, faults: 0 }
    }

    /// Counts an error as a fault.
    fn count<T>(&mut self, answer: io::Result<T>) -> Result<T, Fault>
        ensures { CountsFault result self.old.faults self.new.faults }
    {
        match answer {
            Ok(value) => Ok(value),
            Err(_) => {
                self.faults = self.faults.saturating_add(1);
                Err(Fault::Failed)
            }
        }
    }
}

impl Disk for FileDisk {
    ghost course = { λ _. None };

    ghost faults = { λ it. it.faults };

    ghost Steady = { λ _. ⊥ };

    fn size(&mut self) -> Result<u64, Fault> {
        let answer = self.file.metadata();
        let metadata = self.count(answer)?;
        Ok(metadata.len())
    }

    fn read_at(&mut self, at: u64, into: &mut [u8]) -> Result<(), Fault> {
        let answer = self.file.read_exact_at(into, at);
        self.count(answer)
    }

    fn write_at(&mut self, at: u64, from: &[u8]) -> Result<(), Fault> {
        let answer = write(&self.file, at, from);
        self.count(answer)
    }

    fn cut(&mut self, len: u64) -> Result<(), Fault> {
        let answer = cut(&self.file, len);
        self.count(answer)
    }

    fn sync(&mut self) -> Result<(), Fault> {
        let answer = self.file.sync_data();
        self.count(answer)
    }
}
