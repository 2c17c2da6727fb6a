//! The faults of schedules.

ghost use Rattle.std.specs.Prelude.{◌≡◌};
ghost use Rattle.rs_sched.specs.Faults.{text_of};

use rs_base::{NoMemory, ReadFault};
use std::alloc::AllocError;
use thiserror::Error;

/// The cause that makes a line bad.
#[derive(Clone, Copy, Debug, PartialEq, Eq)]
pub enum Why {
    /// The first event's line isn't a valid `sites` line, or there is none.
    NoSites,
    /// Another `sites` line.
    SitesAgain,
    /// The line begins with no event's keyword.
    UnknownWord,
    /// The fields are not those of the keyword.
    BadFields,
    /// The text of an ask isn't UTF-8.
    NotUtf8,
    /// The text of an ask has more than 8,192 bytes, or the bytes are more than 16,777,216.
    TooLong,
}

/// The fault of bytes that aren't read as a schedule.
#[derive(Clone, Copy, Debug, PartialEq, Eq, Error)]
pub enum SchedFault {
    /// The first bad line, from 1, and the first cause that fits it; line 0 if there are too many bytes.
    #[error("a line is no event")]
    BadLine { line: u64, why: Why },
    #[error("out of memory")]
    NoMemory,
}

impl From<AllocError> for SchedFault {
    ghost use Rattle.std.specs.Prelude.{◌≡◌};
    ghost use Rattle.rs_sched.specs.declared.fault.SchedFault.TheVariants as faults;

    ghost from_gives = { λ _ fault. fault ≡ faults.NoMemory };

    fn from(_error: AllocError) -> SchedFault {
        SchedFault::NoMemory
    }
}

impl Why {
    /// Returns the cause in words.
    pub fn text(self) -> &'static [u8]
        ensures { result.now ≡ text_of self }
    {
        match self {
            Why::NoSites => b"no sites line",
            Why::SitesAgain => b"sites again",
            Why::UnknownWord => b"unknown word",
            Why::BadFields => b"bad fields",
            Why::NotUtf8 => b"not UTF-8",
            Why::TooLong => b"too long",
        }
    }
}

/// The fault of a line that isn't read as an event.
#[derive(Clone, Copy, Debug, PartialEq, Eq, Error)]
pub enum LineFault {
    #[error("the line is no event")]
    Bad(Why),
    #[error("out of memory")]
    NoMemory,
}

impl From<ReadFault> for LineFault {
    ghost use Rattle.std.specs.Prelude.{◌≡◌};
    ghost use Rattle.rs_sched.specs.Reading.{of_read};

    ghost from_gives = { λ fault own. own ≡ of_read fault };

    fn from(fault: ReadFault) -> LineFault {
        match fault {
            ReadFault::Malformed => LineFault::Bad(Why::BadFields),
            ReadFault::NoMemory => LineFault::NoMemory,
        }
    }
}

impl From<NoMemory> for LineFault {
    ghost use Rattle.std.specs.Prelude.{◌≡◌};
    ghost use Rattle.rs_sched.specs.declared.fault.LineFault.TheVariants as faults;

    ghost from_gives = { λ _ fault. fault ≡ faults.NoMemory };

    fn from(_error: NoMemory) -> LineFault {
        LineFault::NoMemory
    }
}
