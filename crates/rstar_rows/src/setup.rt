//! How a case is run, and the status that it ends with.
//!
//! The first line of a report may say it, after `\!`: the status, the read and the write that fail, by their numbers from 1
//! (0: none), and the words of the command line in single quotes, as in `\!3 1 0 'replay'`. Without the line it is
//! `0 0 0 'replay'`.

use case_tools::Words;
use rs_base::ReadFault;
use std::alloc::{AllocError, Global};
use std::str;

/// How a case is run, and the status that it ends with.
#[derive(Drop)]
pub struct Setup {
    pub status: u8,
    /// The number of the read that fails.
    pub read: u64,
    /// The number of the write that fails.
    pub write: u64,
    /// The words of the command line.
    pub words: Vec<String>,
}

/// Reads words that are in single quotes.
fn quoted_words(alloc: Global, text: &str) -> Result<Vec<String>, AllocError> {
    let mut words = Vec::new(alloc);
    for word in text.split('\'').skip(1).step_by(2) {
        words.push(String::from_str(alloc, word)?)?;
    }
    Ok(words)
}

/// Reads the line of the setup.
pub fn read_setup(alloc: Global, line: &[u8]) -> Result<Setup, ReadFault> {
    let mut words = Words::new(str::from_utf8(line).unwrap_or(""));
    let setup = Setup {
        status: words.byte(),
        read: words.number(),
        write: words.number(),
        words: quoted_words(alloc, words.rest())?,
    };
    if words.is_refused() {
        return Err(ReadFault::Malformed);
    }
    Ok(setup)
}
