//! The program's work, from its words, source and sink to its status.

ghost use Rattle.std.specs.Prelude.{◌≡◌, ◌≢◌, ◌≤◌, ◌⊎◌, codes, IfOk, IfErr, IsErrOf, IsTrue, ◌↔◌};
ghost use Rattle.std.specs.Io.KnownBytes.{Appends, IsAtEnd, Keeps};
ghost use Rattle.rs_base.specs.Faults.{Rises, CountsFault};
ghost use Rattle.rs_stream.specs.Streams.{ConsumesAtMost};
ghost use Rattle.rs_run.specs.Refusal.{refusal_text};
ghost use Rattle.rs_run.specs.Run as spec;

use crate::replay::report_text;
use crate::source::{Refusal, SourceFault};
use rs_base::{Bytes, Fault, NoMemory, print_number};
use rs_stream::{Sink, Source, read_to_end, write_whole};
use std::alloc::Global;

/// The largest number of bytes read: one more than a source has.
const MOST_READ: usize = 16_777_217;

/// The kind of text that a run writes.
#[derive(Clone, Copy)]
pub enum Finding {
    /// The report of its source.
    Reported,
    /// The usage, since the words are no command.
    Usage,
    /// The line at which the source is refused, and why.
    Refused,
}

/// What a run has to write.
#[derive(Drop)]
pub struct Owed {
    pub finding: Finding,
    pub text: Bytes,
}

impl Finding {
    fn status(self) -> u8
        ensures { result ≡ spec.status_of self }
    {
        match self {
            Finding::Reported => 0,
            Finding::Usage => 1,
            Finding::Refused => 2,
        }
    }
}

fn is_replay(words: &[String]) -> bool
    ensures { IsTrue result ↔ spec.IsReplay words.now }
{
    match words {
        [word] => word.as_str() == "replay",
        _ => false,
    }
}

/// Returns the text of a refusal.
fn refusal_text(alloc: Global, refusal: &Refusal) -> Result<Bytes, NoMemory>
    ensures { IfOk result (λ text. text ≡ refusal_text refusal.now.line refusal.now.cause) }
{
    let mut text = Bytes::from_slice(alloc, b"line ")?;
    print_number(alloc, refusal.line, &mut text)?;
    text.extend(b" ")?;
    text.extend(refusal.cause.text())?;
    text.extend(b"\n")?;
    Ok(text)
}

fn find_in(alloc: Global, bytes: Bytes) -> Result<Owed, Fault>
    ensures found { IfOk result (λ owed. spec.FoundIn bytes owed.finding owed.text) }
    ensures memory { IfErr result (λ fault. fault ≡ Fault.NoMemory) }
{
    match report_text(alloc, bytes) {
        Ok(text) => Ok(Owed {
            finding: Finding::Reported,
            text,
        }),
        Err(SourceFault::Refused(refusal)) => Ok(Owed {
            finding: Finding::Refused,
            text: refusal_text(alloc, &refusal)?,
        }),
        Err(SourceFault::NoMemory) => Err(Fault::NoMemory),
    }
}

fn find_owed<S: Source>(alloc: Global, words: &[String], source: &mut S) -> Result<Owed, Fault>
    ensures found { IfOk result (λ owed. spec.Finds words.now (S.left source.old) (S.left source.new) owed.finding owed.text) }
    ensures replay { IsErrOf result Fault.Failed → spec.IsReplay words.now }
    ensures faults { CountsFault result (S.faults source.old) (S.faults source.new) }
    ensures reads { ConsumesAtMost spec.most_read (S.left source.old) (S.left source.new) }
    ensures unread { (spec.IsReplay words.now → ⊥) → S.left source.new ≡ S.left source.old }
{
    if !is_replay(words) {
        return Ok(Owed {
            finding: Finding::Usage,
            text: Bytes::from_slice(alloc, b"usage\n")?,
        });
    }
    let bytes = read_to_end(alloc, source, MOST_READ)?;
    find_in(alloc, bytes)
}

/// Runs the program with these words, and returns its status:
///
/// - 0: the source was read to its end, and the report of its events was written;
/// - 1: the words are not the one word `replay`; `usage` was written, and the source wasn't read;
/// - 2: the bytes read, to the end of the source or one byte more than a source has, are no source; the line at which
///   they are refused was written, and the cause;
/// - 3: the source failed, and nothing was written;
/// - 4: the sink failed;
/// - 5: out of memory.
///
/// With 4 and 5 a prefix of the text that was to be written may have been written.
pub fn run<S: Source, K: Sink>(alloc: Global, words: &[String], source: &mut S, sink: &mut K) -> u8
    ensures done { result ≡ 0 → spec.IsReplay words.now × IsAtEnd (S.left source.new)
        × spec.WritesReport (S.left source.old) (K.written sink.old) (K.written sink.new) }
    ensures usage { result ≡ 1 → (spec.IsReplay words.now → ⊥)
        × Appends (K.written sink.old) (K.written sink.new) (codes "usage\n") }
    ensures no_source { result ≡ 2 → spec.IsReplay words.now
        × spec.IsReadOut (S.left source.old) (S.left source.new)
        × spec.WritesRefusal (S.left source.old) (K.written sink.old) (K.written sink.new) }
    ensures source { result ≡ 3 → Rises (S.faults source.old) (S.faults source.new)
        × Keeps (K.written sink.old) (K.written sink.new) }
    ensures sink { result ≡ 4 → Rises (K.faults sink.old) (K.faults sink.new)
        × spec.WritesPrefix words.now (S.left source.old) (K.written sink.old) (K.written sink.new) }
    ensures memory { result ≡ 5
        → spec.WritesPrefix words.now (S.left source.old) (K.written sink.old) (K.written sink.new) }
    ensures others { result ≤ 5 }

    // Which status comes if no device fails.
    ensures other_words { (spec.IsReplay words.now → ⊥) → (result ≡ 1) ⊎ ((result ≡ 4) ⊎ (result ≡ 5)) }
    ensures complete { spec.IsReplay words.now → spec.HoldsSource (S.left source.old)
        → (Rises (S.faults source.old) (S.faults source.new) → ⊥)
        → (Rises (K.faults sink.old) (K.faults sink.new) → ⊥)
        → (result ≡ 0) ⊎ (result ≡ 5) }
    ensures refused { spec.IsReplay words.now → spec.HoldsNoSource (S.left source.old)
        → (Rises (S.faults source.old) (S.faults source.new) → ⊥)
        → (Rises (K.faults sink.old) (K.faults sink.new) → ⊥)
        → (result ≡ 2) ⊎ (result ≡ 5) }

    ensures reads { ConsumesAtMost spec.most_read (S.left source.old) (S.left source.new) }
    ensures unread { (spec.IsReplay words.now → ⊥) → S.left source.new ≡ S.left source.old }
    ensures source_faults { result ≢ 3 → S.faults source.new ≡ S.faults source.old }
    ensures sink_faults { result ≢ 4 → K.faults sink.new ≡ K.faults sink.old }
{
    let owed = match find_owed(alloc, words, source) {
        Ok(owed) => owed,
        Err(Fault::Failed) => return 3,
        Err(Fault::NoMemory) => return 5,
    };
    match write_whole(sink, owed.text.as_slice()) {
        Ok(()) => owed.finding.status(),
        Err(Fault::Failed) => 4,
        Err(Fault::NoMemory) => 5,
    }
}
