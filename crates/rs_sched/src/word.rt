//! The keywords of events.

ghost use Rattle.std.specs.Prelude.{◌≡◌};
ghost use Rattle.rs_sched.specs.Reader as spec;

/// The keyword of an event, which its line begins with.
#[derive(Clone, Copy)]
pub enum Word {
    Sites,
    Ask,
    Deliver,
    Lose,
    Tick,
    Stop,
    Arm,
    Restart,
    Settle,
    Noise,
}

fn later_word_of(word: &[u8]) -> Option<Word>
    ensures { result ≡ spec.later_word_of word.now }
{
    if word == b"stop".as_slice() {
        Some(Word::Stop)
    } else if word == b"arm".as_slice() {
        Some(Word::Arm)
    } else if word == b"restart".as_slice() {
        Some(Word::Restart)
    } else if word == b"settle".as_slice() {
        Some(Word::Settle)
    } else if word == b"noise".as_slice() {
        Some(Word::Noise)
    } else {
        None
    }
}

/// Returns the keyword with these bytes.
pub fn word_of(word: &[u8]) -> Option<Word>
    ensures { result ≡ spec.word_of word.now }
{
    if word == b"sites".as_slice() {
        Some(Word::Sites)
    } else if word == b"ask".as_slice() {
        Some(Word::Ask)
    } else if word == b"deliver".as_slice() {
        Some(Word::Deliver)
    } else if word == b"lose".as_slice() {
        Some(Word::Lose)
    } else if word == b"tick".as_slice() {
        Some(Word::Tick)
    } else {
        later_word_of(word)
    }
}
