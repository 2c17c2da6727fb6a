//! Splitting of a text into lines.

ghost use Rattle.std.specs.Prelude.{◌≡◌, ◌≤◌, length, take, drop};
ghost use Rattle.std.specs.List.{prefix_len};
ghost use Rattle.rs_sched.specs.Lines as spec;

use std::marker::Model;

/// A cursor over the lines of a text: the bytes that are still to be split.
#[derive(Drop)]
pub struct Lines<'a> {
    left: &'a [u8],
}

impl<'a> Model for Lines<'a> {
    ghost use Rattle.std.specs.Prelude.{List, ℕ};

    ghost Value = { List ℕ };

    ghost view = { λ lines. lines.left.now };
}

fn line_len(bytes: &[u8]) -> usize
    ensures value { result ≡ prefix_len spec.is_before_feed bytes.now }
    ensures within { result ≤ length bytes.now }
{
    bytes.iter().take_while(|byte| **byte != b'\n').count()
}

fn after_feed(rest: &[u8]) -> &[u8]
    ensures { result.now ≡ drop 1 rest.now }
{
    match rest {
        [] => rest,
        [_, suffix @ ..] => suffix,
    }
}

impl<'a> Lines<'a> {
    pub fn new(bytes: &'a [u8]) -> Lines<'a>
        ensures { result ≡ bytes.now }
    {
        Lines { left: bytes }
    }

    pub fn len(&self) -> usize
        ensures { result ≡ length self.now }
    {
        self.left.len()
    }

    /// Returns the next line, with the carriage returns at its end, or an empty line at the end of the text.
    pub fn next(&mut self) -> &'a [u8]
        ensures line { result.now ≡ take (prefix_len spec.is_before_feed self.old) self.old }
        ensures rest { self.new ≡ drop 1 (drop (prefix_len spec.is_before_feed self.old) self.old) }
    {
        let (line, rest) = self.left.split_at(line_len(self.left));
        self.left = after_feed(rest);
        line
    }
}

/// Returns the line without the carriage returns at its end.
pub fn without_returns(line: &[u8]) -> &[u8]
    ensures { result.now ≡ spec.without_returns line.now }
{
    let mut left = line;
    while let [prefix @ .., last] = left {
        if *last != b'\r' {
            return left;
        }
        left = prefix;
    }
    left
}

/// Returns whether the line is no event's: it is empty, or begins with `#`.
pub fn is_comment(line: &[u8]) -> bool
    ensures { result ≡ spec.is_comment line.now }
{
    match line {
        [] => true,
        [first, ..] => *first == b'#',
    }
}
