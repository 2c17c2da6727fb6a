//! Files of cases: a line is a call and its wanted answer.

use crate::notation::unescaped;
use crate::output::Output;
use crate::words::Words;
use rs_base::NoMemory;

/// What an answer is appended to.
const BEFORE: &str = "before ";

/// What the calls of a file are made on.
pub trait Cases: Drop {
    /// Makes the call of a line, and appends its answer.
    fn answer(&mut self, call: &mut Words<'_>, out: &mut Output) -> Result<(), NoMemory>;
}

/// Appends what came in place of what a case wants.
fn report(file: &str, number: u64, line: &str, came: &[u8], out: &mut Output) {
    out.text(file);
    out.text(":");
    out.number(number);
    out.text(": ");
    out.text(line);
    out.text(", came \"");
    out.append(came);
    out.text("\"\n");
}

/// Makes the call of a line, and reports an answer that is not the wanted one.
fn check<C: Cases>(
    cases: &mut C,
    file: &str,
    number: u64,
    line: &str,
    out: &mut Output,
) -> Result<(), NoMemory> {
    let (call, wanted) = line.split_once(" -> ").unwrap_or((line, ""));
    let wanted_bytes = unescaped(out.alloc, wanted)?;
    let mut expected = Output::new(out.alloc);
    expected.text(BEFORE);
    expected.append(wanted_bytes.as_slice());
    let mut came = Output::new(out.alloc);
    came.text(BEFORE);
    let mut words = Words::new(call);
    cases.answer(&mut words, &mut came)?;
    came.text(words.note());
    if came.as_slice() != expected.as_slice() {
        report(file, number, line, came.as_slice(), out);
    }
    Ok(())
}

/// Makes the calls of a file's text in order, reports each answer that is not the wanted one, and then the number of calls.
/// Empty lines and lines that begin with `#` are no calls.
pub fn check_cases<C: Cases>(
    cases: &mut C,
    kind: &str,
    file: &str,
    text: &str,
    out: &mut Output,
) -> Result<(), NoMemory> {
    let mut number = 0u64;
    let mut count = 0u64;
    for line in text.lines() {
        number = number.saturating_add(1);
        if !line.is_empty() && !line.starts_with('#') {
            count = count.saturating_add(1);
            check(cases, file, number, line, out)?;
        }
    }
    out.text(kind);
    out.text(" ");
    out.text(file);
    out.text(": ");
    out.number(count);
    out.text(" cases\n");
    Ok(())
}
