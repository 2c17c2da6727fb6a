//! Texts of requests: where they are at fault, where they can be cut, and how they are printed.

use case_tools::{Output, unescaped};
use rs_ast::Stmt;
use rs_base::{Bytes, NoMemory};
use rs_parse::{ParseFault, TEXT_LIMIT, parse};
use rs_unparse::print_stmt;
use std::alloc::Global;

/// Parses a text, of which `TEXT_LIMIT` bytes are read at most.
fn parsed(alloc: Global, text: &[u8]) -> Result<Stmt, ParseFault> {
    let (text, _) = text.split_at(text.len().min(TEXT_LIMIT));
    parse(alloc, text)
}

/// Gives the byte offset of the fault, or `None` for a request.
fn offset_of(stmt: &Result<Stmt, ParseFault>) -> Result<Option<usize>, NoMemory> {
    match stmt {
        Ok(_) => Ok(None),
        Err(ParseFault::Syntax { place }) => Ok(Some(*place as usize)),
        Err(ParseFault::NoMemory) => Err(NoMemory),
    }
}

/// Gives the byte offset of the fault of a text and some more, or `None` for a request.
fn fault_of(alloc: Global, text: &[u8], more: &[u8]) -> Result<Option<usize>, NoMemory> {
    let mut whole = Bytes::from_slice(alloc, text)?;
    whole.extend(more)?;
    offset_of(&parsed(alloc, whole.as_slice()))
}

fn append_offset(fault: Option<usize>, out: &mut Output) {
    match fault {
        None => out.text("ok"),
        Some(offset) => out.number(offset as u64),
    }
}

/// Appends `ok` for a request, or the byte offset of the fault.
pub fn append_fault(input: &str, out: &mut Output) -> Result<(), NoMemory> {
    let text = unescaped(out.alloc, input)?;
    append_offset(fault_of(out.alloc, text.as_slice(), b"")?, out);
    Ok(())
}

/// Reports whether a word and a byte that begins no token are at fault where the text ends.
fn is_begun(alloc: Global, text: &[u8]) -> Result<bool, NoMemory> {
    let end = Some(text.len());
    let word = fault_of(alloc, text, b"Revoke 'x")?;
    let byte = fault_of(alloc, text, b"! x")?;
    Ok(word == end && byte == end)
}

/// Appends the length of a cut that is a request with and without blanks after it, and nothing if both are at fault where
/// they end.
fn append_length(
    here: Option<usize>,
    len: usize,
    after: Option<usize>,
    len_with_blanks: usize,
    out: &mut Output,
) {
    if here.is_none() && after.is_none() {
        out.text(" ");
        out.number(len as u64);
    } else if here != Some(len) || after != Some(len_with_blanks) {
        out.text(" ?");
    }
}

/// Appends the length of a cut that is a request, or `?` if its continuations are not at fault where it ends.
fn append_cut(text: &[u8], out: &mut Output) -> Result<(), NoMemory> {
    let mut blank = Bytes::from_slice(out.alloc, text)?;
    blank.extend(b"\r\n\t ")?;
    if !is_begun(out.alloc, blank.as_slice())? {
        out.text(" ?");
        return Ok(());
    }
    let here = fault_of(out.alloc, text, b"")?;
    let after = fault_of(out.alloc, blank.as_slice(), b"")?;
    append_length(here, text.len(), after, blank.len(), out);
    Ok(())
}

/// Cuts a text after each token, and appends the lengths of the cuts that are requests.
pub fn append_cuts(input: &str, out: &mut Output) -> Result<(), NoMemory> {
    let text = unescaped(out.alloc, input)?;
    let text = text.as_slice();
    out.text("at");
    for at in 0..text.len() + 1 {
        let (cut, rest) = text.split_at(at);
        if rest.is_empty() || rest.starts_with(b" ") {
            append_cut(cut, out)?;
        }
    }
    Ok(())
}

/// Appends each of the prefixes after which this word is not at fault.
pub fn append_prefixes(word: &str, prefixes: &str, out: &mut Output) -> Result<(), NoMemory> {
    for line in prefixes.lines() {
        let prefix = unescaped(out.alloc, line)?;
        if fault_of(out.alloc, prefix.as_slice(), word.as_bytes())? != Some(prefix.len()) {
            out.append(prefix.as_slice());
            out.text("; ");
        }
    }
    Ok(())
}

/// Gives the text of a statement, or `None` for a fault.
fn text_of(alloc: Global, stmt: &Result<Stmt, ParseFault>) -> Result<Option<Bytes>, NoMemory> {
    match stmt {
        Ok(stmt) => {
            let mut out = Bytes::new(alloc);
            print_stmt(alloc, stmt, &mut out)?;
            Ok(Some(out))
        }
        Err(ParseFault::Syntax { .. }) => Ok(None),
        Err(ParseFault::NoMemory) => Err(NoMemory),
    }
}

/// Gives the text of the statement of this text, if it is a request.
fn printed(alloc: Global, text: &[u8]) -> Result<Option<Bytes>, NoMemory> {
    text_of(alloc, &parsed(alloc, text))
}

/// Appends the text of the statement, and after it a note, if another text is printed of that.
pub fn append_printed(input: &str, out: &mut Output) -> Result<(), NoMemory> {
    let text = unescaped(out.alloc, input)?;
    let Some(once) = printed(out.alloc, text.as_slice())? else {
        out.text("no request");
        return Ok(());
    };
    out.append(once.as_slice());
    out.text(note_of(once.as_slice(), &printed(out.alloc, once.as_slice())?));
    Ok(())
}

fn note_of(once: &[u8], twice: &Option<Bytes>) -> &'static str {
    match twice {
        Some(twice) if twice.as_slice() == once => "",
        _ => " (printed otherwise when it is read again)",
    }
}
