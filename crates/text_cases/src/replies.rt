//! Replies, and how they and their copies are printed.

use case_tools::{Output, Words, read_rows};
use rs_base::{
    Answer, Answers, Bytes, Denial, NoMemory, Origin, Reason, Reply, Resource, one_item,
};
use std::alloc::Global;

/// Reads `ok`, `changed:COUNT` or `rows:ROW;ROW`.
fn read_answer(alloc: Global, word: &str) -> Result<Answer, NoMemory> {
    let (kind, rest) = word.split_once(':').unwrap_or((word, ""));
    match kind {
        "ok" => Ok(Answer::Ok),
        "changed" => Ok(Answer::Changed(Words::new(rest).number())),
        _ => Ok(Answer::Rows(read_rows(alloc, rest)?)),
    }
}

/// Reads answers, separated by blanks.
fn read_answers(alloc: Global, line: &str) -> Result<Answers, NoMemory> {
    let mut answers = Answers::new(alloc);
    for word in line.split(' ') {
        answers.push(read_answer(alloc, word)?)?;
    }
    Ok(answers)
}

/// Reads `table NAME`, `birth NAME`, `program USER NAME` or `synonyms USER`.
fn read_resource(words: &mut Words<'_>) -> Resource {
    match words.next() {
        "table" => Resource::Table(words.name()),
        "birth" => Resource::Birth(words.name()),
        "program" => Resource::Program(words.ident(), words.ident()),
        _ => Resource::Synonyms(words.ident()),
    }
}

/// Reads the cause of a failure, and what belongs to it.
fn read_reason(words: &mut Words<'_>) -> Reason {
    match words.next() {
        "LockBudget" => Reason::LockBudget {
            site: words.site(),
            what: read_resource(words),
            holder: words.enlist(),
        },
        "NoAnswer" => Reason::NoAnswer { site: words.site() },
        _ => Reason::SiteLost { site: words.site() },
    }
}

fn denial_of(word: &str) -> Denial {
    match word {
        "NoTable" => Denial::NoTable,
        _ => Denial::TableFull,
    }
}

/// Reads the class of a reply, and what belongs to it.
fn read_reply(alloc: Global, words: &mut Words<'_>) -> Result<Reply, NoMemory> {
    match words.next() {
        "Done" => Ok(Reply::Done(read_answers(alloc, words.rest())?)),
        "Denied" => Ok(Reply::Denied(denial_of(words.next()))),
        "Failed" => Ok(Reply::Failed(read_reason(words))),
        "Shown" => {
            let line = Bytes::from_slice(alloc, words.rest().as_bytes())?;
            Ok(Reply::Shown(one_item(alloc, line)?))
        }
        "Syntax" => Ok(Reply::Syntax(words.small())),
        "OldEpoch" => Ok(Reply::OldEpoch(words.small())),
        "OldRequest" => Ok(Reply::OldRequest(words.number())),
        _ => Ok(Reply::Gap(words.number())),
    }
}

fn printed(alloc: Global, origin: &Origin, reply: &Reply) -> Output {
    let mut out = Output::new(alloc);
    out.reply(origin, reply);
    out
}

fn copy_note(reply: &Output, copy: &Output) -> &'static str {
    if reply.as_slice() == copy.as_slice() {
        ""
    } else {
        " (its copy is printed otherwise)"
    }
}

/// Appends the printed reply to `SITE USER EPOCH NUMBER`, as its copy is printed too.
pub fn append_reply(words: &mut Words<'_>, out: &mut Output) -> Result<(), NoMemory> {
    let origin = words.origin();
    let reply = read_reply(out.alloc, words)?;
    let copy = reply.copy(out.alloc)?;
    out.reply(&origin, &reply);
    out.text(copy_note(
        &printed(out.alloc, &origin, &reply),
        &printed(out.alloc, &origin, &copy),
    ));
    Ok(())
}
