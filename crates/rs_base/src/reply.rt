//! Answers and replies.

ghost use Rattle.std.specs.Prelude.{◌≡◌, IfOk, take};

use crate::bytes::Bytes;
use crate::fault::NoMemory;
use crate::lock::Resource;
use crate::room::with_room;
use crate::site_no::SiteNo;
use crate::txn::Enlist;
use crate::value::{Row, Rows, copy_row};
use sqlite_items::Items;
use std::alloc::Global;

/// The cause of a denial. A denied execution is committed and changed nothing.
#[derive(Clone, Copy)]
pub enum Denial {
    NoTable,
    NoColumn,
    TwoColumns,
    WrongType,
    TableExists,
    NoIndex,
    IndexExists,
    NoProgram,
    ProgramExists,
    WrongParams,
    SynonymExists,
    NoSynonym,
    NoSite,
    Overflow,
    TooManyRows,
    TableFull,
}

/// The answer of one statement.
#[derive(Drop)]
pub enum Answer {
    /// The statement was carried out.
    Ok,
    /// The number of rows inserted, updated or deleted.
    Changed(u64),
    /// The rows of a query.
    Rows(Rows),
}

pub type Answers = Items<Answer>;

/// The reason of a failure. A failed execution isn't in the history and never will be.
#[derive(Clone, Copy)]
pub enum Reason {
    /// A lock wait at a site ended, since another held the lock.
    LockBudget {
        site: SiteNo,
        what: Resource,
        holder: Enlist,
    },
    /// A site gave no answer in time.
    NoAnswer {
        site: SiteNo,
    },
    /// A site lost its part of the transaction.
    SiteLost {
        site: SiteNo,
    },
}

/// Lines of text, without line feeds.
pub type Lines = Items<Bytes>;

/// The reply to a request.
#[derive(Drop)]
pub enum Reply {
    /// The execution is committed; one answer per statement.
    Done(Answers),
    /// The execution is committed and changed nothing.
    Denied(Denial),
    /// The execution isn't in the history and never will be.
    Failed(Reason),
    /// What an EXPLAIN or SHOW asked for; it isn't in the history.
    Shown(Lines),
    /// The text has no parse; the byte offset of the fault.
    Syntax(u32),
    /// The request names another epoch than the site's; carries the site's epoch.
    OldEpoch(u32),
    /// The request's number is below the user's last; carries the last.
    OldRequest(u64),
    /// The request's number is above the user's next, or the last is unanswered; carries the last.
    Gap(u64),
}

fn copy_rows(alloc: Global, rows: &[Row]) -> Result<Rows, NoMemory>
    ensures { IfOk result (λ copy. copy ≡ rows.now) }
{
    let mut copy = with_room(alloc, rows.len())?;
    for row in rows {
        copy.push(copy_row(alloc, row.as_slice())?)?;
    }
    Ok(copy)
}

impl Answer {
    pub fn copy(&self, alloc: Global) -> Result<Answer, NoMemory>
        ensures { IfOk result (λ copy. copy ≡ self.now) }
    {
        match self {
            Answer::Ok => Ok(Answer::Ok),
            Answer::Changed(n) => Ok(Answer::Changed(*n)),
            Answer::Rows(rows) => Ok(Answer::Rows(copy_rows(alloc, rows.as_slice())?)),
        }
    }
}

fn copy_answers(alloc: Global, answers: &[Answer]) -> Result<Answers, NoMemory>
    ensures { IfOk result (λ copy. copy ≡ answers.now) }
{
    let mut copy = with_room(alloc, answers.len())?;
    for answer in answers {
        copy.push(answer.copy(alloc)?)?;
    }
    Ok(copy)
}

fn copy_lines(alloc: Global, lines: &[Bytes]) -> Result<Lines, NoMemory>
    ensures { IfOk result (λ copy. copy ≡ lines.now) }
{
    let mut copy = with_room(alloc, lines.len())?;
    for line in lines {
        copy.push(line.copy(alloc)?)?;
    }
    Ok(copy)
}

impl Reply {
    pub fn copy(&self, alloc: Global) -> Result<Reply, NoMemory>
        ensures { IfOk result (λ copy. copy ≡ self.now) }
    {
        match self {
            Reply::Done(answers) => Ok(Reply::Done(copy_answers(alloc, answers.as_slice())?)),
            Reply::Denied(denial) => Ok(Reply::Denied(*denial)),
            Reply::Failed(reason) => Ok(Reply::Failed(*reason)),
            Reply::Shown(lines) => Ok(Reply::Shown(copy_lines(alloc, lines.as_slice())?)),
            Reply::Syntax(place) => Ok(Reply::Syntax(*place)),
            Reply::OldEpoch(epoch) => Ok(Reply::OldEpoch(*epoch)),
            Reply::OldRequest(last) => Ok(Reply::OldRequest(*last)),
            Reply::Gap(last) => Ok(Reply::Gap(*last)),
        }
    }
}
