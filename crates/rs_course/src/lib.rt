//! The course of a world of sites by the events of a schedule, whatever a site is: its definitions, what goes into a site and
//! what comes out of it, and the types of the report.
#![tactic(auto)]

mod datagram;
mod input;
mod outs;
mod report;

pub use datagram::Datagram;
pub use input::Input;
pub use outs::{Decided, Decideds, Outs, RunOf, Runs};
pub use report::{ReplyList, Report, ReportedReply, SiteView, SiteViews, TableView, TableViews};
