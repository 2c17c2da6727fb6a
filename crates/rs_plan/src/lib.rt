//! Statements whose names are bound to columns, and when one is over given tables; plans and their sections, and the path
//! by which a section reaches its rows; stored programs; and the calls, replies and changes by which sites work for each other.
#![tactic(auto)]

mod bound;
mod call;
mod call_reply;
mod change;
mod path;
mod plan;
mod program;
mod section;
mod section_id;

pub use bound::{Bound, Swns};
pub use call::Call;
pub use call_reply::CallReply;
pub use change::{Change, Changes};
pub use path::{Path, choose};
pub use plan::{Part, PartKind, Parts, Plan};
pub use program::{Body, BodyTable, BodyTables, Head};
pub use section::{Section, SectionKind};
pub use section_id::SectionId;
