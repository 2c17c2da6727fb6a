//! Codecs of calls, replies and changes, and of sections, plans and programs in them.
#![tactic(auto)]

mod call;
mod change;
mod laws;
mod limits;
mod program;
mod reply;
mod section;
mod whole;

pub use call::CallCodec;
pub use change::ChangeCodec;
pub use laws::{calls_are_encoded, changes_are_encoded, replies_are_encoded};
pub use program::{BodyCodec, BodyTableCodec, HeadCodec, PartCodec, PartKindCodec, PlanCodec};
pub use reply::CallReplyCodec;
pub use section::{PathCodec, SectionCodec, SectionIdCodec, SectionKindCodec};
pub use whole::{put_call, put_call_reply, put_change, take_call, take_call_reply, take_change};
