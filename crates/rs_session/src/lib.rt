//! The sessions of a site's users, and the parts of the replies that they get.
#![tactic(auto)]

mod part;
mod part_laws;
mod reply_part;
mod session;
mod told;

pub use part::has_part;
pub use part_laws::{has_each_part, part_fits, part_is_within, parts_are_text};
pub use session::{Session, Sessions};
pub use told::{Told, Tolds};
