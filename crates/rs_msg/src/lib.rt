//! The messages between sites and clients, and their encoding as datagrams.
#![tactic(auto)]

mod laws;
mod message;
mod put;
mod read;

pub use laws::{
    ask_fits, each_message, one_encoding, read_is_encoded, reply_fits, written_is_read,
};
pub use message::{ASK_LIMIT, Ask, Message, ReplyPart};
pub use put::encode;
pub use read::decode;
