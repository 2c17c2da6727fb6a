//! Codecs: how values are encoded as bytes and decoded again. A codec of a composite value is made of those of its parts.
#![tactic(auto)]

mod codec;
mod denial;
mod list;
mod lock;
mod name;
mod number;
mod option;
mod pair;
mod text;
mod txn;
mod value;
mod whole;

pub use codec::Codec;
pub use denial::DenialCodec;
pub use list::ListOf;
pub use lock::{ModeCodec, ResourceCodec};
pub use name::{NameTextCodec, SwnCodec};
pub use number::{Bool, Count, EightBytes, FourBytes, Int, U8, U16, U32};
pub use option::OptionOf;
pub use pair::Pair;
pub use text::{IdentCodec, SiteNoCodec, TxtCodec};
pub use txn::{EnlistCodec, TxnCodec};
pub use value::{KindCodec, ValueCodec};
pub use whole::{append, read};
