//! The vocabulary of the whole database: sites, names, values and replies.
#![tactic(auto)]

pub mod append;
mod bytes;
mod fault;
mod ident;
mod lock;
mod name;
mod orders;
mod peer;
mod print;
mod reply;
mod room;
mod site_no;
mod size;
mod txn;
mod txt;
mod value;

pub use bytes::Bytes;
pub use fault::{Failed, Fault, NoMemory, OrNoMemory, ReadFault};
pub use ident::{Ident, is_name_byte};
pub use lock::{HeldLocks, Mode, Resource};
pub use name::{NameText, Swn};
pub use orders::{
    order_of_enlists, order_of_modes, order_of_names, order_of_origins, order_of_peers,
    order_of_resources, order_of_txns, order_of_values,
};
pub use peer::{Datagrams, Peer};
pub use print::{print_number, print_swn, print_value};
pub use reply::{Answer, Answers, Denial, Lines, Reason, Reply};
pub use room::{one_item, with_room};
pub use site_no::SiteNo;
pub use size::{count_of, row_size};
pub use txn::{Enlist, Origin, Txn};
pub use txt::{Txt, TxtFault, is_utf8};
pub use value::{Kind, NumberedRows, Row, Rows, Value, copy_row};
