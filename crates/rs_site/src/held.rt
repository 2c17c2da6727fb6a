//! What a site stores.

use rs_mean::Database;

/// What a site stores: its database.
#[derive(Drop)]
pub(crate) struct Held {
    pub(crate) database: Database,
}
