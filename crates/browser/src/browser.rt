// A browser: windows, tokens, stores and the table of sites. All its memory is claimed when it is made.
use crate::row::Row;
use storage::stores::Stores;
use storage::table::Table;
use storage::tokens::Tokens;

mod acts;
pub(crate) mod replies;
mod turns;
mod view;
mod whole;
mod wire;

// No struct of windows, tokens and stores alone, though many contracts say that the table stays: what a page is told goes by
// the table's sites, so the table would be one parameter more.
#[derive(Drop)]
pub struct Browser {
    pub(crate) windows: Row,
    pub(crate) tokens: Tokens,
    pub(crate) stores: Stores,
    pub(crate) table: Table,
}
