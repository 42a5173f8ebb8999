//! Pages of slots over the blocks of a pool: their bytes,
//! stamps and held slots, and the first free slot of each.
#![tactic(auto)]

mod bytes;
mod free;
mod laws;
mod page;

pub use block_pool::{Pool, PoolFull};
pub use laws::{
    a_free_block_is_no_pages, a_page_stays_while_another_block_changes,
    a_page_toggled_twice_is_as_before,
};
pub use page::{BadPage, Page};
