//! Replay: the pages that images and records stand for, from the records of several lanes in any order.
#![tactic(auto)]

mod ended_txns;
mod images;
mod item;
mod laws;
mod page_bytes;
mod page_deltas;
mod page_names;
mod restarted;
mod segment_reader;
mod window;

pub use ended_txns::{EndedTxns, ended};
pub use item::Item;
pub use lane_format::{Disk, FileName, LaneReadFault};
pub use laws::{
    a_batch_of_open_changes_leaves_all_pages, a_page_that_is_not_there_is_zeros,
    finds_the_first_damage, reads_all_records,
};
pub use page_deltas::{PageDeltas, deltas};
pub use restarted::combine;
pub use segment_reader::SegmentReader;
pub use xor_records::{Image, OutOfMemory};
