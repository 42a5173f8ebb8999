//! Records of changes: how they are spelled, read and written, and which pages images and records stand for.
#![tactic(auto)]

mod fault;
mod image;
mod laws;
mod owed;
mod places;
mod read;
mod record;
mod spans;
mod view;
mod write;

pub use base_types::OutOfMemory;
pub use fault::BadRec;
pub use image::Image;
pub use laws::{
    a_change_at_most_the_stamp_is_there, a_change_is_undone_by_its_compensation,
    a_change_of_an_ended_transaction_toggles, a_change_of_an_open_transaction_is_not_there,
    a_change_of_an_open_transaction_is_taken_back, a_later_image_gives_the_same_page,
    an_end_toggles_its_transaction, another_end_leaves, each_bit_has_its_parity,
    pages_come_of_any_parts, pages_have_no_order,
};
pub use owed::is_owed;
pub use read::read_rec;
pub use record::{Head, Rec};
pub use spans::{Diff, diff_bytes, span};
pub use view::{Kind, RecView};
pub use write::{write_commit, write_diff, write_end};
