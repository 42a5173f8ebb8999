//! The body of a log's batch: changes of rows, one after another, as bytes and back.
#![tactic(auto)]

mod change;
mod laws;
mod number;
mod read;
mod write;

pub use base_types::OutOfMemory;
pub use change::{ChangeFault, RowChange};
pub use laws::{one_change, one_front, reads_what_was_written};
pub use read::{Front, read_body, read_change};
pub use write::{append_del, append_put, del_len, put_len};
