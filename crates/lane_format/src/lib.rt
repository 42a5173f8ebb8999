//! The log file of a lane: its text, the writer that appends batches to it, and the reading of a whole file.
#![tactic(auto)]

mod frame;
mod gate;
mod head;
mod laws;
mod numbers;
mod read;
mod segment;
mod steps;
mod stop;
mod window;
mod writer;

pub use disk_core::{Disk, Failed, FileName};
pub use gate::{AtGate, at_gate};
pub use head::{Head, read_head};
pub use laws::{
    begins_with_what_was_read, one_head, one_reading, reads_batch_by_batch, reads_its_head,
    reads_to_its_end, reads_what_was_written, some_reading,
};
pub use numbers::{BATCH_HEAD, CLOSED, FIRST_GATE, HEAD, OPEN};
pub use read::read_segment;
pub use segment::{Batch, LaneReadFault, Segment};
pub use writer::{LaneFault, LaneWriter, Stage};
