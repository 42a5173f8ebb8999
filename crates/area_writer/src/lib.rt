//! The writer of the areas: it writes a whole area to the spare one of two files, behind a closed gate, and then
//! opens the gate, so that a crash at any moment leaves the area whole or a file that isn't open.
#![tactic(auto)]

mod fault;
mod layout;
mod steps;
mod writer;

pub use area_format::{ImageHead, Settings};
pub use disk_core::{Disk, Failed, FileName};
pub use fault::AreaFault;
pub use row_types::Schema;
pub use writer::{AreaWriter, Stage};
