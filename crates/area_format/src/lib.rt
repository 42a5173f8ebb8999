//! An area: the file that has the base of a database, a schema and the images of its pages, whole or not there.
#![tactic(auto)]

mod fault;
mod front;
mod head;
mod image;
mod laws;
mod places;
mod plan;
mod read;
mod settings;

pub use disk_core::{Disk, Failed, FileName};
pub use fault::AreaReadFault;
pub use head::{Header, ImageHead};
pub use image::read_image;
pub use laws::{holds_what_it_reads, reads_image_by_image, reads_its_head, reads_what_was_written};
pub use plan::{CkptFault, CkptPlan, Unforced};
pub use read::{read_generation, read_header};
pub use settings::Settings;
