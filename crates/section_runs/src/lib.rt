//! Runs the sections of a script over a store, one block after the other.
#![tactic(auto)]

mod laws;
mod run;
mod section;

pub use laws::{one_beginning_among, trail_is_serial};
pub use run::run_sections;
pub use section::{Halt, ReadySection, SectionRun};
