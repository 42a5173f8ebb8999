//! Scripts: the sections of a text, the statements of a
//! section with their places, and the blocks that these are.
#![tactic(auto)]

mod building;
mod fault;
mod laws;
mod line;
mod scanning;
mod sections;
mod splitting;

pub use base_types::OutOfMemory;
pub use fault::ScriptFault;
pub use laws::{one_fault, one_script, script_or_fault};
pub use sections::{Script, Section};
pub use splitting::{MAX_SCRIPT, MAX_SESSIONS, split};
