//! The call that the program makes: it reads a script, runs it over the files of a database and prints the
//! replies.
#![tactic(auto)]

mod call;
mod input;
mod laws;
mod leading;
mod outcome;
mod ready;
mod run;
mod status;

pub use call::{Ended, is_run, ptime};
pub use laws::crash_then_run;
