//! A turnstile: one shared value that threads change in turns, and one history of all changes.
#![tactic(auto)]

mod laws;
mod pass;
mod steps;
mod told;
mod turnstile;
mod view;

pub use laws::a_pass_counts_its_turns_by_entries;
pub use pass::{Pass, PassWith};
pub use told::Told;
pub use turnstile::{Turn, Turnstile};
pub use view::Adds;
