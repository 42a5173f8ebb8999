//! Every line that the program prints, and the printer that brings them to a sink.
#![tactic(auto)]

mod last;
mod laws;
mod printer;
mod refusals;
mod replies;
mod rows;

pub use io_edge::{Failed, Sink};
pub use last::{Fault, Place};
pub use laws::replies_are_told_apart;
pub use printer::Printer;
pub use replies::reply_into;
