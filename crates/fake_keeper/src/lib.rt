//! A keeper of rows in one sorted list that notes its calls and stops where it has to, and blocks that are
//! tried over it, with what comes of them as text.
#![tactic(auto)]

mod keeper;
mod runs;
mod slots;
mod store;
mod switch;

pub use keeper::Keeper;
pub use runs::{block, calls_text, kept_text, plain, schema, tables_text, tried};
pub use slots::{Change, Slot};
pub use switch::{Kind, Switch, Switches};
