//! Keys, ranges of keys, the names of locks, and what row operations and lock requests mean.
#![tactic(auto)]

mod key;
mod laws;
mod lock;
mod range;

pub use key::{Key, key_of};
pub use laws::{
    keys_keep_order, look_ups_follow_changes, plays_once, tables_stay_tables,
    verdict_names_the_least,
};
pub use lock::{Held, LockName, MAX_LOCKS, Mode, Verdict, answer_to};
pub use range::Range;
