//! Tests of the turnstile, and threads that count their turns at one, which `bench/turns` times.
#![tactic(auto)]

mod count;
mod lane;
mod marks;
mod pile;
#[cfg(test)]
mod tests;

pub use count::{Count, count_one};
pub use lane::count_by_many;
