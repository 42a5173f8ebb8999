//! Tests of the index.
#![tactic(auto)]

#[cfg(test)]
mod build;
#[cfg(test)]
mod chunks;
#[cfg(test)]
mod full;
#[cfg(test)]
mod latched;
#[cfg(test)]
mod threads;
#[cfg(test)]
mod trees;
