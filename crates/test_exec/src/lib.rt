//! Blocks that are tried over a keeper of rows, without a stop and with each stop of each call: what they are answered,
//! what then stands, and which calls were made.
#![tactic(auto)]

#[cfg(test)]
mod blocks;
#[cfg(test)]
mod reads;
#[cfg(test)]
mod stops;
