//! Tables of rows for values, slots, schemas, keys and locks, and for the blocks, fields, records and pages that keep
//! them: an input of a public call, and what has to come of it.
#![tactic(auto)]

#[cfg(test)]
mod blocks;
#[cfg(test)]
mod keys;
#[cfg(test)]
mod pages;
#[cfg(test)]
mod records;
#[cfg(test)]
mod replay;
#[cfg(test)]
mod rows;
