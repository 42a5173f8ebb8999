//! Blocks over the keeper of rows in memory: they give what the plain model says, with ample memory, and stop
//! where a transaction or the log file has no room.
#![tactic(auto)]

#[cfg(test)]
mod blocks;
#[cfg(test)]
mod limits;
#[cfg(test)]
mod long;
#[cfg(test)]
mod tries;
