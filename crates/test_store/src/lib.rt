//! Tables of rows for scripts and log files: what a run or an opening is given, and what has to come of it.
//! They show what no clause says, above all that a call succeeds with ample memory.
#![tactic(auto)]

#[cfg(test)]
mod ample;
#[cfg(test)]
mod logs;
#[cfg(test)]
mod program;
#[cfg(test)]
mod runs;
