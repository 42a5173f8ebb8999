//! Tables of rows for what carries and keeps bytes: streams, disks, areas and log lanes, what they are asked, and
//! what has to come of it. They show what no clause says, above all that a call succeeds with ample memory.
#![tactic(auto)]

#[cfg(test)]
mod area_files;
#[cfg(test)]
mod areas;
#[cfg(test)]
mod disks;
#[cfg(test)]
mod lane_files;
#[cfg(test)]
mod lanes;
#[cfg(test)]
mod segments;
#[cfg(test)]
mod streams;
