//! Tables of rows for texts: the tokens and statements of SQL, what a check of each gives, scripts and what they are,
//! replies and what is printed of them, and all of it over the statements that lie between.
#![tactic(auto)]

#[cfg(test)]
mod checks;
#[cfg(test)]
mod long_texts;
#[cfg(test)]
mod replies;
#[cfg(test)]
mod runs;
#[cfg(test)]
mod scripts;
#[cfg(test)]
mod statements;
#[cfg(test)]
mod tokens;
