//! Tests of the tables of locks and of transactions.
#![tactic(auto)]

#[cfg(test)]
mod locks;
#[cfg(test)]
mod plain;
#[cfg(test)]
mod txns;
