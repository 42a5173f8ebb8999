//! What a seat at the table of an index knows.
use atomic_table::{Seat, Shared, TableRule};
use std::collections::LinkedList;

/// One change of the map.
pub enum Change {
    /// The key was absent, and has this value.
    Add(u128, u64),
    /// The key was there.
    Drop(u128),
}

/// The nodes at one moment, and what they stand for. No value of it is made.
pub struct Moment {
    /// Each node's words as they count: those that it had when its version was last even.
    pub image: LinkedList<LinkedList<u64>>,
    /// For each node 0 where no link leads to it, else its level plus 1.
    pub levels: LinkedList<u64>,
    /// The number of the root.
    pub root: u64,
    /// The changes so far.
    pub log: LinkedList<Change>,
}

/// What a seat knows. No value of it is made.
pub struct View {
    /// It is the writer's.
    pub writes: bool,
    /// The writer's: each node's words as they are.
    pub words: LinkedList<LinkedList<u64>>,
    /// The entries of which the index was built.
    pub base: LinkedList<(u128, u64)>,
    /// The last moment that it has seen. The writer's: the present one.
    pub seen: Moment,
    /// Changes of which it was told.
    pub told: LinkedList<Change>,
    /// The node that it reads.
    pub node: u64,
    /// The version that it found there last.
    pub last: u64,
    /// How often it began to read a node: loaded a version for a first time.
    pub loads: u64,
    /// The entries of which the index was built, as the seat says that it met last.
    pub met: LinkedList<(u128, u64)>,
}

/// The rule of the table. Its key is the words at the opening.
pub struct Protocol;

impl TableRule<u64, View, Vec<u64>> for Protocol {
    ghost use Rattle.olfit_rule.specs.Rule.{Kept, opener};

    ghost holds = { λ _. Kept };

    ghost first = { λ words. opener words.items };
}

/// The words of an index.
pub type Words = Shared<u64, View, Vec<u64>, Protocol>;

/// What a thread steps with. It has no bytes.
pub type Hand = Seat<u64, View>;
