//! What the writer finds in its nodes.
ghost use Rattle.std.specs.Prelude.{◌≡◌, ℕ, ◌+◌, ◌*◌, ◌≤◌};
ghost use Rattle.olfit_rule.specs.Maps.{map_of, map_after};
ghost use Rattle.olfit_rule.specs.Tree.{node_of, IsAt, Covers};
ghost use Rattle.olfit_rule.specs.Rule.{IsSame};
ghost use Rattle.olfit_change.specs.States.{IsReady, IsFreeFrom, Stays};
ghost use Rattle.olfit_change.specs.Room.{Needs, weights};

use olfit_nodes::{count, level};
use olfit_rule::{Hand, Words, own_node, own_root};
use olfit_walk::{next_node, value_in};

/// The most entries of a node.
pub(crate) const ENTRIES: usize = 16;

/// The node of a level into which a key belongs, and its words.
pub(crate) fn node_at(
    shared: &Words,
    me: &mut Hand,
    nodes: usize,
    target: u64,
    key: u128,
) -> (usize, [u64; 64])
    requires ready { IsReady shared.now.table_id nodes me.old }
    requires target { (top : ℕ) × IsAt me.old.me.0.seen top me.old.me.0.seen.root × (target ≤ top) }
    ensures same { Stays me.old me.new }
    ensures node { IsAt me.old.me.0.seen target result.0 × Covers me.old.me.0.seen result.0 key }
    ensures words { result.1 ≡ node_of me.old.me.0.seen.image result.0 }
{
    let mut node = own_root(shared, me, nodes) as usize;
    'way: loop {
        let words = own_node(shared, me, node);
        match next_node(&words, target, key) {
            Some(next) => node = next,
            None => return (node, words),
        }
    }
}

/// The value of a key. None: it isn't there.
pub fn value_of(shared: &Words, me: &mut Hand, nodes: usize, key: u128) -> Option<u64>
    requires { IsReady shared.now.table_id nodes me.old }
    ensures same { Stays me.old me.new }
    ensures value { result ≡ map_after (map_of me.old.me.0.base) me.old.me.0.seen.log key }
{
    let (_, words) = node_at(shared, me, nodes, 0, key);
    value_in(&words, key)
}

/// How far the root is above the leaves.
pub(crate) fn top(shared: &Words, me: &mut Hand, nodes: usize) -> u64
    requires { IsReady shared.now.table_id nodes me.old }
    ensures same { Stays me.old me.new }
    ensures top { IsAt me.old.me.0.seen result me.old.me.0.seen.root }
{
    let root = own_root(shared, me, nodes) as usize;
    level(&own_node(shared, me, root))
}

/// How many new nodes an entry takes that is put into the leaf of a key: one for each full node from the leaf
/// upwards, and one more where the root is full.
pub fn nodes_needed(shared: &Words, me: &mut Hand, nodes: usize, key: u128) -> usize
    requires ready { IsReady shared.now.table_id nodes me.old }
    requires free { (used : ℕ) × IsFreeFrom used me.old.me.0.seen }
    ensures same { Stays me.old me.new }
    ensures needed { Needs me.old.me.0.seen key result }
    ensures paid { 6 * result ≤ weights me.old.me.0.seen + 5 }
{
    let top = top(shared, me, nodes) as usize;
    for above in 0..top + 1 {
        let (_, words) = node_at(shared, me, nodes, above as u64, key);
        if count(&words) < ENTRIES {
            return above;
        }
    }
    top + 2
}
