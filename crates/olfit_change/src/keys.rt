//! A key is put in or taken out.
ghost use Rattle.std.specs.Prelude.{◌≡◌, ℕ, ◌+◌, ◌^◌, ◌<◌, ◌≤◌, ◌++◌, [], ◌∷◌, None, length, IfNone, IfSome};
ghost use Rattle.olfit_rule.specs.declared.view.Change.TheVariants.{Add};
ghost use Rattle.olfit_rule.specs.Maps.{map_of, map_after};
ghost use Rattle.olfit_rule.specs.Rule.{IsSame};
ghost use Rattle.olfit_change.specs.Room.{Needs, NeedsFrom, IsOwed, IsPaid};
ghost use Rattle.olfit_change.specs.States.{IsReady, IsLinking, IsLeftAbove, IsPutIn, TakesFromLog};
ghost use Rattle.olfit_change.specs.States.{IsBetweenCalls};

use crate::descend::{ENTRIES, node_at, top};
use crate::nodes::{grow, put_entry, split_node, take_entry};
use olfit_nodes::{Link, count, find};
use olfit_rule::{Hand, Words};
use std::marker::Brand;

/// Takes a key out, and returns its value. None: it isn't there, and nothing is changed.
pub fn take(shared: &Words, me: &mut Hand, nodes: usize, key: u128) -> Option<u64>
    requires works { (used : ℕ) × IsBetweenCalls shared.now.table_id nodes used me.old }
    requires few { length me.old.me.0.seen.log < 2 ^ 60 }
    ensures works { (used : ℕ) → IsBetweenCalls shared.now.table_id nodes used me.old
        → IsBetweenCalls shared.now.table_id nodes used me.new }
    ensures same { IsSame me.old me.new × (me.new.me.0.base ≡ me.old.me.0.base) }
    ensures value { result ≡ map_after (map_of me.old.me.0.base) me.old.me.0.seen.log key }
    ensures log { TakesFromLog key result me.old.me.0.seen.log me.new.me.0.seen.log }
    ensures none { result ≡ None → me.new.me.0 ≡ me.old.me.0 }
    ensures paid { (used keys : ℕ) → IsPaid used keys me.old.me.0.seen → IsPaid used keys me.new.me.0.seen }
{
    let (leaf, words) = node_at(shared, me, nodes, 0, key);
    match find(&words, key) {
        Some(place) => Some(take_entry::<Brand>(shared, me, nodes, leaf, words, place)),
        None => None,
    }
}

/// Puts an absent key in, where there are nodes enough. Nodes from `used` on are free.
pub fn put(shared: &Words, me: &mut Hand, nodes: usize, used: &mut usize, key: u128, value: u64)
    requires works { IsBetweenCalls shared.now.table_id nodes used.old me.old }
    requires few { length me.old.me.0.seen.log < 2 ^ 60 }
    requires absent { map_after (map_of me.old.me.0.base) me.old.me.0.seen.log key ≡ None }
    requires room { (needed : ℕ) × Needs me.old.me.0.seen key needed × (used.old + needed ≤ nodes) }
    ensures works { IsBetweenCalls shared.now.table_id nodes used.new me.new }
    ensures same { IsSame me.old me.new × (me.new.me.0.base ≡ me.old.me.0.base) }
    ensures log { me.new.me.0.seen.log ≡ me.old.me.0.seen.log ++ Add key value ∷ [] }
    ensures used { (needed : ℕ) × Needs me.old.me.0.seen key needed × (used.new ≡ used.old + needed) }
    ensures paid { (keys : ℕ) → IsPaid used.old keys me.old.me.0.seen
        → IsPaid used.new (keys + 1) me.new.me.0.seen }
{
    if let Some(link) = put_leaf(shared, me, nodes, used, key, value) {
        link_above(shared, me, nodes, used, key, link);
    }
}

/// The first part of `put`: the key is put into its leaf. None: the leaf had room, and nothing is left to be
/// done. Else the leaf was split, readers find the upper keys by its link to the new leaf, which is returned,
/// and `link_above` has to follow before any other change.
pub fn put_leaf(
    shared: &Words,
    me: &mut Hand,
    nodes: usize,
    used: &mut usize,
    key: u128,
    value: u64,
) -> Option<Link>
    requires works { IsBetweenCalls shared.now.table_id nodes used.old me.old }
    requires few { length me.old.me.0.seen.log < 2 ^ 60 }
    requires absent { map_after (map_of me.old.me.0.base) me.old.me.0.seen.log key ≡ None }
    requires room { (needed : ℕ) × Needs me.old.me.0.seen key needed × (used.old + needed ≤ nodes) }
    ensures ready { IsReady shared.now.table_id nodes me.new }
    ensures same { IsSame me.old me.new × (me.new.me.0.base ≡ me.old.me.0.base) }
    ensures log { me.new.me.0.seen.log ≡ me.old.me.0.seen.log ++ Add key value ∷ [] }
    ensures works { IfNone result (IsBetweenCalls shared.now.table_id nodes used.new me.new) }
    ensures whole { IfNone result ((used.new ≡ used.old)
        × IsPutIn used.old key me.old.me.0.seen me.new.me.0.seen) }
    ensures left { IfSome result (λ link. (used.new ≡ used.old + 1)
        × IsLeftAbove nodes used.old key link me.old.me.0.seen me.new.me.0.seen) }
{
    let (leaf, words) = node_at(shared, me, nodes, 0, key);
    if count(&words) < ENTRIES {
        put_entry::<Brand>(shared, me, nodes, leaf, words, key, value);
        return None;
    }
    let link = split_node::<Brand>(shared, me, nodes, *used, leaf, words, key, value);
    *used += 1;
    Some(link)
}

/// Puts entries for new nodes above the leaf that was split: in the level above, and where a node of it is
/// split for that, in the level above it, up to a new root.
pub fn link_above(
    shared: &Words,
    me: &mut Hand,
    nodes: usize,
    used: &mut usize,
    key: u128,
    first: Link,
)
    requires ready { IsReady shared.now.table_id nodes me.old }
    requires linking { IsLinking 1 key first used.old me.old.me.0.seen }
    requires few { length me.old.me.0.seen.log ≤ 2 ^ 60 }
    requires room { (needed : ℕ) × NeedsFrom me.old.me.0.seen 1 key needed × (used.old + needed ≤ nodes) }
    ensures works { IsBetweenCalls shared.now.table_id nodes used.new me.new }
    ensures same { IsSame me.old me.new × (me.new.me.0.base ≡ me.old.me.0.base) }
    ensures log { me.new.me.0.seen.log ≡ me.old.me.0.seen.log }
    ensures used { (needed : ℕ) × NeedsFrom me.old.me.0.seen 1 key needed × (used.new ≡ used.old + needed) }
    ensures paid { (keys : ℕ) → IsOwed used.old keys me.old.me.0.seen
        → IsPaid used.new keys me.new.me.0.seen }
{
    let top = top(shared, me, nodes);
    let mut link = first;
    for above in 1..top + 1 {
        let (node, words) = node_at(shared, me, nodes, above, key);
        if count(&words) < ENTRIES {
            put_entry::<Brand>(shared, me, nodes, node, words, link.key, link.node as u64);
            return;
        }
        link = split_node::<Brand>(
            shared,
            me,
            nodes,
            *used,
            node,
            words,
            link.key,
            link.node as u64,
        );
        *used += 1;
    }
    grow(shared, me, nodes, *used, top, link);
    *used += 1;
}
