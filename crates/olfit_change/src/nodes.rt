//! One change of one node, and the split of a full one.
ghost use Rattle.std.specs.Prelude.{◌≡◌, ◌+◌, ◌^◌, ◌<◌, ◌≤◌, [], ◌∷◌};
ghost use Rattle.std.specs.List.{Contains};
ghost use Rattle.olfit_nodes.specs.Nodes.{count_of, entries_of, entry_at, level_of};
ghost use Rattle.olfit_change.specs.Room.{weights};
ghost use Rattle.olfit_rule.specs.declared.view.Change.TheVariants.{Drop};
ghost use Rattle.olfit_rule.specs.Tree.{node_of, low, version, IsAt};
ghost use Rattle.olfit_rule.specs.Rule.{IsSame};
ghost use Rattle.olfit_change.specs.States.{IsReady, IsFreeFrom, IsChangedAt, IsSplitAt, IsGrown, MayPut};
ghost use Rattle.olfit_change.specs.States.{both_entries};

use olfit_nodes::{Link, insert_at, level, made, place_of, remove_at, right, set_right, split};
use olfit_rule::{Hand, Noted, Words, own_root, rewrite, store_root};
use std::marker::Brand;

/// Puts an entry into a node that has room.
pub(crate) fn put_entry<C: Noted>(
    shared: &Words,
    me: &mut Hand,
    nodes: usize,
    node: usize,
    mut words: [u64; 64],
    key: u128,
    value: u64,
)
    requires ready { IsReady shared.now.table_id nodes me.old }
    requires words { words ≡ node_of me.old.me.0.seen.image node }
    requires room { count_of words < 16 }
    requires may { MayPut C.changes node key value me.old.me.0 }
    requires version { version me.old.me.0.seen.image node + 2 < 2 ^ 64 }
    ensures ready { IsReady shared.now.table_id nodes me.new }
    ensures same { IsSame me.old me.new }
    ensures changed { IsChangedAt node C.changes me.old.me.0 me.new.me.0 }
    ensures entry { Contains (entries_of (node_of me.new.me.0.seen.image node)) (key, value) }
    ensures count { count_of (node_of me.new.me.0.seen.image node) ≡ count_of words + 1 }
    ensures level { level_of (node_of me.new.me.0.seen.image node) ≡ level_of words }
{
    let place = place_of(&words, key);
    insert_at(&mut words, place, key, value);
    rewrite::<C>(shared, me, node, &words);
}

/// Splits a full node for an entry: fills a new node with the upper entries, and then cuts the old one, with
/// a link to the new one, which is returned.
pub(crate) fn split_node<C: Noted>(
    shared: &Words,
    me: &mut Hand,
    nodes: usize,
    fresh: usize,
    node: usize,
    mut words: [u64; 64],
    key: u128,
    value: u64,
) -> Link
    requires ready { IsReady shared.now.table_id nodes me.old }
    requires free { IsFreeFrom fresh me.old.me.0.seen × (fresh < nodes) }
    requires words { words ≡ node_of me.old.me.0.seen.image node }
    requires full { count_of words ≡ 16 }
    requires may { MayPut C.changes node key value me.old.me.0 }
    requires version { version me.old.me.0.seen.image node + 2 < 2 ^ 64 }
    ensures ready { IsReady shared.now.table_id nodes me.new }
    ensures same { IsSame me.old me.new }
    ensures link { result.node ≡ fresh }
    ensures split { IsSplitAt node result C.changes me.old.me.0 me.new.me.0 }
    ensures entry { Contains (both_entries me.new.me.0.seen node result) (key, value) }
{
    let place = place_of(&words, key);
    let upper = split(&mut words, place, key, value);
    let link = Link {
        key: upper[0].0,
        node: fresh,
    };
    let filled = made(level(&words), link.key, right(&words), upper.as_slice());
    rewrite::<Brand>(shared, me, fresh, &filled);
    set_right(&mut words, link);
    rewrite::<C>(shared, me, node, &words);
    link
}

/// Makes a new root over the old one and the node that was split off it.
pub(crate) fn grow(shared: &Words, me: &mut Hand, nodes: usize, fresh: usize, top: u64, link: Link)
    requires ready { IsReady shared.now.table_id nodes me.old }
    requires free { IsFreeFrom fresh me.old.me.0.seen × (fresh < nodes) }
    requires top { IsAt me.old.me.0.seen top me.old.me.0.seen.root }
    requires link { IsAt me.old.me.0.seen top link.node × (low me.old.me.0.seen link.node ≡ link.key)
        × (0 < link.key) }
    ensures ready { IsReady shared.now.table_id nodes me.new }
    ensures same { IsSame me.old me.new }
    ensures grown { IsGrown top fresh me.old.me.0 me.new.me.0 }
    ensures over { entries_of (node_of me.new.me.0.seen.image fresh)
        ≡ (0, me.old.me.0.seen.root) ∷ (link.key, link.node) ∷ [] }
{
    let old = own_root(shared, me, nodes);
    let root = made(top + 1, 0, None, &[(0, old), (link.key, link.node as u64)]);
    rewrite::<Brand>(shared, me, fresh, &root);
    store_root(shared, me, nodes, fresh as u64);
}

/// Takes the entry out of a place of a leaf, and returns its value.
pub(crate) fn take_entry<C: Noted>(
    shared: &Words,
    me: &mut Hand,
    nodes: usize,
    leaf: usize,
    mut words: [u64; 64],
    place: usize,
) -> u64
    requires ready { IsReady shared.now.table_id nodes me.old }
    requires words { words ≡ node_of me.old.me.0.seen.image leaf }
    requires leaf { IsAt me.old.me.0.seen 0 leaf }
    requires inside { place < count_of words }
    requires drops { C.changes ≡ Drop (entry_at words place).0 ∷ [] }
    requires version { version me.old.me.0.seen.image leaf + 2 < 2 ^ 64 }
    ensures ready { IsReady shared.now.table_id nodes me.new }
    ensures same { IsSame me.old me.new }
    ensures changed { IsChangedAt leaf C.changes me.old.me.0 me.new.me.0 }
    ensures lighter { weights me.new.me.0.seen ≤ weights me.old.me.0.seen }
    ensures value { result ≡ (entry_at words place).1 }
{
    let value = remove_at(&mut words, place);
    rewrite::<C>(shared, me, leaf, &words);
    value
}
