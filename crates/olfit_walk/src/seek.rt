//! What a node says of a key, read where it lies: no word is copied, and the search ends at the first entry
//! with a greater key.
ghost use Rattle.std.specs.Prelude.{◌≡◌, ℕ, ◌+◌, ◌*◌, ◌%◌, ◌^◌, ◌<◌, ◌≤◌};
ghost use Rattle.olfit_nodes.specs.Nodes.{count_of, entries_of, number_of, right_of, Rises};
ghost use Rattle.olfit_rule.specs.Tree.{node_of, word_of, Good, IsAt};
ghost use Rattle.olfit_rule.specs.Rule.{CanRead, Follows, IsReading, IsStill, Peeks};
ghost use Rattle.olfit_walk.specs.Ways.{IsSaid, IsTurn, IsUpto, TurnsAt};

use olfit_nodes::{Link, number};
use olfit_rule::{Hand, Words, begin, peek};

/// Where the way to a key goes on from a node.
#[derive(Clone, Copy, Debug, PartialEq, Eq)]
pub(crate) enum Turn {
    /// It goes on to this node.
    Next(usize),
    /// It ends: the node is the leaf of the key, and the key has this value there.
    Value(Option<u64>),
    /// The node is to be read again: the versions that were loaded first and last.
    Again(u64, u64),
}

/// The number whose halves stand in these words of the node that is being read.
fn number_at(shared: &Words, me: &mut Hand, node: usize, high: usize, low: usize) -> u128
    requires reading { (first : ℕ) × IsReading shared.now.table_id node first me.old }
    requires inside { (high < 64) × (low < 64) }
    ensures peeks { Peeks me.old me.new }
    ensures reading { (first : ℕ) → IsReading shared.now.table_id node first me.old
        → IsReading shared.now.table_id node first me.new }
    ensures number { IsStill me.new.me.0 → result ≡ number_of (word_of me.old.me.0.seen.image node high)
        (word_of me.old.me.0.seen.image node low) }
{
    let upper = peek(shared, me, node, high);
    let lower = peek(shared, me, node, low);
    number(upper, lower)
}

/// The right neighbour of the node that is being read.
fn right_at(shared: &Words, me: &mut Hand, node: usize) -> Option<Link>
    requires reading { (first : ℕ) × IsReading shared.now.table_id node first me.old }
    ensures peeks { Peeks me.old me.new }
    ensures reading { (first : ℕ) → IsReading shared.now.table_id node first me.old
        → IsReading shared.now.table_id node first me.new }
    ensures right { IsStill me.new.me.0 → result ≡ right_of (node_of me.old.me.0.seen.image node) }
{
    let next = peek(shared, me, node, 5);
    if next == 0 {
        return None;
    }
    Some(Link {
        key: number_at(shared, me, node, 3, 4),
        node: (next - 1) as usize,
    })
}

/// How many of the first entries of the node that is being read have keys of at most this.
fn upto(shared: &Words, me: &mut Hand, node: usize, count: usize, key: u128) -> usize
    requires reading { (first : ℕ) × IsReading shared.now.table_id node first me.old }
    requires few { count ≤ 16 }
    ensures peeks { Peeks me.old me.new }
    ensures reading { (first : ℕ) → IsReading shared.now.table_id node first me.old
        → IsReading shared.now.table_id node first me.new }
    ensures most { result ≤ count }
    ensures upto { IsStill me.new.me.0 → count ≡ count_of (node_of me.old.me.0.seen.image node)
        → IsUpto (node_of me.old.me.0.seen.image node) key result }
{
    for place in 0..count {
        if number_at(shared, me, node, 7 + 3 * place, 8 + 3 * place) > key {
            return place;
        }
    }
    count
}

/// What the entries of the node that is being read say of a key that isn't beyond its right link: the child,
/// or the key's value.
fn entries_say(shared: &Words, me: &mut Hand, node: usize, key: u128) -> Turn
    requires reading { (first : ℕ) × IsReading shared.now.table_id node first me.old }
    requires few { count_of (node_of me.old.me.0.seen.image node) ≤ 16 }
    requires rises { Rises (entries_of (node_of me.old.me.0.seen.image node)) }
    ensures peeks { Peeks me.old me.new }
    ensures reading { (first : ℕ) → IsReading shared.now.table_id node first me.old
        → IsReading shared.now.table_id node first me.new }
    ensures said { IsStill me.new.me.0 → IsSaid (node_of me.old.me.0.seen.image node) key result }
{
    let head = peek(shared, me, node, 6);
    let count = (head % 65_536).min(16) as usize;
    let below = upto(shared, me, node, count, key);
    if below == 0 {
        return Turn::Value(None);
    }
    let last = below - 1;
    let value = peek(shared, me, node, 9 + 3 * last);
    if head / 65_536 != 0 {
        return Turn::Next(value as usize);
    }
    if number_at(shared, me, node, 7 + 3 * last, 8 + 3 * last) != key {
        return Turn::Value(None);
    }
    Turn::Value(Some(value))
}

/// Where the way to a key goes on from the node that is being read, if its version is still the same.
fn search(shared: &Words, me: &mut Hand, node: usize, key: u128) -> Turn
    requires reading { (first : ℕ) × IsReading shared.now.table_id node first me.old }
    requires few { count_of (node_of me.old.me.0.seen.image node) ≤ 16 }
    requires rises { Rises (entries_of (node_of me.old.me.0.seen.image node)) }
    ensures peeks { Peeks me.old me.new }
    ensures reading { (first : ℕ) → IsReading shared.now.table_id node first me.old
        → IsReading shared.now.table_id node first me.new }
    ensures turn { IsStill me.new.me.0 → IsTurn (node_of me.old.me.0.seen.image node) key result }
{
    match right_at(shared, me, node) {
        Some(link) if link.key <= key => Turn::Next(link.node),
        _ => entries_say(shared, me, node, key),
    }
}

/// Where the way to a key goes on from a node to which a link leads, with no latch: loads its version, the
/// words that tell it, and its version again.
pub(crate) fn read_turn(shared: &Words, me: &mut Hand, node: usize, key: u128) -> Turn
    requires own { me.old.table_id ≡ shared.now.table_id }
    requires inside { (node * 64 + 64 ≤ shared.now.table_id.words) × (node < 2 ^ 32) }
    requires known { CanRead node me.old.me.0 }
    requires at { (level : ℕ) × IsAt me.old.me.0.seen level node }
    ensures seat { Follows me.old me.new }
    ensures good { Good me.new.me.0.base me.new.me.0.seen }
    ensures loads { me.new.me.0.loads ≡ me.old.me.0.loads + 1 }
    ensures turn { TurnsAt node key result me.new.me.0 }
{
    let first = begin(shared, me, node);
    if first % 2 == 1 {
        return Turn::Again(first, first);
    }
    let found = search(shared, me, node, key);
    let second = peek(shared, me, node, 0);
    if second != first {
        return Turn::Again(first, second);
    }
    found
}
