//! The steps of the writer.
ghost use Rattle.std.specs.Prelude.{◌≡◌, ℕ, ◌+◌, ◌*◌, ◌^◌, ◌%◌, ◌<◌, ◌≤◌, ◌++◌, length, true};
ghost use Rattle.olfit_rule.specs.Tree.{node_of, word_of, version, Good, Lasts};
ghost use Rattle.olfit_rule.specs.Rule.{IsSame, IsAtRest, put, after_end, after_root, after_rewrite};
ghost use Rattle.olfit_rule.specs.Rule.{rewritten};

use crate::plays::{Noted, Own, StoreRoot, Unlatch, Write};
use crate::view::{Hand, Words};

/// A word as the writer left it.
fn own_word(shared: &Words, me: &mut Hand, node: usize, word: usize) -> u64
    requires own { (me.old.table_id ≡ shared.now.table_id) × (me.old.me.0.writes ≡ true) }
    requires inside { (node * 64 + 64 ≤ shared.now.table_id.words) × (node < 2 ^ 32) × (word < 64)
        × (node < length me.old.me.0.words) }
    ensures same { IsSame me.old me.new × (me.new.me.0 ≡ me.old.me.0) }
    ensures word { result ≡ word_of me.old.me.0.words node word }
{
    shared.load::<Own>(me, node * 64 + word)
}

/// Stores a word of a node that is latched then.
fn write_word(shared: &Words, me: &mut Hand, node: usize, word: usize, new: u64)
    requires own { (me.old.table_id ≡ shared.now.table_id) × (me.old.me.0.writes ≡ true) }
    requires inside { (node * 64 + 64 ≤ shared.now.table_id.words) × (node < 2 ^ 32) × (word < 64)
        × (node < length me.old.me.0.words) }
    requires latched { (version me.old.me.0.words node ≤ version (put me.old.me.0.words node word new) node)
        × (version (put me.old.me.0.words node word new) node % 2 ≡ 1) }
    ensures same { IsSame me.old me.new }
    ensures view { me.new.me.0 ≡ record me.old.me.0 { words = put me.old.me.0.words node word new } }
{
    shared.store::<Write>(me, node * 64 + word, new);
}

/// Stores the version that ends the change of a node.
fn end_change<C: Noted>(shared: &Words, me: &mut Hand, node: usize, new: u64)
    requires own { (me.old.table_id ≡ shared.now.table_id) × (me.old.me.0.writes ≡ true) }
    requires inside { (node * 64 + 64 ≤ shared.now.table_id.words) × (node < 2 ^ 32)
        × (node < length me.old.me.0.words) }
    requires version { version me.old.me.0.words node < new }
    requires good { Good me.old.me.0.base (after_end node new C.changes me.old.me.0).seen }
    requires lasts { Lasts me.old.me.0.seen (after_end node new C.changes me.old.me.0).seen }
    ensures same { IsSame me.old me.new }
    ensures view { me.new.me.0 ≡ after_end node new C.changes me.old.me.0 }
{
    shared.store::<Unlatch<C>>(me, node * 64, new);
}

/// The words of a node.
pub fn own_node(shared: &Words, me: &mut Hand, node: usize) -> [u64; 64]
    requires own { (me.old.table_id ≡ shared.now.table_id) × IsAtRest me.old.me.0 }
    requires inside { (node * 64 + 64 ≤ shared.now.table_id.words) × (node < 2 ^ 32)
        × (node < length me.old.me.0.seen.image) }
    ensures same { IsSame me.old me.new × (me.new.me.0 ≡ me.old.me.0) }
    ensures words { result ≡ node_of me.old.me.0.seen.image node }
{
    let mut words = [0; 64];
    for i in 0..64 {
        words[i] = own_word(shared, me, node, i);
    }
    words
}

/// Replaces the words of a node but for its version: latches it, stores them, and unlatches it with the next
/// even version, which makes the changes `C`.
pub fn rewrite<C: Noted>(shared: &Words, me: &mut Hand, node: usize, words: &[u64; 64])
    requires own { (me.old.table_id ≡ shared.now.table_id) × IsAtRest me.old.me.0 }
    requires inside { (node * 64 + 64 ≤ shared.now.table_id.words) × (node < 2 ^ 32)
        × (node < length me.old.me.0.seen.image) }
    requires version { version me.old.me.0.seen.image node + 2 < 2 ^ 64 }
    requires good { Good me.old.me.0.base (rewritten node words.now C.changes me.old.me.0.seen) }
    requires lasts { Lasts me.old.me.0.seen (rewritten node words.now C.changes me.old.me.0.seen) }
    ensures same { IsSame me.old me.new × IsAtRest me.new.me.0 }
    ensures size { length me.new.me.0.seen.image ≡ length me.old.me.0.seen.image }
    ensures versions { (i : ℕ) → version me.new.me.0.seen.image i ≤ version me.old.me.0.seen.image i + 2 }
    ensures view { me.new.me.0 ≡ after_rewrite node words.now C.changes me.old.me.0 }
{
    let version = own_word(shared, me, node, 0);
    write_word(shared, me, node, 0, version + 1);
    for i in 1..64 {
        write_word(shared, me, node, i, words[i]);
    }
    end_change::<C>(shared, me, node, version + 2);
}

/// The number of the root.
pub fn own_root(shared: &Words, me: &mut Hand, nodes: usize) -> u64
    requires own { (me.old.table_id ≡ shared.now.table_id) × (me.old.me.0.writes ≡ true) }
    requires sized { (length me.old.me.0.words ≡ nodes) × (nodes < 2 ^ 32)
        × (shared.now.table_id.words ≡ nodes * 64 + 1) }
    ensures same { IsSame me.old me.new × (me.new.me.0 ≡ me.old.me.0) }
    ensures root { result ≡ me.old.me.0.seen.root }
{
    shared.load::<Own>(me, nodes * 64)
}

/// Makes a node the root.
pub fn store_root(shared: &Words, me: &mut Hand, nodes: usize, root: u64)
    requires own { (me.old.table_id ≡ shared.now.table_id) × (me.old.me.0.writes ≡ true) }
    requires sized { (length me.old.me.0.words ≡ nodes) × (0 < nodes) × (nodes < 2 ^ 32)
        × (shared.now.table_id.words ≡ nodes * 64 + 1) }
    requires good { Good me.old.me.0.base (after_root root me.old.me.0.seen) }
    requires lasts { Lasts me.old.me.0.seen (after_root root me.old.me.0.seen) }
    ensures same { IsSame me.old me.new }
    ensures view { me.new.me.0 ≡ record me.old.me.0 { seen = after_root root me.old.me.0.seen } }
{
    shared.store::<StoreRoot>(me, nodes * 64, root);
}
