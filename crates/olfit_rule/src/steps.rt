//! The steps of readers.
ghost use Rattle.std.specs.Prelude.{◌≡◌, ℕ, ◌+◌, ◌*◌, ◌^◌, ◌%◌, ◌<◌, ◌≤◌, length, [], true, false};
ghost use Rattle.olfit_rule.specs.Maps.{StartsWith};
ghost use Rattle.olfit_rule.specs.Tree.{Good, node_of, word_of};
ghost use Rattle.olfit_rule.specs.Rule.{CanRead, Follows, HasBegun, IsReading, IsRead, IsSame, IsStill};
ghost use Rattle.olfit_rule.specs.Rule.{Peeks, reader_of, informed};

use crate::plays::{FindRoot, Look, Own, Peek, Reads, Tells};
use crate::view::{Hand, Words};

/// How a reading of a node ends.
#[derive(Clone, Copy, Debug, PartialEq, Eq)]
pub enum Read {
    /// The words are those of one moment.
    Whole,
    /// The first version loaded was odd, and is the second too; or the two loaded differ.
    Again {
        /// The version loaded first.
        first: u64,
        /// The version loaded last.
        second: u64,
    },
}

/// Begins to read a node: loads its version. Where that is odd, the node is latched.
pub fn begin(shared: &Words, me: &mut Hand, node: usize) -> u64
    requires own { me.old.table_id ≡ shared.now.table_id }
    requires inside { (node * 64 + 64 ≤ shared.now.table_id.words) × (node < 2 ^ 32) }
    requires known { CanRead node me.old.me.0 }
    ensures seat { Follows me.old me.new }
    ensures good { Good me.new.me.0.base me.new.me.0.seen }
    ensures begun { HasBegun node result me.old.me.0 me.new.me.0 }
    ensures reading { result % 2 ≡ 0 → IsReading shared.now.table_id node result me.new }
{
    shared.load::<Look>(me, node * 64)
}

/// Loads a word of the node that is being read.
pub fn peek(shared: &Words, me: &mut Hand, node: usize, word: usize) -> u64
    requires reading { (first : ℕ) × IsReading shared.now.table_id node first me.old }
    requires inside { word < 64 }
    ensures peeks { Peeks me.old me.new }
    ensures reading { (first : ℕ) → IsReading shared.now.table_id node first me.old
        → IsReading shared.now.table_id node first me.new }
    ensures word { IsStill me.new.me.0 → result ≡ word_of me.old.me.0.seen.image node word }
    ensures version { word ≡ 0 → result ≡ me.new.me.0.last }
{
    shared.load::<Peek>(me, node * 64 + word)
}

/// Loads the words of the node that is being read.
fn gather(shared: &Words, me: &mut Hand, node: usize, into: &mut [u64; 64])
    requires reading { (first : ℕ) × IsReading shared.now.table_id node first me.old }
    ensures peeks { Peeks me.old me.new }
    ensures reading { (first : ℕ) → IsReading shared.now.table_id node first me.old
        → IsReading shared.now.table_id node first me.new }
    ensures words { IsStill me.new.me.0 → into.new ≡ node_of me.old.me.0.seen.image node }
{
    for i in 0..64 {
        into[i] = peek(shared, me, node, i);
    }
}

/// Reads a node with no latch: loads its version, its words and its version again.
pub fn read_node(shared: &Words, me: &mut Hand, node: usize, into: &mut [u64; 64]) -> Read
    requires own { me.old.table_id ≡ shared.now.table_id }
    requires inside { (node * 64 + 64 ≤ shared.now.table_id.words) × (node < 2 ^ 32) }
    requires known { CanRead node me.old.me.0 }
    ensures seat { Follows me.old me.new }
    ensures good { Good me.new.me.0.base me.new.me.0.seen }
    ensures loads { me.new.me.0.loads ≡ me.old.me.0.loads + 1 }
    ensures read { IsRead node into.new result me.new.me.0 }
{
    let first = begin(shared, me, node);
    if first % 2 == 1 {
        return Read::Again {
            first,
            second: first,
        };
    }
    gather(shared, me, node, into);
    let second = peek(shared, me, node, 0);
    if second != first {
        return Read::Again { first, second };
    }
    Read::Whole
}

/// Where a reader begins: the number of the root.
pub fn find_root(shared: &Words, me: &mut Hand, nodes: usize) -> u64
    requires own { (me.old.table_id ≡ shared.now.table_id) × (me.old.me.0.writes ≡ false) }
    requires sized { (length me.old.me.0.seen.image ≡ nodes) × (0 < nodes) × (nodes < 2 ^ 32)
        × (shared.now.table_id.words ≡ nodes * 64 + 1) }
    ensures seat { Follows me.old me.new }
    ensures good { Good me.new.me.0.base me.new.me.0.seen }
    ensures root { result ≡ me.new.me.0.seen.root }
{
    shared.load::<FindRoot>(me, nodes * 64)
}

/// A reader, which has seen what this seat has seen.
pub fn reader(shared: &Words, me: &mut Hand) -> Hand
    requires own { (me.old.table_id ≡ shared.now.table_id) × (0 < shared.now.table_id.words) }
    ensures same { IsSame me.old me.new × (me.new.me.0 ≡ me.old.me.0) }
    ensures new { (result.table_id ≡ me.old.table_id) × (result.me.1 ≡ [])
        × (result.me.0 ≡ reader_of me.old.me.0) }
{
    shared.split_seat::<Reads>(me)
}

/// The reader is told of all changes so far.
pub fn meet(shared: &Words, writer: &mut Hand, me: &mut Hand)
    requires own { (writer.old.table_id ≡ shared.now.table_id) × (me.old.table_id ≡ shared.now.table_id)
        × (0 < shared.now.table_id.words) }
    ensures writer { IsSame writer.old writer.new × (writer.new.me.0 ≡ writer.old.me.0) }
    ensures me { IsSame me.old me.new × (me.new.me.0 ≡ informed me.old.me.0 writer.old.me.0) }
{
    let note = shared.split_seat::<Reads>(writer);
    shared.join_seat::<Tells>(me, note);
}

/// The writer learns that all which the reader has seen are first changes of its own, of an index that was
/// built of the same entries.
pub fn agree(shared: &Words, writer: &mut Hand, me: &mut Hand)
    requires own { (writer.old.table_id ≡ shared.now.table_id) × (me.old.table_id ≡ shared.now.table_id)
        × (writer.old.me.0.writes ≡ true) }
    requires inside { (64 ≤ shared.now.table_id.words) × (0 < length writer.old.me.0.words) }
    ensures writer { IsSame writer.old writer.new × (writer.new.me.0 ≡ informed writer.old.me.0 me.old.me.0) }
    ensures me { IsSame me.old me.new × (me.new.me.0 ≡ me.old.me.0) }
    ensures agree { StartsWith writer.new.me.0.seen.log me.new.me.0.seen.log }
    ensures base { 0 < length me.old.me.0.seen.image → me.old.me.0.base ≡ writer.old.me.0.base }
{
    let note = shared.split_seat::<Reads>(me);
    shared.join_seat::<Tells>(writer, note);
    shared.load::<Own>(writer, 0);
}
