//! Look-ups that take no latch.
ghost use Rattle.std.specs.Prelude.{◌≡◌, ◌<◌, length};
ghost use Rattle.olfit_rule.specs.Tree.{Good};
ghost use Rattle.olfit_rule.specs.Rule.{Follows};
ghost use Rattle.key_space.specs.Ranges.{IsNotEmpty};
ghost use Rattle.olfit_walk.specs.Looks.{CanLook, HasSeen, Tells, TellsPart, reading_of};
ghost use Rattle.olfit_walk.specs.Ways.{HasCome, HasFound, look_of};

use crate::answers::{Look, Looked, Part};
use crate::descend::next_node;
use crate::leaf::piece_of;
use crate::seek::{Turn, read_turn};
use key_space::{Key, Range};
use olfit_rule::{Hand, Read, Words, find_root, read_node};

/// How the way to a leaf ends.
#[derive(Drop)]
enum Way {
    /// The words of the leaf were read.
    Leaf,
    /// The node, and the versions that were loaded.
    Again(usize, u64, u64),
}

/// How the way to a key ends.
#[derive(Clone, Copy, Debug, PartialEq, Eq)]
enum End {
    /// The key has this value. None: it is absent.
    Found(Option<u64>),
    /// The node, and the versions that were loaded.
    Again(usize, u64, u64),
}

/// Goes from the root to the leaf into which a key belongs, and finds its value there.
fn seek(shared: &Words, me: &mut Hand, nodes: usize, key: u128) -> End
    requires { CanLook shared.now.table_id nodes me.old }
    ensures seat { Follows me.old me.new }
    ensures good { Good me.new.me.0.base me.new.me.0.seen }
    ensures loads { me.old.me.0.loads < me.new.me.0.loads }
    ensures found { HasFound key result me.new.me.0 }
{
    let mut at = find_root(shared, me, nodes) as usize;
    'way: loop {
        match read_turn(shared, me, at, key) {
            Turn::Next(next) => at = next,
            Turn::Value(value) => return End::Found(value),
            Turn::Again(first, second) => return End::Again(at, first, second),
        }
    }
}

/// Goes from the root to the leaf into which a key belongs, and copies its words.
fn read_leaf(shared: &Words, me: &mut Hand, nodes: usize, key: u128, words: &mut [u64; 64]) -> Way
    requires { CanLook shared.now.table_id nodes me.old }
    ensures seat { Follows me.old me.new }
    ensures good { Good me.new.me.0.base me.new.me.0.seen }
    ensures loads { me.old.me.0.loads < me.new.me.0.loads }
    ensures come { HasCome key words.new result me.new.me.0 }
{
    let mut node = find_root(shared, me, nodes) as usize;
    'way: loop {
        match read_node(shared, me, node, words) {
            Read::Again { first, second } => return Way::Again(node, first, second),
            Read::Whole => match next_node(words, 0, key) {
                Some(next) => node = next,
                None => return Way::Leaf,
            },
        }
    }
}

/// Looks a key up once in an index of so many nodes, for a reader that was told of `known` changes. It
/// returns whatever the writer does, takes no memory, and makes loads alone.
pub fn try_get(shared: &Words, me: &mut Hand, nodes: usize, key: Key, known: u64) -> Look
    requires seat { CanLook shared.now.table_id nodes me.old }
    requires known { known ≡ length me.old.me.0.told }
    ensures seat { CanLook shared.now.table_id nodes me.new }
    ensures answer { Tells key.number result (reading_of me.new) }
    ensures seen { HasSeen (reading_of me.old) (reading_of me.new) }
{
    match seek(shared, me, nodes, key.number) {
        End::Found(value) => looked(key, value, known),
        End::Again(node, first, second) => Look::Again {
            node,
            first,
            second,
        },
    }
}

/// Reads the first piece of a range once: its entries up to its last key or to the end of a leaf, whichever
/// comes first. It returns whatever the writer does, takes no memory, and makes loads alone.
pub fn try_chunk(shared: &Words, me: &mut Hand, nodes: usize, range: Range, known: u64) -> Part
    requires seat { CanLook shared.now.table_id nodes me.old }
    requires known { known ≡ length me.old.me.0.told }
    requires range { IsNotEmpty range }
    ensures seat { CanLook shared.now.table_id nodes me.new }
    ensures answer { TellsPart range result (reading_of me.new) }
    ensures seen { HasSeen (reading_of me.old) (reading_of me.new) }
{
    let mut words = [0; 64];
    match read_leaf(shared, me, nodes, range.lo.number, &mut words) {
        Way::Again(node, first, second) => Part::Again {
            node,
            first,
            second,
        },
        Way::Leaf => Part::Chunk(piece_of(&words, range, known)),
    }
}

/// What a look-up returns that found this of a key.
fn looked(key: Key, value: Option<u64>, known: u64) -> Look
    ensures { result ≡ look_of key value known }
{
    match value {
        Some(_) => Look::Found(Looked { key, value, known }),
        None => Look::Absent(Looked { key, value, known }),
    }
}
