//! The way from the root to the node of a level into which a key belongs.
ghost use Rattle.std.specs.Prelude.{◌≤◌};
ghost use Rattle.olfit_nodes.specs.Nodes.{count_of, entries_of, Rises};
ghost use Rattle.olfit_walk.specs.Ways.{IsNext};

use olfit_nodes::{child, level, right};

/// The next node on the way to the node of a level into which a key belongs: the right neighbour where the
/// key isn't below its low key, else, above that level, the child. None: the node is the one.
pub fn next_node(words: &[u64; 64], target: u64, key: u128) -> Option<usize>
    requires few { count_of words.now ≤ 16 }
    requires rises { Rises (entries_of words.now) }
    ensures { IsNext words.now target key result }
{
    if let Some(link) = right(words) {
        if link.key <= key {
            return Some(link.node);
        }
    }
    if level(words) == target {
        return None;
    }
    match child(words, key) {
        Some(node) => Some(node as usize),
        None => None,
    }
}
