// What a node has beside its entries.
ghost use Rattle.std.specs.Prelude.{◌≡◌, ◌+◌, ◌*◌, ◌/◌, ◌%◌, ◌^◌, ◌<◌, ◌≤◌, [], None, Some, length};
ghost use Rattle.std.specs.Option.{ForSome};
ghost use Rattle.std.specs.Prelude.{slice_index};
ghost use Rattle.olfit_nodes.specs.Nodes.{number_of, entries_of, level_of, low_of, right_of, IsClear};

use crate::entries::insert_at;

/// A node's right neighbour.
#[derive(Clone, Copy, Debug, PartialEq, Eq)]
pub struct Link {
    /// The neighbour's low key: keys from this one on belong to it or further right.
    pub key: u128,
    /// The neighbour's number.
    pub node: usize,
}

/// The number whose halves of 64 bits these are.
pub fn number(high: u64, low: u64) -> u128
    ensures { result ≡ number_of high low }
{
    (u128::from(high) << 64) + u128::from(low)
}

/// The upper 64 bits.
pub(crate) fn high_half(number: u128) -> u64
    ensures { result ≡ number / 2 ^ 64 }
{
    (number >> 64) as u64
}

/// The lower 64 bits.
pub(crate) fn low_half(number: u128) -> u64
    ensures { result ≡ number % 2 ^ 64 }
{
    (number % (1 << 64)) as u64
}

/// How far the node is above the leaves: 0 for a leaf.
pub fn level(words: &[u64; 64]) -> u64
    ensures { result ≡ level_of words.now }
{
    words[6] / 65_536
}

/// The least key that belongs into the node.
pub fn low(words: &[u64; 64]) -> u128
    ensures { result ≡ low_of words.now }
{
    number(words[1], words[2])
}

/// The right neighbour. None: the node is the last one of its level.
pub fn right(words: &[u64; 64]) -> Option<Link>
    ensures { result ≡ right_of words.now }
{
    if words[5] == 0 {
        return None;
    }
    Some(Link {
        key: number(words[3], words[4]),
        node: (words[5] - 1) as usize,
    })
}

/// Sets the right neighbour, and nothing else.
pub fn set_right(words: &mut [u64; 64], right: Link)
    requires { right.node < 2 ^ 32 }
    ensures right { right_of words.new ≡ Some right }
    ensures low { low_of words.new ≡ low_of words.old }
    ensures level { level_of words.new ≡ level_of words.old }
    ensures entries { entries_of words.new ≡ entries_of words.old }
    ensures version { slice_index words.new 0 ≡ slice_index words.old 0 }
    ensures clear { IsClear words.old → IsClear words.new }
{
    words[3] = high_half(right.key);
    words[4] = low_half(right.key);
    words[5] = right.node as u64 + 1;
}

/// A node with no entry and no right neighbour, of version 0.
fn empty(level: u64, low: u128) -> [u64; 64]
    requires { level < 2 ^ 32 }
    ensures low { low_of result ≡ low }
    ensures right { right_of result ≡ None }
    ensures level { level_of result ≡ level }
    ensures entries { entries_of result ≡ [] }
    ensures version { slice_index result 0 ≡ 0 }
    ensures clear { IsClear result }
{
    let mut words = [0; 64];
    words[1] = high_half(low);
    words[2] = low_half(low);
    words[6] = level * 65_536;
    words
}

/// A node with these entries, of version 0.
pub fn made(level: u64, low: u128, right: Option<Link>, entries: &[(u128, u64)]) -> [u64; 64]
    requires level { level < 2 ^ 32 }
    requires right { ForSome right (λ link. link.node < 2 ^ 32) }
    requires few { length entries.now ≤ 16 }
    ensures low { low_of result ≡ low }
    ensures right { right_of result ≡ right }
    ensures level { level_of result ≡ level }
    ensures entries { entries_of result ≡ entries.now }
    ensures version { slice_index result 0 ≡ 0 }
    ensures clear { IsClear result }
{
    let mut words = linked(empty(level, low), right);
    for (place, (key, value)) in entries.iter().enumerate() {
        insert_at(&mut words, place, *key, *value);
    }
    words
}

/// The node with this right neighbour, where it has none yet.
fn linked(mut words: [u64; 64], right: Option<Link>) -> [u64; 64]
    requires right { ForSome right (λ link. link.node < 2 ^ 32) }
    requires none { right_of words ≡ None }
    ensures right { right_of result ≡ right }
    ensures low { low_of result ≡ low_of words }
    ensures level { level_of result ≡ level_of words }
    ensures entries { entries_of result ≡ entries_of words }
    ensures version { slice_index result 0 ≡ slice_index words 0 }
    ensures clear { IsClear words → IsClear result }
{
    if let Some(link) = right {
        set_right(&mut words, link);
    }
    words
}
