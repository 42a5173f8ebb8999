//! The words of an index that is built of sorted entries.
ghost use Rattle.std.specs.Prelude.{◌≡◌, ℕ, ◌+◌, ◌-◌, ◌*◌, ◌^◌, ◌<◌, ◌≤◌, ◌++◌, ◌∷◌, [], ◌⊎◌};
ghost use Rattle.std.specs.Prelude.{IfOk, List, OnOk, length, replicate};
ghost use Rattle.olfit_walk.specs.Looks.{entries_of_keys};
ghost use Rattle.olfit_tree.specs.Build.{HasPut, HoldsTree, IsPiece, leads, level_nodes, low_at, nodes_over};
ghost use Rattle.olfit_tree.specs.Build.{nodes_with, per_leaf, right_at};

use key_space::Key;
use olfit_nodes::{Link, low, made};
use std::alloc::{AllocError, Global};

/// How many entries a node has room for.
const ENTRIES: usize = 16;

/// How many entries each leaf but the last one gets, in an index of so many nodes.
pub(crate) fn leaf_size(nodes: usize, rows: usize) -> usize
    requires { nodes < 2 ^ 32 }
    ensures { result ≡ per_leaf nodes rows }
{
    if rows <= 6 * nodes.saturating_sub(4) {
        8
    } else {
        ENTRIES
    }
}

/// How many nodes a level over so many entries has.
fn nodes_of_level(entries: usize, each: usize) -> usize
    requires few { entries < 2 ^ 32 }
    requires size { (each ≡ 8) ⊎ (each ≡ 16) }
    ensures { result ≡ level_nodes entries each }
{
    entries.div_ceil(each).max(1)
}

/// How many nodes a tree has over so many entries, with 16 in each full node.
pub(crate) fn nodes_needed(rows: usize) -> usize
    requires { rows < 2 ^ 32 }
    ensures { result ≡ nodes_over rows }
{
    let mut level = nodes_of_level(rows, ENTRIES);
    let mut nodes = level;
    while level > 1 {
        level = nodes_of_level(level, ENTRIES);
        nodes += level;
    }
    nodes
}

/// The words of an index of so many nodes over these entries, with so many in each full leaf, and how many of
/// its nodes are in use. The last of these is the root.
pub(crate) fn laid_out(
    alloc: Global,
    nodes: usize,
    each: usize,
    sorted: &[(Key, u64)],
) -> Result<(Vec<u64>, usize), AllocError>
    requires size { (each ≡ 8) ⊎ (each ≡ 16) }
    requires few { (length sorted.now < 2 ^ 32) × (nodes < 2 ^ 32) }
    requires room { nodes_with (length sorted.now) each ≤ nodes }
    ensures words { IfOk result (λ laid. (tree : List ℕ)
        × HoldsTree tree each laid.1 (entries_of_keys sorted.now)
        × (laid.0.items ≡ tree ++ replicate ((nodes - laid.1) * 64) 0 ++ (laid.1 - 1) ∷ [])) }
{
    let rows = numbered(alloc, sorted)?;
    let mut words = Vec::with_capacity(alloc, nodes * 64 + 1)?;
    put_levels(alloc, &mut words, rows.as_slice(), each)?;
    let used = words.len() / 64;
    words.resize(nodes * 64, 0)?;
    words.push(used as u64 - 1)?;
    Ok((words, used))
}

/// The entries with their keys as numbers.
fn numbered(alloc: Global, sorted: &[(Key, u64)]) -> Result<Vec<(u128, u64)>, AllocError>
    ensures { IfOk result (λ rows. rows.items ≡ entries_of_keys sorted.now) }
{
    sorted
        .iter()
        .map(|(key, value)| (key.number, *value))
        .collect(alloc)
}

/// Appends the levels of a tree over these rows, with so many in each full leaf, from the leaves up to the
/// root.
fn put_levels(
    alloc: Global,
    words: &mut Vec<u64>,
    rows: &[(u128, u64)],
    each: usize,
) -> Result<(), AllocError>
    requires none { words.old.items ≡ [] }
    requires size { (each ≡ 8) ⊎ (each ≡ 16) }
    requires few { length rows.now < 2 ^ 32 }
    requires room { nodes_with (length rows.now) each < 2 ^ 32 }
    ensures { OnOk result (HoldsTree words.new.items each (nodes_with (length rows.now) each) rows.now) }
{
    let mut entries = put_level(alloc, words, 0, rows, each)?;
    let mut level = 1;
    'levels: while entries.len() > 1 {
        entries = put_level(alloc, words, level, entries.as_slice(), ENTRIES)?;
        level += 1;
    }
    Ok(())
}

/// Appends the nodes of a level over these entries, with so many in each full node, and returns their low
/// keys and numbers.
fn put_level(
    alloc: Global,
    words: &mut Vec<u64>,
    level: u64,
    entries: &[(u128, u64)],
    each: usize,
) -> Result<Vec<(u128, u64)>, AllocError>
    requires size { (each ≡ 8) ⊎ (each ≡ 16) }
    requires level { level < 2 ^ 32 }
    requires few { (length entries.now < 2 ^ 32) }
    requires room { (first : ℕ) × (length words.old.items ≡ first * 64)
        × (first + level_nodes (length entries.now) each < 2 ^ 32) }
    ensures { IfOk result (λ above. (first : ℕ)
        × HasPut level first each entries.now words.old.items words.new.items
        (level_nodes (length entries.now) each)
        × (above.items ≡ leads first each entries.now (level_nodes (length entries.now) each))) }
{
    let first = words.len() / 64;
    let mut above = Vec::new(alloc);
    for i in 0..nodes_of_level(entries.len(), each) {
        let node = piece(level, first, each, entries, i);
        words.extend_from_slice(&node)?;
        above.push((low(&node), (first + i) as u64))?;
    }
    Ok(above)
}

/// Node `i` of a level over these entries, whose first node has this number.
fn piece(level: u64, first: usize, each: usize, entries: &[(u128, u64)], i: usize) -> [u64; 64]
    requires size { (each ≡ 8) ⊎ (each ≡ 16) }
    requires level { level < 2 ^ 32 }
    requires few { (length entries.now < 2 ^ 32) × (first + i + 1 < 2 ^ 32) }
    requires inside { (i ≡ 0) ⊎ (i * each < length entries.now) }
    ensures { IsPiece level first each entries.now i result }
{
    let start = i * each;
    let end = entries.len().min(start + each);
    let right = right_of_piece(entries, start + each, first + i + 1);
    let mut words = made(
        level,
        low_of_piece(entries, start),
        right,
        &entries[start..end],
    );
    // The version: even, as nothing changes the node.
    words[0] = 0;
    words
}

/// The low key of the node whose entries begin in this place: 0 where it is the first of its level.
fn low_of_piece(entries: &[(u128, u64)], start: usize) -> u128
    requires { (start ≡ 0) ⊎ (start < length entries.now) }
    ensures { result ≡ low_at entries.now start }
{
    if start == 0 { 0 } else { entries[start].0 }
}

/// The right neighbour of the node whose entries end before this place.
fn right_of_piece(entries: &[(u128, u64)], end: usize, node: usize) -> Option<Link>
    ensures { result ≡ right_at entries.now end node }
{
    entries.get(end).map(|entry| Link { key: entry.0, node })
}
