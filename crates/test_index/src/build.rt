// Indexes that are built of sorted entries.
ghost use Rattle.std.specs.Prelude.{◌≡◌, ◌<◌, IfOk, IfSome, length};
ghost use Rattle.olfit_nodes.specs.Nodes.{Rises};
ghost use Rattle.olfit_walk.specs.Looks.{entries_of_keys};

use crate::trees::{find_all, has, put, take};
use key_space::{Key, Range};
use olfit_tree::{AddFault, Index, Part, Reader, Writer};
use std::alloc::{AllocError, Global};

/// The keys 1, 4, 7 and so on with the values 0, 1, 2 and so on.
fn rows(alloc: Global, count: u32) -> Result<Vec<(Key, u64)>, AllocError>
    ensures rises { IfOk result (λ rows. Rises (entries_of_keys rows.items)) }
    ensures count { IfOk result (λ rows. length rows.items ≡ count) }
{
    let mut rows = Vec::new(alloc);
    for n in 0..count {
        let number = u128::from(n) * 3 + 1;
        rows.push((Key { number }, u64::from(n)))?;
    }
    Ok(rows)
}

/// An index of so many nodes, or as many as it needs, that is built of so many of these rows; and a reader.
fn built(alloc: Global, nodes: u32, count: u32) -> Option<(Index, Writer, Reader)>
    requires { 0 < nodes }
    ensures writer { IfSome result (λ made. made.1.table ≡ made.0.table) }
    ensures reader { IfSome result (λ made. made.2.table ≡ made.0.table) }
{
    let rows = rows(alloc, count).ok()?;
    let (index, mut writer) = Index::build(alloc, 0, nodes, rows.as_slice()).ok()?;
    let reader = writer.reader(&index).ok()?;
    Some((index, writer, reader))
}

/// How many entries the first leaf has. None: it is to be read again.
fn first_leaf(index: &Index, reader: &mut Reader) -> Option<usize>
    requires { reader.old.table ≡ index.now.table }
    ensures { reader.new.table ≡ index.now.table }
{
    let all = Range {
        lo: Key { number: 0 },
        hi: Key { number: u128::MAX },
    };
    match reader.try_chunk(index, all) {
        Part::Chunk(piece) => Some(piece.entries.len()),
        Part::Again { .. } => None,
    }
}

/// What an index of so many nodes has to be, built of so many rows.
#[derive(Clone, Copy, Debug)]
struct Wanted {
    nodes: u32,
    count: u32,
    /// How many entries its first leaf has.
    first: usize,
    /// Whether a key can be added to that leaf.
    room: bool,
}

/// Whether an index that is built so has its rows, takes a key and drops one, and gives all in the end.
fn is_as_wanted(alloc: Global, wanted: Wanted) -> Option<bool> {
    if wanted.nodes == 0 {
        return None;
    }
    let (index, mut writer, mut reader) = built(alloc, wanted.nodes, wanted.count)?;
    let found = find_all(&index, &mut reader, wanted.count);
    let first = first_leaf(&index, &mut reader);
    let added = put(&index, &mut writer, 0, 7);
    let dropped = take(&index, &mut writer, 1);
    let seen = has(&index, &mut reader, 0, if added { Some(7) } else { None });
    let readers = Vec::from_array(alloc, [reader]).ok()?;
    let all = index.finish(alloc, writer, readers).ok()?;
    let rest = wanted.count.saturating_sub(1) as usize;
    Some(
        found == wanted.count.saturating_mul(2)
            && first == Some(wanted.first)
            && added == wanted.room
            && dropped.is_some() == (wanted.count > 0)
            && seen
            && all.len() == if added { rest.saturating_add(1) } else { rest },
    )
}

/// One empty leaf, one leaf, leaves of 8 and of 16 entries, and up to four levels.
#[test]
fn shapes(rt: HostRuntime) {
    for (nodes, count, first, room) in [
        (16, 0, 0, true),
        (16, 1, 1, true),
        (16, 8, 8, true),
        (16, 9, 8, true),
        (16, 72, 8, true),
        (16, 73, 16, true),
        (26, 129, 8, true),
        (26, 132, 8, true),
        (26, 133, 16, true),
        (1, 1, 1, true),
        (1, 16, 16, false),
        (1, 17, 16, false),
        (1, 256, 16, false),
        (1, 257, 16, false),
        (1_000, 2_100, 8, true),
        (1, 4_097, 16, false),
    ] {
        let wanted = Wanted {
            nodes,
            count,
            first,
            room,
        };
        let right = is_as_wanted(rt.alloc(), wanted);
        assert!(rt; right == Some(true), "{wanted:?}");
    }
}

/// The numbers of the fault at a key that is below all others. None: it could be added, or is there.
fn full(index: &Index, writer: &mut Writer) -> Option<(u32, u32, u64, u64)>
    requires { writer.old.table ≡ index.now.table }
    ensures { writer.new.table ≡ index.now.table }
{
    match writer.may_add(index, Key { number: 0 }) {
        Err(
            AddFault::NodesFull {
                used,
                limit,
                built,
                inserts,
            },
        ) => Some((used, limit, built, inserts)),
        Err(AddFault::Present { .. }) | Ok(()) => None,
    }
}

/// An index has as many nodes as its rows need with 16 entries in each full node, where those asked for are
/// fewer.
#[test]
fn nodes_as_needed(rt: HostRuntime) {
    for (count, needed) in [
        (16, 1),
        (17, 3),
        (256, 17),
        (257, 20),
        (4_096, 273),
        (4_097, 277),
    ] {
        let Some((index, mut writer, _)) = built(rt.alloc(), 1, count) else {
            panic!(rt; "memory");
        };
        let fault = full(&index, &mut writer);
        assert!(rt;
            fault == Some((needed, needed, u64::from(count), 0)),
            "{count} rows"
        );
    }
}

/// An index of 16 nodes without rows takes the keys from 1 to 128 in this order: the first leaf keeps 8 of
/// them, and a further key would need a seventeenth node.
#[test]
fn from_no_rows(rt: HostRuntime) {
    let Some((index, mut writer, mut reader)) = built(rt.alloc(), 16, 0) else {
        panic!(rt; "memory");
    };
    let seventeen = put_up_to(&index, &mut writer, 17);
    let first = first_leaf(&index, &mut reader);
    assert!(rt; seventeen == 17 && first == Some(8));
    let more = put_up_to(&index, &mut writer, 200);
    assert!(rt; more == 111);
    let added = put(&index, &mut writer, 129, 0);
    let fault = match writer.may_add(&index, Key { number: 129 }) {
        Err(
            AddFault::NodesFull {
                used,
                limit,
                built,
                inserts,
            },
        ) => Some((used, limit, built, inserts)),
        Err(AddFault::Present { .. }) | Ok(()) => None,
    };
    let present = match writer.may_add(&index, Key { number: 5 }) {
        Err(AddFault::Present { value }) => Some(value),
        Err(AddFault::NodesFull { .. }) | Ok(()) => None,
    };
    assert!(rt; !added && fault == Some((16, 16, 0, 128)) && present == Some(5));
}

/// Adds the keys from 1 to `last`, with themselves as values, and answers how many were added.
fn put_up_to(index: &Index, writer: &mut Writer, last: u32) -> u32
    requires { writer.old.table ≡ index.now.table }
    ensures { writer.new.table ≡ index.now.table }
{
    let mut added = 0u32;
    for n in 0..last {
        let number = u64::from(n) + 1;
        if put(index, writer, number, number) {
            added = added.saturating_add(1);
        }
    }
    added
}
