// Pieces of ranges, and how many changes a reader knows.
ghost use Rattle.std.specs.Prelude.{◌≡◌, IfSome};
ghost use Rattle.key_space.specs.Ranges.{IsNotEmpty};

use crate::trees::{put, take};
use key_space::{Key, Range};
use olfit_tree::{Index, Look, Looked, Part, Piece, Reader, Writer};
use std::alloc::Global;
use std::sync::Wait;

/// An index to which so many of the keys 10, 20 and so on were added, in this order, each with a tenth of
/// itself as value, and from which those from the `dropped.0`th to the `dropped.1`th were dropped; its writer;
/// and a reader that knows all this.
fn tens(alloc: Global, keys: u64, dropped: (u64, u64)) -> Option<(Index, Writer, Reader)>
    ensures writer { IfSome result (λ made. made.1.table ≡ made.0.table) }
    ensures reader { IfSome result (λ made. made.2.table ≡ made.0.table) }
{
    let (index, mut writer) = Index::empty(alloc, 0, 1_000).ok()?;
    add_tens(&index, &mut writer, keys);
    drop_tens(&index, &mut writer, dropped);
    let reader = writer.reader(&index).ok()?;
    Some((index, writer, reader))
}

fn add_tens(index: &Index, writer: &mut Writer, keys: u64)
    requires { writer.old.table ≡ index.now.table }
    ensures { writer.new.table ≡ index.now.table }
{
    for n in 1..keys.min(10_000) + 1 {
        put(index, writer, n * 10, n);
    }
}

fn drop_tens(index: &Index, writer: &mut Writer, dropped: (u64, u64))
    requires { writer.old.table ≡ index.now.table }
    ensures { writer.new.table ≡ index.now.table }
{
    for n in dropped.0..dropped.1.min(10_000) + 1 {
        take(index, writer, n * 10);
    }
}

fn range(lo: u128, hi: u128) -> Range
    ensures lo { result.lo.number ≡ lo }
    ensures hi { result.hi.number ≡ hi }
{
    Range {
        lo: Key { number: lo },
        hi: Key { number: hi },
    }
}

/// What a piece has to be: up to which key it goes, the first key in it, and how many keys there are.
#[derive(Clone, Copy, Debug)]
struct Wanted {
    upto: u128,
    first: u128,
    count: usize,
}

impl Wanted {
    /// Whether a piece is this one.
    fn is(&self, from: u128, piece: &Piece) -> bool {
        piece.from.number == from
            && piece.upto.number == self.upto
            && piece.entries.len() == self.count
            && piece.entries.as_slice().iter().enumerate().all(|(i, (key, value))| {
                key.number == self.first.saturating_add(10 * i as u128)
                    && u128::from(*value) == key.number / 10
            })
    }
}

/// Whether both calls give this piece.
fn both_give<R: Wait>(
    rt: &R,
    index: &Index,
    reader: &mut Reader,
    range: Range,
    wanted: Wanted,
) -> bool
    requires index { reader.old.table ≡ index.now.table }
    requires range { IsNotEmpty range }
    ensures { reader.new.table ≡ index.now.table }
{
    let first = match reader.try_chunk(index, range) {
        Part::Chunk(piece) => wanted.is(range.lo.number, &piece),
        Part::Again { .. } => false,
    };
    let piece = reader.chunk(rt, index, range);
    first && wanted.is(range.lo.number, &piece)
}

const TOP: u128 = u128::MAX;

/// Two leaves: one with the keys from 10 to 80, and one with those from 90 to 170, whose low key is 90.
#[test]
fn pieces_of_two_leaves(rt: HostRuntime) {
    let Some((index, _, mut reader)) = tens(rt.alloc(), 17, (1, 0)) else {
        panic!(rt; "memory");
    };
    for (lo, hi, upto, first, count) in [
        (0, TOP, 89, 10, 8),
        (0, 5, 5, 0, 0),
        (10, 10, 10, 10, 1),
        (15, 95, 89, 20, 7),
        (80, 89, 89, 80, 1),
        (81, 89, 89, 0, 0),
        (81, 200, 89, 0, 0),
        (89, 90, 89, 0, 0),
        (90, 90, 90, 90, 1),
        (90, 1_000, 1_000, 90, 9),
        (165, TOP, TOP, 170, 1),
        (171, TOP, TOP, 0, 0),
        (TOP, TOP, TOP, 0, 0),
    ] {
        let wanted = Wanted { upto, first, count };
        assert!(rt; lo <= hi);
        assert!(rt;
            both_give(&rt, &index, &mut reader, range(lo, hi), wanted),
            "{lo} to {hi}"
        );
    }
}

/// Three leaves, with the low keys 0, 90 and 170. All keys of the second one were dropped.
#[test]
fn pieces_of_an_emptied_leaf(rt: HostRuntime) {
    let Some((index, _, mut reader)) = tens(rt.alloc(), 25, (9, 16)) else {
        panic!(rt; "memory");
    };
    for (lo, hi, upto, first, count) in [
        (0, 300, 89, 10, 8),
        (90, 300, 169, 0, 0),
        (100, 120, 120, 0, 0),
        (169, 170, 169, 0, 0),
        (170, 300, 300, 170, 9),
    ] {
        let wanted = Wanted { upto, first, count };
        assert!(rt; lo <= hi);
        assert!(rt;
            both_give(&rt, &index, &mut reader, range(lo, hi), wanted),
            "{lo} to {hi}"
        );
    }
}

/// Reads all keys piece by piece: how many pieces there are, and how many entries. None: an entry isn't in
/// its place.
fn read_all<R: Wait>(rt: &R, index: &Index, reader: &mut Reader) -> Option<(usize, usize)>
    requires { reader.old.table ≡ index.now.table }
    ensures { reader.new.table ≡ index.now.table }
{
    let (mut lo, mut entries) = (0u128, 0usize);
    for pieces in 1..10_000usize {
        let piece = reader.chunk(rt, index, range(lo, TOP));
        for (key, value) in piece.entries.as_slice() {
            entries = entries.saturating_add(1);
            if key.number != 10 * entries as u128 || u128::from(*value) != entries as u128 {
                return None;
            }
        }
        match piece.upto.number.checked_add(1) {
            Some(next) => lo = next,
            None => return Some((pieces, entries)),
        }
    }
    None
}

/// A leaf that was split has 8 entries, and an emptied one still gives a piece.
#[test]
fn pieces_of_all_keys(rt: HostRuntime) {
    for (keys, leaves) in [(0, 1), (1, 1), (16, 1), (17, 2), (200, 24), (5_000, 624)] {
        let Some((index, mut writer, mut reader)) = tens(rt.alloc(), keys, (1, 0)) else {
            panic!(rt; "memory");
        };
        let whole = read_all(&rt, &index, &mut reader);
        assert!(rt; whole == Some((leaves, keys as usize)), "{keys} keys");
        drop_tens(&index, &mut writer, (1, keys));
        let rest = read_all(&rt, &index, &mut reader);
        assert!(rt; rest == Some((leaves, 0)), "{keys} keys");
    }
}

/// Whether look-ups of a key give this, with so many changes known.
fn knows<R: Wait>(
    rt: &R,
    index: &Index,
    reader: &mut Reader,
    number: u128,
    value: Option<u64>,
    known: u64,
) -> bool
    requires { reader.old.table ≡ index.now.table }
    ensures { reader.new.table ≡ index.now.table }
{
    let key = Key { number };
    let looked = Looked { key, value, known };
    let wanted = match value {
        Some(_) => Look::Found(looked),
        None => Look::Absent(looked),
    };
    reader.try_get(index, key) == wanted && reader.get(rt, index, key) == looked
}

/// A reader finds what was added since it met the writer, but doesn't count it as known.
#[test]
fn what_a_reader_knows(rt: HostRuntime) {
    let Some((index, mut writer, mut reader)) = tens(rt.alloc(), 3, (2, 2)) else {
        panic!(rt; "memory");
    };
    assert!(rt; knows(&rt, &index, &mut reader, 20, None, 4));
    assert!(rt; put(&index, &mut writer, 20, 2));
    assert!(rt; knows(&rt, &index, &mut reader, 20, Some(2), 4));
    assert!(rt; writer.meet(&index, &mut reader).is_ok());
    assert!(rt; knows(&rt, &index, &mut reader, 20, Some(2), 5));
    assert!(rt; take(&index, &mut writer, 25) == None && writer.changes() == 5);
    let piece = reader.chunk(&rt, &index, range(10, 30));
    let wanted = Wanted {
        upto: 30,
        first: 10,
        count: 3,
    };
    assert!(rt; wanted.is(10, &piece) && piece.known == 5);
}
