// Records: those that a script leaves, and bytes that are none.
use std::alloc::Global;
use std::test::Fail;
use xor_records::{
    Diff, Head, Image, Kind, diff_bytes, read_rec, span, write_commit, write_diff, write_end,
};

/// A change of 31 bytes: transaction 5, table 2, page 7, stamp 9, offset 4,090 and four XOR bytes.
const CHANGE: [u8; 31] = [
    1, 5, 0, 0, 0, 0, 0, 0, 0, 2, 0, 7, 0, 0, 0, 9, 0, 0, 0, 0, 0, 0, 0, 250, 15, 4, 0, 1, 0, 0, 8,
];

/// What the first `len` bytes of the change are read as once the byte at a place is another: how many bytes
/// the record has, or the place of the fault.
fn read_changed(at: usize, byte: u8, len: usize) -> Result<usize, u64> {
    let mut bytes = CHANGE;
    if at < 31 {
        bytes[at] = byte;
    }
    if len > 31 {
        return Err(1000);
    }
    match read_rec(&bytes[..len]) {
        Ok((_, len)) => Ok(len),
        Err(bad) => Err(bad.at),
    }
}

/// A place, the byte there, how many bytes are read, and the place of the fault.
const HOSTILE: [(usize, u8, usize, u64); 64] = [
    (0, 1, 0, 0),
    (0, 1, 1, 1),
    (0, 1, 2, 2),
    (0, 1, 3, 3),
    (0, 1, 4, 4),
    (0, 1, 5, 5),
    (0, 1, 6, 6),
    (0, 1, 7, 7),
    (0, 1, 8, 8),
    (0, 1, 9, 9),
    (0, 1, 10, 10),
    (0, 1, 11, 11),
    (0, 1, 12, 12),
    (0, 1, 13, 13),
    (0, 1, 14, 14),
    (0, 1, 15, 15),
    (0, 1, 16, 16),
    (0, 1, 17, 17),
    (0, 1, 18, 18),
    (0, 1, 19, 19),
    (0, 1, 20, 20),
    (0, 1, 21, 21),
    (0, 1, 22, 22),
    (0, 1, 23, 23),
    (0, 1, 24, 24),
    (0, 1, 25, 25),
    (0, 1, 26, 26),
    (0, 1, 27, 27),
    (0, 1, 28, 28),
    (0, 1, 29, 29),
    (0, 1, 30, 30),
    (0, 0, 31, 0),
    (0, 4, 31, 0),
    (0, 255, 31, 0),
    (0, 0, 1, 0),
    (1, 0, 31, 1),
    (1, 0, 9, 1),
    (1, 0, 8, 8),
    (15, 0, 31, 15),
    (15, 0, 23, 15),
    (15, 0, 22, 22),
    (23, 253, 31, 25),
    (23, 255, 31, 25),
    (24, 16, 31, 25),
    (24, 255, 31, 25),
    (25, 0, 31, 25),
    (25, 0, 27, 25),
    (25, 0, 26, 26),
    (25, 7, 31, 25),
    (25, 255, 31, 25),
    (26, 1, 31, 25),
    (26, 16, 31, 25),
    (26, 255, 31, 25),
    (25, 5, 31, 31),
    (25, 6, 31, 31),
    (25, 1, 27, 27),
    (27, 0, 31, 27),
    (30, 0, 31, 27),
    (25, 2, 31, 27),
    (25, 3, 31, 27),
    (0, 2, 8, 8),
    (0, 3, 8, 8),
    (0, 2, 1, 1),
    (0, 3, 0, 0),
];

/// A place, the byte there, how many bytes are read, and how many the record has.
const SOUND: [(usize, u8, usize, usize); 19] = [
    (0, 1, 31, 31),
    (0, 2, 31, 9),
    (0, 2, 9, 9),
    (0, 3, 31, 9),
    (0, 3, 9, 9),
    (1, 255, 31, 31),
    (8, 255, 31, 31),
    (9, 255, 31, 31),
    (10, 255, 31, 31),
    (11, 0, 31, 31),
    (14, 255, 31, 31),
    (22, 255, 31, 31),
    (23, 252, 31, 31),
    (24, 0, 31, 31),
    (25, 1, 31, 28),
    (25, 4, 31, 31),
    (27, 255, 31, 31),
    (28, 7, 31, 31),
    (30, 1, 31, 31),
];

#[test]
fn bytes_that_are_no_record_are_refused_at_the_first_fault(rt: HostRuntime) {
    for (at, byte, len, want) in HOSTILE {
        assert_eq!(rt;
            read_changed(at, byte, len),
            Err(want),
            "{byte} at {at}, {len} bytes"
        );
    }
}

#[test]
fn records_are_read_whatever_follows_them(rt: HostRuntime) {
    for (at, byte, len, want) in SOUND {
        assert_eq!(rt;
            read_changed(at, byte, len),
            Ok(want),
            "{byte} at {at}, {len} bytes"
        );
    }
}

/// The slots of a table of two whole numbers: empty, with 1 and 10, with 1 and 20.
const EMPTY: [u8; 17] = [0; 17];

const TEN: [u8; 17] = [1, 1, 0, 0, 0, 0, 0, 0, 0, 10, 0, 0, 0, 0, 0, 0, 0];

const TWENTY: [u8; 17] = [1, 1, 0, 0, 0, 0, 0, 0, 0, 20, 0, 0, 0, 0, 0, 0, 0];

/// Writes the change of a slot at the front of a page, and that its transaction committed. How many bytes
/// that takes.
fn write_block(into: &mut [u8], txn: u64, before: &[u8], after: &[u8]) -> usize {
    if before.len() != after.len() || before.len() > 17 || into.len() < 64 || txn == 0 || txn > 9 {
        return 0;
    }
    let Some(diff) = span(before, after) else {
        return 0;
    };
    let Diff { offset, length } = diff;
    let mut xor = [0u8; 17];
    diff_bytes(before, after, &diff, &mut xor[..length]);
    let head = Head {
        txn,
        table: 0,
        page: 0,
        stamp: txn,
        offset: offset as u16,
    };
    let end = write_diff(into, &head, &xor[..length]);
    end + write_commit(&mut into[end..], txn)
}

#[test]
fn an_insert_and_an_update_are_spelled_so(rt: HostRuntime) {
    let mut bytes = [255u8; 64];
    assert_eq!(rt; write_block(&mut bytes, 1, &EMPTY, &TEN), 46);
    assert!(rt;
        bytes.starts_with(&[
            1, 1, 0, 0, 0, 0, 0, 0, 0, 0, 0, 0, 0, 0, 0, 1, 0, 0, 0, 0, 0, 0, 0, 0, 0, 10, 0, 1, 1,
            0, 0, 0, 0, 0, 0, 0, 10, 2, 1, 0, 0, 0, 0, 0, 0, 0,
        ])
    );
    assert_eq!(rt; write_block(&mut bytes, 2, &TEN, &TWENTY), 37);
    assert!(rt;
        bytes.starts_with(&[
            1, 2, 0, 0, 0, 0, 0, 0, 0, 0, 0, 0, 0, 0, 0, 2, 0, 0, 0, 0, 0, 0, 0, 9, 0, 1, 0, 30, 2,
            2, 0, 0, 0, 0, 0, 0, 0,
        ])
    );
    assert_eq!(rt; write_block(&mut bytes, 3, &TEN, &TEN), 0);
    assert_eq!(rt; write_end(&mut bytes, 3), 9);
    assert!(rt; bytes.starts_with(&[3, 3, 0, 0, 0, 0, 0, 0, 0, 0]));
}

/// What kind a kept record is of: its transaction and how many XOR bytes it has.
fn kept(alloc: Global, kind: u8) -> Result<(u64, usize), Fail> {
    let mut bytes = CHANGE;
    bytes[0] = kind;
    let Ok((view, _)) = read_rec(&bytes) else {
        return Err(Fail::from("no record"));
    };
    let rec = view.keep(alloc)?;
    Ok(match rec.view().kind() {
        Kind::Diff { head, xor } => (head.txn, xor.len()),
        Kind::Commit { txn } => (txn, 0),
        Kind::End { txn } => (txn, 100),
    })
}

#[test]
fn records_and_images_are_kept_with_ample_memory(rt: HostRuntime) -> Result<(), Fail> {
    for (kind, want) in [(1, (5, 4)), (2, (5, 0)), (3, (5, 100))] {
        assert_eq!(rt; kept(rt.alloc(), kind)?, want);
    }
    let image = Image::new(1, 2, 3, CHANGE.to_vec(rt.alloc())?);
    assert_eq!(rt; (image.table(), image.page(), image.stamp()), (1, 2, 3));
    assert_eq!(rt; image.bytes(), CHANGE.as_slice());
    Ok(())
}
