ghost use Rattle.std.specs.Prelude.{◌≡◌};

use key_space::Key;
use olfit_tree::{Index, Look, Reader, Writer};

pub(crate) fn key(number: u128) -> Key {
    Key { number }
}

/// Adds a key, and answers whether it was added.
pub(crate) fn put(index: &Index, writer: &mut Writer, number: u64, value: u64) -> bool
    requires { writer.old.table ≡ index.now.table }
    ensures { writer.new.table ≡ index.now.table }
{
    if writer.changes() >= 1 << 60 {
        return false;
    }
    match writer.add(index, key(u128::from(number)), value) {
        Ok(()) => true,
        Err(_) => false,
    }
}

/// Drops a key, and returns its value.
pub(crate) fn take(index: &Index, writer: &mut Writer, number: u64) -> Option<u64>
    requires { writer.old.table ≡ index.now.table }
    ensures { writer.new.table ≡ index.now.table }
{
    if writer.changes() >= 1 << 60 {
        return None;
    }
    match writer.drop_key(index, key(u128::from(number))) {
        Some(value) => Some(value),
        None => None,
    }
}

/// Adds the keys 1, 4, 7 and so on with the values 0, 1, 2 and so on. Answers how many were added.
fn fill(index: &Index, writer: &mut Writer, count: u32) -> u32
    requires { writer.old.table ≡ index.now.table }
    ensures { writer.new.table ≡ index.now.table }
{
    let mut added = 0u32;
    for n in 0..count {
        if put(index, writer, u64::from(n) * 3 + 1, u64::from(n)) {
            added = added.saturating_add(1);
        }
    }
    added
}

/// Whether a key has this value. None: whether it is absent.
pub(crate) fn has(index: &Index, reader: &mut Reader, number: u64, wanted: Option<u64>) -> bool
    requires { reader.old.table ≡ index.now.table }
    ensures { reader.new.table ≡ index.now.table }
{
    match reader.try_get(index, key(u128::from(number))) {
        Look::Found(looked) | Look::Absent(looked) => looked.value == wanted,
        Look::Again { .. } => false,
    }
}

/// How many look-ups give what they should after `fill`, of two for each key.
pub(crate) fn find_all(index: &Index, reader: &mut Reader, count: u32) -> u32
    requires { reader.old.table ≡ index.now.table }
    ensures { reader.new.table ≡ index.now.table }
{
    let mut right = 0u32;
    for n in 0..count {
        if has(index, reader, u64::from(n) * 3 + 1, Some(u64::from(n))) {
            right = right.saturating_add(1);
        }
        if has(index, reader, u64::from(n) * 3 + 2, None) {
            right = right.saturating_add(1);
        }
    }
    right
}

#[test]
fn shapes(rt: HostRuntime) {
    let alloc = rt.alloc();
    for count in [0u32, 1, 2, 16, 17, 136, 137, 5000] {
        let Ok((index, mut writer)) = Index::empty(alloc, 0, 1_000) else {
            panic!(rt; "memory");
        };
        let Ok(mut reader) = writer.reader(&index) else {
            panic!(rt; "memory");
        };
        let added = fill(&index, &mut writer, count);
        let right = find_all(&index, &mut reader, count);
        assert!(rt; added == count && right == count.saturating_mul(2));
        let Ok(readers) = Vec::from_array(alloc, [reader]) else {
            panic!(rt; "memory");
        };
        let Ok(all) = index.finish(alloc, writer, readers) else {
            panic!(rt; "memory");
        };
        assert!(rt; all.len() == count as usize);
    }
}

/// Drops the keys that `fill` added, and answers how many had their values.
fn empty_out(index: &Index, writer: &mut Writer, count: u32) -> u32
    requires { writer.old.table ≡ index.now.table }
    ensures { writer.new.table ≡ index.now.table }
{
    let mut dropped = 0u32;
    for n in 0..count {
        if take(index, writer, u64::from(n) * 3 + 1) == Some(u64::from(n)) {
            dropped = dropped.saturating_add(1);
        }
    }
    dropped
}

#[test]
fn full_and_empty(rt: HostRuntime) {
    let alloc = rt.alloc();
    let Ok((index, mut writer)) = Index::empty(alloc, 0, 16) else {
        panic!(rt; "memory");
    };
    let Ok(mut reader) = writer.reader(&index) else {
        panic!(rt; "memory");
    };
    let added = fill(&index, &mut writer, 200);
    let seen = find_all(&index, &mut reader, added);
    assert!(rt; added == 128 && seen == 256 && writer.changes() == 128);
    let dropped = empty_out(&index, &mut writer, 200);
    let absent = has(&index, &mut reader, 1, None);
    assert!(rt; dropped == 128 && absent && writer.changes() == 256);
    let Ok(all) = index.finish(alloc, writer, Vec::new(alloc)) else {
        panic!(rt; "memory");
    };
    assert!(rt; all.is_empty());
}
