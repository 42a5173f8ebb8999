// What no clause says: that a log file is opened with ample memory, or found damaged, whatever its bytes.
use crate::program::disk;
use disk_core::MemDisk;
use fake_keeper::schema;
use list_store::ListStore;
use std::alloc::{AllocError, Global};
use std::test::Fail;

/// How a log file of two tables is opened: the fault as text, or `open`.
fn opening(alloc: Global, disk: MemDisk) -> Result<String, Fail> {
    let schema = schema(
        alloc,
        "CREATE TABLE kv (id INT PRIMARY KEY, n INT); CREATE TABLE t (t TEXT(2), id INT PRIMARY KEY)",
    )?;
    match ListStore::open(alloc, &schema, disk) {
        Ok(store) => {
            drop(store.into_disk());
            Ok(String::from_str(alloc, "open")?)
        }
        Err((fault, disk)) => {
            drop(disk);
            Ok(format!(in alloc; "{fault}")?)
        }
    }
}

/// A log file with these bodies of batches, and with this byte behind them.
fn log_of(alloc: Global, bodies: &[&[u8]], end: &[u8]) -> Result<Vec<u8>, AllocError> {
    let mut bytes = b"\x01\x02\0\0\0\0\0\0\0\0\0".to_vec(alloc)?;
    for body in bodies {
        let len = u32::try_from(body.len()).unwrap_or(u32::MAX);
        bytes.push(1)?;
        bytes.extend_from_slice(&len.to_le_bytes())?;
        bytes.extend_from_slice(body)?;
    }
    bytes.extend_from_slice(end)?;
    Ok(bytes)
}

/// The row 7, 9 of the first table.
const PUT: &[u8] = b"\x01\0\0\x01\x07\0\0\0\0\0\0\0\x09\0\0\0\0\0\0\0";

/// The row of key 7 is taken away.
const DEL: &[u8] = b"\x02\0\0\x07\0\0\0\0\0\0\0";

/// Both.
const BOTH: &[u8] = b"\x01\0\0\x01\x07\0\0\0\0\0\0\0\x09\0\0\0\0\0\0\0\x02\0\0\x07\0\0\0\0\0\0\0";

/// The same, and the row is taken away again.
const TWICE: &[u8] = b"\x01\0\0\x01\x07\0\0\0\0\0\0\0\x09\0\0\0\0\0\0\0\
    \x02\0\0\x07\0\0\0\0\0\0\0\x02\0\0\x07\0\0\0\0\0\0\0";

/// The row 'a', 7 of the second table.
const TEXT: &[u8] = b"\x01\x01\0\x01\x01\0a\0\x07\0\0\0\0\0\0\0\0\0\0";

/// The same with a byte behind the text.
const LONG_TEXT: &[u8] = b"\x01\x01\0\x01\x01\0ab\x07\0\0\0\0\0\0\0\0\0\0";

/// The same with a text of three bytes.
const NO_TEXT: &[u8] = b"\x01\x01\0\x01\x03\0ab\x07\0\0\0\0\0\0\0\0\0\0";

/// The same with a text that isn't UTF-8.
const NO_UTF8: &[u8] = b"\x01\x01\0\x01\x01\0\xff\0\x07\0\0\0\0\0\0\0\0\0\0";

/// The same with a byte behind its values.
const LONG_ROW: &[u8] = b"\x01\x01\0\x01\x01\0a\0\x07\0\0\0\0\0\0\0\0\0\x01";

const NO_TABLE: &[u8] = b"\x02\x02\0\x07\0\0\0\0\0\0\0";

#[test]
fn a_log_file_is_opened_or_damaged_at_a_place(rt: HostRuntime) -> Result<(), Fail> {
    let alloc = rt.alloc();
    for (bodies, end, wants) in [
        ([].as_slice(), b"\0".as_slice(), "open"),
        (&[PUT, BOTH, TEXT, PUT, BOTH], b"\x05left", "open"),
        // The first byte of what is no change.
        (&[PUT, LONG_TEXT], b"\0", "lane0.even is damaged at 41"),
        (&[PUT, NO_TEXT], b"\0", "lane0.even is damaged at 41"),
        (&[PUT, NO_UTF8], b"\0", "lane0.even is damaged at 41"),
        (&[PUT, LONG_ROW], b"\0", "lane0.even is damaged at 41"),
        (&[PUT, &BOTH[..30]], b"\0", "lane0.even is damaged at 61"),
        // The first byte of a change that takes an absent row away.
        (&[PUT, DEL, DEL], b"\0", "lane0.even is damaged at 57"),
        (&[PUT, TWICE], b"\0", "lane0.even is damaged at 72"),
        // The first fault counts: that of the lane, then that of a body, then the gate.
        (
            &[NO_TABLE],
            b"\x01\x02\0\0\0a",
            "lane0.even is damaged at 27",
        ),
        (&[PUT, NO_TABLE], b"", "lane0.even is damaged at 41"),
    ] {
        let bytes = log_of(alloc, bodies, end)?;
        let found = opening(alloc, disk(alloc, &bytes, 4000)?)?;
        assert_eq!(rt; found.as_str(), wants, "{bytes:?}");
    }
    Ok(())
}

#[test]
fn a_file_with_another_head_is_damaged_there(rt: HostRuntime) -> Result<(), Fail> {
    let alloc = rt.alloc();
    for (bytes, wants) in [
        (b"".as_slice(), "open"),
        // The generation comes before a body that is no batch and before the gate.
        (
            b"\x01\x04\0\0\0\0\0\0\0\0\0\x01\x01\0\0\0\0",
            "lane0.even is damaged at 1",
        ),
        (
            b"\x01\x04\0\0\0\0\0\0\0\0\0\x01\x02\0\0\0\0",
            "lane0.even is damaged at 11",
        ),
    ] {
        let found = opening(alloc, disk(alloc, bytes, 4000)?)?;
        assert_eq!(rt; found.as_str(), wants, "{bytes:?}");
    }
    Ok(())
}

#[test]
fn a_read_that_fails_names_the_file(rt: HostRuntime) -> Result<(), Fail> {
    let alloc = rt.alloc();
    let bytes = log_of(alloc, &[PUT, BOTH], b"\0")?;
    for call in 1..6 {
        let disk = disk(alloc, &bytes, 4000)?.failing(Vec::new(alloc), vec![in alloc; call]?);
        let wants = if call < 5 {
            "lane0.even failed"
        } else {
            "open"
        };
        assert_eq!(rt; opening(alloc, disk)?.as_str(), wants, "{call}");
    }
    Ok(())
}
