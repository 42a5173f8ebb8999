// What no clause says: that a lane file is read with ample memory, whatever its bytes.
use disk_core::MemDisk;
use lane_format::{FileName, LaneReadFault, Segment, read_segment};
use std::alloc::{AllocError, Global};
use std::test::Fail;

const EVEN: bool = false;

const ODD: bool = true;

/// A reading as a text: `closed`, `at` and a place, or the generation and each batch with its place.
fn shown(
    alloc: Global,
    read: Result<Option<Segment>, LaneReadFault>,
    file: FileName,
) -> Result<String, AllocError> {
    match read {
        Ok(None) => format!(in alloc; "closed"),
        Ok(Some(segment)) => batches(alloc, &segment),
        Err(LaneReadFault::Damaged { file: at_file, at }) if at_file == file => {
            format!(in alloc; "at {at}")
        }
        Err(LaneReadFault::Disk { file: of_file }) if of_file == file => {
            format!(in alloc; "failed")
        }
        Err(fault) => format!(in alloc; "{fault}"),
    }
}

fn batches(alloc: Global, segment: &Segment) -> Result<String, AllocError> {
    let mut text = format!(in alloc; "{}", segment.generation)?;
    for batch in segment.batches.as_slice() {
        text = format!(in alloc; "{text} {}:", batch.at)?;
        for byte in batch.body.as_slice() {
            text.push(char::from(*byte))?;
        }
    }
    Ok(text)
}

fn reading(alloc: Global, bytes: &[u8], odd: bool, lane: u16) -> Result<String, Fail> {
    let mut disk = MemDisk::new(alloc, Vec::from_slice(alloc, bytes)?, 0)?;
    let read = read_segment(alloc, &mut disk, odd, lane);
    Ok(shown(alloc, read, FileName::Lane { lane, odd })?)
}

#[test]
fn a_file_reads_as_its_batches_or_names_the_place_of_its_fault(
    rt: HostRuntime,
) -> Result<(), Fail> {
    for (bytes, odd, lane, wants) in [
        // Not open, and too short for a head.
        (b"".as_slice(), EVEN, 0, "closed"),
        (b"\x01", EVEN, 0, "at 0"),
        // A generation that is none, or the other file's, and another lane.
        (b"\x01\0\0\0\0\0\0\0\0\0\0\0", EVEN, 0, "at 1"),
        (b"\x01\x02\0\0\0\0\0\0\0\0\0\0", ODD, 0, "at 1"),
        (b"\x01\x02\0\0\0\0\0\0\0\0\x01\0", EVEN, 1, "at 9"),
        // No batch: a gate that isn't open, or none.
        (b"\x01\x02\0\0\0\0\0\0\0\0\0", EVEN, 0, "2"),
        (
            b"\x01\x03\0\0\0\0\0\0\x80\x02\x01\x02rest",
            ODD,
            258,
            "9223372036854775811",
        ),
        // Batches, and what follows the gate that isn't open.
        (
            b"\x01\x02\0\0\0\0\0\0\0\0\0\x01\x02\0\0\0ab\x01\x01\0\0\0c\x05\x01\0\0\0d",
            EVEN,
            0,
            "2 16:ab 23:c",
        ),
        // An open gate without a whole batch: without its length, of length 0, or too long.
        (b"\x01\x02\0\0\0\0\0\0\0\0\0\x01\x01\0\0", EVEN, 0, "at 11"),
        (b"\x01\x02\0\0\0\0\0\0\0\0\0\x01\0\0\0\0a", EVEN, 0, "at 11"),
        (
            b"\x01\x02\0\0\0\0\0\0\0\0\0\x01\xff\xff\xff\xffa",
            EVEN,
            0,
            "at 11",
        ),
        (
            b"\x01\x02\0\0\0\0\0\0\0\0\0\x01\x01\0\0\0a\x01\x02\0\0\0b",
            EVEN,
            0,
            "at 17",
        ),
    ] {
        let found = reading(rt.alloc(), bytes, odd, lane)?;
        assert_eq!(rt; found.as_str(), wants, "{bytes:?}");
    }
    Ok(())
}

/// A file of generation 2 and lane 0 with batches of these lengths, each of a letter of its own.
fn long_file(alloc: Global, lengths: &[u32]) -> Result<Vec<u8>, Fail> {
    let mut bytes = Vec::from_slice(alloc, b"\x01\x02\0\0\0\0\0\0\0\0\0")?;
    for (letter, length) in (b'a'..=b'z').zip(lengths.iter()) {
        bytes.push(1)?;
        bytes.extend_from_slice(&length.to_le_bytes())?;
        bytes.extend_from_slice(&vec![in alloc; letter; *length as usize]?)?;
    }
    bytes.push(0)?;
    Ok(bytes)
}

/// Whether a segment has batches of these lengths, each of a letter of its own at its place.
fn has_lengths(segment: &Segment, lengths: &[u32]) -> bool {
    let mut place = 11u64;
    let mut letter = b'a';
    if segment.batches.len() != lengths.len() {
        return false;
    }
    for (batch, length) in segment.batches.as_slice().iter().zip(lengths.iter()) {
        let body = batch.body.as_slice();
        let whole = body.len() == *length as usize && body.iter().all(|byte| *byte == letter);
        if !whole || batch.at != place.wrapping_add(5) {
            return false;
        }
        place = place.wrapping_add(5).wrapping_add(u64::from(*length));
        letter = letter.wrapping_add(1);
    }
    true
}

#[test]
fn bodies_of_every_length_are_read(rt: HostRuntime) -> Result<(), Fail> {
    let alloc = rt.alloc();
    for lengths in [
        [1, 8191, 1, 8192],
        [8176, 8187, 8188, 1],
        [8193, 8175, 3, 16384],
        [100_000, 1, 70_000, 8170],
    ] {
        let mut disk = MemDisk::new(alloc, long_file(alloc, &lengths)?, 0)?;
        match read_segment(alloc, &mut disk, EVEN, 0) {
            Ok(Some(segment)) => assert!(rt; has_lengths(&segment, &lengths), "{lengths:?}"),
            _ => assert!(rt; false, "{lengths:?}"),
        }
    }
    Ok(())
}

#[test]
fn a_fault_of_the_disk_names_the_file(rt: HostRuntime) -> Result<(), Fail> {
    let alloc = rt.alloc();
    let bytes = b"\x01\x02\0\0\0\0\0\0\0\0\0\x01\x01\0\0\0a\0";
    for (failing, wants) in [(1, "failed"), (2, "failed"), (3, "failed"), (4, "2 16:a")] {
        let disk = MemDisk::new(alloc, bytes.to_vec(alloc)?, 0)?;
        let mut disk = disk.failing(Vec::new(alloc), vec![in alloc; failing]?);
        let read = read_segment(alloc, &mut disk, EVEN, 0);
        let found = shown(alloc, read, FileName::Lane { lane: 0, odd: EVEN })?;
        assert_eq!(rt; found.as_str(), wants, "{failing}");
    }
    Ok(())
}
