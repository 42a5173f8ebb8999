// What no clause says: that an area is read with ample memory, whatever its bytes, and as a plain reading
// reads it.
use area_format::{AreaReadFault, read_generation, read_header, read_image};
use disk_core::MemDisk;
use row_types::Schema;
use std::alloc::Global;
use std::test::Fail;

/// Generation 3, one lane, 4,096 pages, 16,384 nodes, 65,536 bytes of a transaction and 67,108,864 of a
/// segment, no image, and the schema of no table.
const FRESH: [u8; 36] =
    *b"\x01\x01\0\x03\0\0\0\0\0\0\0\x01\0\0\x10\0\0\0\x40\0\0\0\0\x01\0\0\0\0\x04\0\0\0\0\x01\0\0";

/// The text of a schema with a table `t` of one column `k`, its key.
const ONE_TABLE: [u8; 8] = *b"\x01\x01t\x01\0\x01k\x01";

/// A place of a fresh area, the byte that it is changed to, and what the area then reads as: `closed`, `at`
/// and a place, or its generation and how many images it has.
const CHANGES: &str = "0 0 closed
0 2 closed
0 3 closed
0 255 closed
1 0 at 1
1 2 at 1
1 9 at 1
1 255 at 1
2 1 at 1
2 255 at 1
3 0 at 3
3 1 1 0
3 255 255 0
4 1 259 0
9 1 281474976710659 0
10 127 9151314442816847875 0
10 128 at 3
10 255 at 3
11 0 at 11
11 8 3 0
11 9 at 11
11 255 at 11
12 1 at 11
12 128 at 11
13 1 3 0
14 0 at 13
14 1 3 0
14 255 3 0
15 1 at 13
16 1 at 13
16 255 at 13
17 15 3 0
18 0 at 17
18 255 3 0
19 1 at 17
20 1 at 17
21 1 3 0
22 15 3 0
23 0 at 21
23 15 3 0
23 16 at 25
23 17 at 21
24 1 at 21
25 1 3 0
27 1 3 0
28 0 at 25
28 1 3 0
28 7 3 0
28 8 3 0
28 9 at 25
28 255 at 25
29 1 at 0
29 255 at 0
30 16 at 0
30 17 at 29
31 1 at 29
32 1 at 29
32 128 at 29
33 0 at 35
33 2 at 0
33 255 at 0
34 1 at 0
34 255 at 0
35 1 at 35
35 2 at 35
35 17 at 35
35 255 at 35";

/// What a file reads as by the calls that read an area, with each of its images.
fn reading(alloc: Global, bytes: &[u8]) -> Result<String, Fail> {
    let mut disk = MemDisk::new(alloc, Vec::from_slice(alloc, bytes)?, 0)?;
    let (generation, count) = match read_header(alloc, &mut disk) {
        Ok(None) => return Ok(format!(in alloc; "closed")?),
        Ok(Some(header)) => (header.generation, header.count),
        Err(fault) => return fault_text(alloc, fault),
    };
    let mut text = format!(in alloc; "{generation} {count}")?;
    for k in 0..count {
        match image_text(alloc, bytes, k)? {
            Ok(image) => text = format!(in alloc; "{text} {image}")?,
            Err(fault) => return fault_text(alloc, fault),
        }
    }
    Ok(text)
}

fn fault_text(alloc: Global, fault: AreaReadFault) -> Result<String, Fail> {
    Ok(match fault {
        AreaReadFault::Damaged { at } => format!(in alloc; "at {at}")?,
        _ => format!(in alloc; "{fault}")?,
    })
}

/// An image: its table, its page, its stamp, and where in the file its bytes stand, so far as they do.
fn image_text(alloc: Global, bytes: &[u8], k: u32) -> Result<Result<String, AreaReadFault>, Fail> {
    let mut disk = MemDisk::new(alloc, Vec::from_slice(alloc, bytes)?, 0)?;
    let Ok(Some(header)) = read_header(alloc, &mut disk) else {
        return Err("no header".into());
    };
    if k >= header.count {
        return Err("no image".into());
    }
    let mut page = [0; 4096];
    match read_image(&mut disk, &header, k, &mut page) {
        Ok(head) => Ok(Ok(format!(in alloc;
            "{}.{}.{}.{}",
            head.table,
            head.page,
            head.stamp,
            sum(&page)
        )?)),
        Err(fault) => Ok(Err(fault)),
    }
}

/// Tells most pages apart.
fn sum(page: &[u8]) -> u32 {
    let mut sum: u32 = 0;
    for byte in page {
        sum = sum.wrapping_mul(31).wrapping_add(u32::from(*byte));
    }
    sum
}

/// What the first bytes of a file read as.
fn start(alloc: Global, bytes: &[u8]) -> Result<String, Fail> {
    let mut disk = MemDisk::new(alloc, Vec::from_slice(alloc, bytes)?, 0)?;
    match read_generation(&mut disk) {
        Ok(None) => Ok(format!(in alloc; "closed")?),
        Ok(Some(generation)) => Ok(format!(in alloc; "{generation}")?),
        Err(fault) => fault_text(alloc, fault),
    }
}

// ---- A plain reading

/// The byte at a place, 0 where there is none.
fn byte(bytes: &[u8], at: u64) -> u8 {
    bytes.get(at as usize).copied().unwrap_or(0)
}

/// The number of `len` bytes at a place.
fn number(bytes: &[u8], at: u64, len: u64) -> u64 {
    let mut value: u64 = 0;
    for i in (0..len).rev() {
        let digit = byte(bytes, at.wrapping_add(i));
        value = value.wrapping_mul(256).wrapping_add(u64::from(digit));
    }
    value
}

/// Whether the number of `len` bytes at a place lies in these limits.
fn lies(bytes: &[u8], at: u64, len: u64, least: u64, greatest: u64) -> bool {
    (least..=greatest).contains(&number(bytes, at, len))
}

/// How many tables the schema has, where it is one.
fn tables(alloc: Global, bytes: &[u8]) -> Result<Option<u64>, Fail> {
    let mut text = Vec::new(alloc);
    for i in 0..number(bytes, 33, 2) {
        text.push(byte(bytes, i.wrapping_add(35)))?;
    }
    let schema = Schema::read_schema(alloc, 1, &text)?;
    Ok(schema.map(|schema| schema.tables().len() as u64))
}

/// Where image `k` stands.
fn place(bytes: &[u8], k: u64) -> u64 {
    let schema = number(bytes, 33, 2).wrapping_add(35);
    k.wrapping_mul(4110).wrapping_add(schema)
}

/// The least segment for transactions of that size.
fn least_segment(bytes: &[u8]) -> u64 {
    let both = number(bytes, 21, 4).wrapping_mul(2).wrapping_add(64);
    both.wrapping_mul(32).wrapping_add(64).max(1_048_576)
}

/// The place of the first rule that the head breaks.
fn head_fault(bytes: &[u8], is_schema: bool) -> Option<u64> {
    let size = bytes.len() as u64;
    let count = number(bytes, 29, 4);
    for (holds, at) in [
        (size >= 11, 0),
        (lies(bytes, 1, 2, 1, 1), 1),
        (lies(bytes, 3, 8, 1, 1 << 63), 3),
        (size >= 35, 0),
        (lies(bytes, 11, 2, 1, 8), 11),
        (lies(bytes, 13, 4, 1, 65_536), 13),
        (lies(bytes, 17, 4, 16, 65_536), 17),
        (lies(bytes, 21, 4, 4_096, 1_048_576), 21),
        (lies(bytes, 25, 4, least_segment(bytes), 134_217_728), 25),
        (count <= number(bytes, 13, 4), 29),
        (place(bytes, 0) <= size, 0),
        (is_schema, 35),
        (place(bytes, count) <= size, 0),
    ] {
        if !holds {
            return Some(at);
        }
    }
    None
}

/// Whether image `k` is of a page that may be, and comes after the one before it.
fn may_be(bytes: &[u8], k: u64, tables: u64) -> bool {
    let at = place(bytes, k);
    let (table, page) = (number(bytes, at, 2), number(bytes, at.wrapping_add(2), 4));
    if table >= tables || page >= number(bytes, 13, 4) {
        return false;
    }
    if k == 0 {
        return true;
    }
    let before = place(bytes, k.wrapping_sub(1));
    let earlier = number(bytes, before, 2);
    earlier < table || earlier == table && number(bytes, before.wrapping_add(2), 4) < page
}

/// What the file reads as by the rules of docs/FORMATS.md, byte for byte.
fn plain(alloc: Global, bytes: &[u8]) -> Result<String, Fail> {
    if number(bytes, 0, 1) != 1 {
        return Ok(format!(in alloc; "closed")?);
    }
    let tables = tables(alloc, bytes)?;
    if let Some(at) = head_fault(bytes, tables.is_some()) {
        return Ok(format!(in alloc; "at {at}")?);
    }
    let count = number(bytes, 29, 4);
    let mut text = format!(in alloc; "{} {count}", number(bytes, 3, 8))?;
    for k in 0..count {
        let at = place(bytes, k);
        if !may_be(bytes, k, tables.unwrap_or(0)) {
            return Ok(format!(in alloc; "at {at}")?);
        }
        text = format!(in alloc; "{text} {}", plain_image(alloc, bytes, at)?)?;
    }
    Ok(text)
}

fn plain_image(alloc: Global, bytes: &[u8], at: u64) -> Result<String, Fail> {
    let mut page = Vec::new(alloc);
    for i in 0..4096 {
        page.push(byte(bytes, at.wrapping_add(14).wrapping_add(i)))?;
    }
    let (table, number_of) = (number(bytes, at, 2), number(bytes, at.wrapping_add(2), 4));
    let stamp = number(bytes, at.wrapping_add(6), 8);
    Ok(format!(in alloc; "{table}.{number_of}.{stamp}.{}", sum(&page))?)
}

/// What the first bytes say, by the same rules.
fn plain_start(alloc: Global, bytes: &[u8]) -> Result<String, Fail> {
    if number(bytes, 0, 1) != 1 {
        return Ok(format!(in alloc; "closed")?);
    }
    match head_fault(bytes, true) {
        Some(at) if at == 1 || at == 3 || bytes.len() < 11 => Ok(format!(in alloc; "at {at}")?),
        _ => Ok(format!(in alloc; "{}", number(bytes, 3, 8))?),
    }
}

/// Whether both calls read the bytes as the plain reading does.
fn agrees(alloc: Global, bytes: &[u8]) -> Result<bool, Fail> {
    let whole = reading(alloc, bytes)?;
    let begun = start(alloc, bytes)?;
    Ok(whole == plain(alloc, bytes)? && begun == plain_start(alloc, bytes)?)
}

// ---- Cases

/// An area of one table with two images: of page 0, and of page 5.
fn small(alloc: Global) -> Result<Vec<u8>, Fail> {
    let mut bytes = Vec::from_slice(alloc, &FRESH[..33])?;
    bytes[29] = 2;
    bytes.extend_from_slice(&[8, 0])?;
    bytes.extend_from_slice(&ONE_TABLE)?;
    for (page, stamp, first) in [(0u32, 7u64, b'a'), (5, 9, b'b')] {
        bytes.extend_from_slice(&[0, 0])?;
        bytes.extend_from_slice(&page.to_le_bytes())?;
        bytes.extend_from_slice(&stamp.to_le_bytes())?;
        bytes.push(first)?;
        bytes.extend_from_slice(&[b'.'; 4095])?;
    }
    Ok(bytes)
}

/// The bytes with one of them changed.
fn changed(alloc: Global, bytes: &[u8], at: usize, to: u8) -> Result<Vec<u8>, Fail> {
    let mut bytes = Vec::from_slice(alloc, bytes)?;
    if let Some(byte) = bytes.get_mut(at) {
        *byte = to;
    }
    Ok(bytes)
}

/// The place, the byte and the reading of a line of changes.
fn change(line: &str) -> Option<(usize, u8, &str)> {
    let (at, rest) = line.split_once(" ")?;
    let (to, wants) = rest.split_once(" ")?;
    Some((at.parse().ok()?, to.parse().ok()?, wants))
}

#[test]
fn a_changed_area_names_the_place_of_its_fault(rt: HostRuntime) -> Result<(), Fail> {
    let alloc = rt.alloc();
    for line in CHANGES.lines() {
        let (at, to, wants) = change(line).ok_or("no change")?;
        let bytes = changed(alloc, &FRESH, at, to)?;
        assert_eq!(rt; reading(alloc, &bytes)?.as_str(), wants, "{line}");
        assert!(rt; agrees(alloc, &bytes)?, "{line}");
    }
    Ok(())
}

#[test]
fn a_fresh_area_is_read(rt: HostRuntime) -> Result<(), Fail> {
    let alloc = rt.alloc();
    assert_eq!(rt; reading(alloc, &FRESH)?.as_str(), "3 0");
    assert_eq!(rt; start(alloc, &FRESH)?.as_str(), "3");
    Ok(())
}

#[test]
fn each_cut_of_an_area_reads_as_the_plain_reading_says(rt: HostRuntime) -> Result<(), Fail> {
    let alloc = rt.alloc();
    let whole = small(alloc)?;
    for len in 0..=whole.len() {
        assert!(rt; agrees(alloc, &whole[..len])?, "{len}");
    }
    Ok(())
}

#[test]
fn each_byte_of_a_head_changed_reads_as_the_plain_reading_says(
    rt: HostRuntime,
) -> Result<(), Fail> {
    let alloc = rt.alloc();
    let whole = small(alloc)?;
    for at in 0..4167 {
        if (57..4153).contains(&at) {
            continue;
        }
        for to in [0, 1, 0x37, 0xff] {
            let bytes = changed(alloc, &whole, at, to)?;
            assert!(rt; agrees(alloc, &bytes)?, "{at} {to}");
        }
    }
    Ok(())
}

/// What the nth call of the disk that fails makes of a reading.
fn failing(alloc: Global, nth: u64) -> Result<String, Fail> {
    let disk = MemDisk::new(alloc, FRESH.to_vec(alloc)?, 0)?;
    let mut disk = disk.failing(Vec::new(alloc), vec![in alloc; nth]?);
    match read_header(alloc, &mut disk) {
        Ok(found) => Ok(format!(in alloc; "{}", found.is_some())?),
        Err(fault) => fault_text(alloc, fault),
    }
}

#[test]
fn a_fault_of_the_disk_is_told(rt: HostRuntime) -> Result<(), Fail> {
    let alloc = rt.alloc();
    for nth in 1..=3 {
        assert_eq!(rt; failing(alloc, nth)?.as_str(), "the disk failed", "{nth}");
    }
    assert_eq!(rt; failing(alloc, 4)?.as_str(), "true");
    Ok(())
}
