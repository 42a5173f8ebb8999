// Both area files byte by byte, which of them a call changes, and what the calls leave after a fault.
ghost use Rattle.std.specs.Prelude.{◌≡◌};
ghost use Rattle.area_writer.specs.Writer.{stage_of};

use area_writer::{AreaFault, AreaWriter, FileName, ImageHead, Schema, Settings, Stage};
use disk_core::MemDisk;
use std::alloc::Global;
use std::test::Fail;

const SETTINGS: Settings = Settings {
    lanes: 1,
    pages: 4_096,
    nodes: 16_384,
    txn: 65_536,
    segment: 67_108_864,
};

/// An area of generation 3 with these settings, no table and no image.
const EMPTY: [u8; 36] = [
    1, 1, 0, 3, 0, 0, 0, 0, 0, 0, 0, 1, 0, 0, 16, 0, 0, 0, 64, 0, 0, 0, 0, 1, 0, 0, 0, 0, 4, 0, 0,
    0, 0, 1, 0, 0,
];

const HEAD: ImageHead = ImageHead {
    table: 2,
    page: 515,
    stamp: 1_027,
};

/// The head of that image in the file.
const HEAD_BYTES: [u8; 14] = [2, 0, 3, 2, 0, 0, 3, 4, 0, 0, 0, 0, 0, 0];

/// A disk with these bytes, whose change call of this number fails.
fn disk(alloc: Global, bytes: &[u8], failing: u64) -> Result<MemDisk, Fail> {
    let disk = MemDisk::new(alloc, Vec::from_slice(alloc, bytes)?, 65_536)?;
    Ok(disk.failing(vec![in alloc; failing]?, Vec::new(alloc)))
}

/// An area with no image.
fn put_empty(writer: &mut AreaWriter<MemDisk>, schema: &Schema) -> Result<(), AreaFault>
    requires { stage_of writer.old ≡ Stage.Adopted }
{
    writer.close_spare()?;
    writer.put_header(3, &SETTINGS, schema, 0)?;
    writer.seal()?;
    writer.open_gate()
}

/// An area with one image.
fn put_image(writer: &mut AreaWriter<MemDisk>, schema: &Schema) -> Result<(), AreaFault>
    requires { stage_of writer.old ≡ Stage.Adopted }
{
    writer.close_spare()?;
    writer.put_header(3, &SETTINGS, schema, 1)?;
    writer.put_image(&HEAD, &[7; 4096])?;
    writer.seal()?;
    writer.open_gate()
}

/// What an area with an image comes to where the spare file's change call of this number fails, and both files.
fn written(
    alloc: Global,
    failing: u64,
    image: bool,
) -> Result<(Result<(), AreaFault>, MemDisk, MemDisk), Fail> {
    let a = disk(alloc, b"\x01old", 1000)?;
    let b = disk(alloc, b"\x01older", failing)?;
    let schema = Schema::empty(alloc);
    let mut writer = AreaWriter::adopt(a, b, FileName::AreaB);
    let done = if image {
        put_image(&mut writer, &schema)
    } else {
        put_empty(&mut writer, &schema)
    };
    let (a, b) = writer.into_disks();
    Ok((done, a, b))
}

#[test]
fn an_area_without_images_is_36_bytes(rt: HostRuntime) -> Result<(), Fail> {
    let (done, a, b) = written(rt.alloc(), 1000, false)?;
    assert_eq!(rt; done, Ok(()));
    assert_eq!(rt; a.bytes(), b"\x01old".as_slice());
    assert_eq!(rt; b.bytes(), EMPTY.as_slice());
    Ok(())
}

#[test]
fn an_image_stands_behind_the_header(rt: HostRuntime) -> Result<(), Fail> {
    let (done, _a, b) = written(rt.alloc(), 1000, true)?;
    assert_eq!(rt; done, Ok(()));
    let bytes = b.bytes();
    assert_eq!(rt; bytes.len(), 4146);
    assert_eq!(rt; bytes.get(29..33), Some(b"\x01\x00\x00\x00".as_slice()));
    assert_eq!(rt; bytes.get(36..50), Some(HEAD_BYTES.as_slice()));
    assert_eq!(rt; bytes.get(50..), Some([7; 4096].as_slice()));
    Ok(())
}

#[test]
fn a_fault_at_each_call_is_reported(rt: HostRuntime) -> Result<(), Fail> {
    for call in 1..10 {
        let (done, a, _b) = written(rt.alloc(), call, true)?;
        assert_eq!(rt;
            done,
            Err(AreaFault::Disk {
                file: FileName::AreaB
            })
        );
        assert_eq!(rt; a.bytes(), b"\x01old".as_slice());
    }
    let (done, _a, _b) = written(rt.alloc(), 10, true)?;
    assert_eq!(rt; done, Ok(()));
    Ok(())
}
