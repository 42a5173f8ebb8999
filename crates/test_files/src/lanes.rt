// The bytes of a lane file from outside, the calls after a disk fault, and what a crash leaves then.
use disk_core::MemDisk;
use lane_format::{FileName, LaneFault, LaneWriter};
use std::alloc::Global;
use std::test::Fail;

const LANE: [u8; 33] = [
    1, 2, 0, 0, 0, 0, 0, 0, 0, 0, 0, 1, 16, 0, 0, 0, 1, 0, 0, 0, 0, 0, 0, 0, 10, 0, 0, 0, 0, 0, 0,
    0, 0,
];

const FRAME: [u8; 21] = [
    7, 7, 7, 7, 1, 0, 0, 0, 0, 0, 0, 0, 10, 0, 0, 0, 0, 0, 0, 0, 7,
];

fn first_batch(writer: &mut LaneWriter<MemDisk>) -> Result<(), LaneFault> {
    let mut frame = FRAME;
    writer.close(2)?;
    writer.reset(2)?;
    writer.force(&mut frame)
}

/// A disk whose change call of this number fails.
fn disk(alloc: Global, failing: u64) -> Result<MemDisk, Fail> {
    let disk = MemDisk::new(alloc, Vec::new(alloc), 4096)?;
    Ok(disk.failing(vec![in alloc; failing]?, Vec::new(alloc)))
}

#[test]
fn a_fault_is_kept_and_ten_change_calls_make_the_first_batch(rt: HostRuntime) -> Result<(), Fail> {
    let file = FileName::Lane {
        lane: 0,
        odd: false,
    };
    for failing in 1..12 {
        let mut writer = LaneWriter::adopt(disk(rt.alloc(), failing)?, 0);
        let made = first_batch(&mut writer);
        if failing > 10 {
            assert_eq!(rt; made, Ok(()));
            assert_eq!(rt; writer.into_disk().bytes(), LANE.as_slice());
        } else {
            assert_eq!(rt; made, Err(LaneFault::Disk { file }), "at {failing}");
            assert_eq!(rt;
                writer.close(2),
                Err(LaneFault::Closed { file }),
                "at {failing}"
            );
            drop(writer.into_disk());
        }
    }
    Ok(())
}

/// Whether these bytes are a file that isn't open, the empty lane, or the lane with the batch.
fn is_whole(bytes: &[u8]) -> bool {
    match bytes {
        [1, 2, 0, 0, 0, 0, 0, 0, 0, 0, 0, gate, ..] => *gate != 1 || bytes == LANE.as_slice(),
        [1, ..] => false,
        _ => true,
    }
}

#[test]
fn a_crash_after_a_fault_leaves_the_batch_whole_or_none_of_it(rt: HostRuntime) -> Result<(), Fail> {
    for failing in 1..12 {
        for (choice, whole) in [
            (b"".as_slice(), true),
            (b"\0", false),
            (b"\x01", true),
            (b"\xff", false),
        ] {
            let mut writer = LaneWriter::adopt(disk(rt.alloc(), failing)?, 0);
            let made = first_batch(&mut writer);
            let torn = writer.into_disk();
            let (least, most) = (torn.least_size(), torn.bytes().len() as u64);
            let size = if whole { most } else { least };
            let left = torn.crash(choice, size);
            assert!(rt; is_whole(left.bytes()), "at {failing} with {choice:?}");
            if made.is_ok() {
                assert_eq!(rt; left.bytes(), LANE.as_slice());
            }
        }
    }
    Ok(())
}
