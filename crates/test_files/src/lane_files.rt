// Both files of a lane byte by byte, which of them a call changes, and what the calls leave after a fault.
ghost use Rattle.std.specs.Prelude.{◌≡◌, ◌≤◌, ℕ, List, OnOk};
ghost use Rattle.lane_writer.specs.Writer.{Holds, lane_of, stage_of};

use disk_core::MemDisk;
use lane_format::{LaneReadFault, read_segment};
use lane_writer::{Disk, FileName, LaneDisks, LaneFault, LaneWriter, Stage};
use std::alloc::Global;
use std::test::Fail;

/// The frames of two batches: a change of ten bytes and a change of one, each with its commit record.
const FIRST: [u8; 51] = [
    7, 7, 7, 7, 1, 1, 0, 0, 0, 0, 0, 0, 0, 0, 0, 0, 0, 0, 0, 1, 0, 0, 0, 0, 0, 0, 0, 0, 0, 10, 0,
    1, 1, 0, 0, 0, 0, 0, 0, 0, 10, 2, 1, 0, 0, 0, 0, 0, 0, 0, 7,
];

const SECOND: [u8; 42] = [
    7, 7, 7, 7, 1, 2, 0, 0, 0, 0, 0, 0, 0, 0, 0, 0, 0, 0, 0, 2, 0, 0, 0, 0, 0, 0, 0, 9, 0, 1, 0,
    30, 2, 2, 0, 0, 0, 0, 0, 0, 0, 7,
];

/// The file that they make of generation 6 and lane 0.
const FILE: [u8; 105] = [
    1, 6, 0, 0, 0, 0, 0, 0, 0, 0, 0, 1, 46, 0, 0, 0, 1, 1, 0, 0, 0, 0, 0, 0, 0, 0, 0, 0, 0, 0, 0,
    1, 0, 0, 0, 0, 0, 0, 0, 0, 0, 10, 0, 1, 1, 0, 0, 0, 0, 0, 0, 0, 10, 2, 1, 0, 0, 0, 0, 0, 0, 0,
    1, 37, 0, 0, 0, 1, 2, 0, 0, 0, 0, 0, 0, 0, 0, 0, 0, 0, 0, 0, 2, 0, 0, 0, 0, 0, 0, 0, 9, 0, 1,
    0, 30, 2, 2, 0, 0, 0, 0, 0, 0, 0, 0,
];

const EVEN: FileName = FileName::Lane {
    lane: 0,
    odd: false,
};

const ODD: FileName = FileName::Lane { lane: 0, odd: true };

/// A disk with these bytes, whose change call of this number fails.
fn disk(alloc: Global, bytes: &[u8], failing: u64) -> Result<MemDisk, Fail> {
    let disk = MemDisk::new(alloc, Vec::from_slice(alloc, bytes)?, 4096)?;
    Ok(disk.failing(vec![in alloc; failing]?, Vec::new(alloc)))
}

/// The disks of a lane with these bytes, which never fail.
fn disks(alloc: Global, even: &[u8], odd: &[u8]) -> Result<LaneDisks<MemDisk>, Fail> {
    Ok(LaneDisks {
        even: disk(alloc, even, 1000)?,
        odd: disk(alloc, odd, 1000)?,
    })
}

fn batches(writer: &mut LaneWriter<MemDisk>, generation: u64) -> Result<(), LaneFault>
    requires { 1 ≤ generation }
{
    writer.close(generation)?;
    writer.reset(generation)?;
    let mut frame = FIRST;
    writer.force(&mut frame)?;
    let mut frame = SECOND;
    writer.force(&mut frame)
}

/// Both batches in the file of generation 7, or in that of generation 6.
fn two_batches(writer: &mut LaneWriter<MemDisk>, odd: bool) -> Result<(), LaneFault> {
    if odd {
        batches(writer, 7)
    } else {
        batches(writer, 6)
    }
}

/// The same file of another generation.
fn of_generation(generation: u8) -> [u8; 105] {
    let mut bytes = FILE;
    bytes[1] = generation;
    bytes
}

#[test]
fn each_generation_goes_to_the_file_of_its_parity(rt: HostRuntime) -> Result<(), Fail> {
    let mut writer = LaneWriter::adopt(disks(rt.alloc(), b"", b"\x01old")?, 0);
    assert_eq!(rt; two_batches(&mut writer, false), Ok(()));
    assert_eq!(rt; two_batches(&mut writer, true), Ok(()));
    let LaneDisks { even, odd } = writer.into_disks();
    assert_eq!(rt; even.bytes(), of_generation(6).as_slice());
    assert_eq!(rt; odd.bytes(), of_generation(7).as_slice());
    Ok(())
}

/// The second batch by a writer that takes over what the first one left.
fn taken_over(disks: LaneDisks<MemDisk>) -> (LaneDisks<MemDisk>, Result<(), LaneFault>) {
    let mut writer = LaneWriter::adopt(disks, 0);
    if let Err(fault) = first_batch(&mut writer) {
        return (writer.into_disks(), Err(fault));
    }
    let mut writer = adopted_at_62(writer);
    let mut frame = SECOND;
    let second = writer.force(&mut frame);
    (writer.into_disks(), second)
}

fn adopted_at_62<D: Disk>(first: LaneWriter<D>) -> LaneWriter<D>
    requires open { (bodies : List (List ℕ)) × Holds D.Disk first 6 bodies × (stage_of first ≡ Stage.Open 6 62) }
    requires lane { lane_of first ≡ 0 }
    ensures open { (bodies : List (List ℕ)) × Holds D.Disk result 6 bodies }
    ensures stage { stage_of result ≡ Stage.Open 6 62 }
{
    LaneWriter::adopt_open(first.into_disks(), 0, 6, 62)
}

fn first_batch<D: Disk>(writer: &mut LaneWriter<D>) -> Result<(), LaneFault>
    ensures open { OnOk result ((bodies : List (List ℕ)) × Holds D.Disk writer.new 6 bodies
        × (stage_of writer.new ≡ Stage.Open 6 62)) }
    ensures lane { lane_of writer.new ≡ lane_of writer.old }
{
    writer.close(6)?;
    writer.reset(6)?;
    let mut frame = FIRST;
    writer.force(&mut frame)
}

#[test]
fn a_writer_continues_at_the_gate_that_it_is_given(rt: HostRuntime) -> Result<(), Fail> {
    let (left, done) = taken_over(disks(rt.alloc(), b"", b"\x01old")?);
    assert_eq!(rt; done, Ok(()));
    assert_eq!(rt; left.even.bytes(), FILE.as_slice());
    assert_eq!(rt; left.odd.bytes(), b"\x01old".as_slice());
    Ok(())
}

/// A writer over two open files, of which one fails at its change call of this number.
fn failing(alloc: Global, odd: bool, call: u64) -> Result<LaneWriter<MemDisk>, Fail> {
    let (even_call, odd_call) = if odd { (1000, call) } else { (call, 1000) };
    let disks = LaneDisks {
        even: disk(alloc, b"\x01old", even_call)?,
        odd: disk(alloc, b"\x01old", odd_call)?,
    };
    Ok(LaneWriter::adopt(disks, 0))
}

#[test]
fn a_fault_names_its_file_and_is_kept(rt: HostRuntime) -> Result<(), Fail> {
    for (is_odd, file) in [(false, EVEN), (true, ODD)] {
        for call in 1..16 {
            let mut writer = failing(rt.alloc(), is_odd, call)?;
            let made = two_batches(&mut writer, is_odd);
            if call > 14 {
                assert_eq!(rt; made, Ok(()), "{file}");
            } else {
                assert_eq!(rt; made, Err(LaneFault::Disk { file }), "{file} at {call}");
                assert_eq!(rt;
                    writer.close(6),
                    Err(LaneFault::Closed { file }),
                    "{file} at {call}"
                );
                assert_eq!(rt;
                    writer.blank(),
                    Err(LaneFault::Closed { file }),
                    "{file} at {call}"
                );
            }
            let LaneDisks { even, odd } = writer.into_disks();
            let other = if is_odd { even } else { odd };
            assert_eq!(rt; other.bytes(), b"\x01old".as_slice(), "{file} at {call}");
        }
    }
    Ok(())
}

/// The gate as a read gives it: 255 where there is none.
fn gate_of(disk: &MemDisk) -> u8 {
    match disk.bytes() {
        [gate, ..] => *gate,
        [] => 255,
    }
}

#[test]
fn a_blank_closes_the_even_file_and_then_the_odd_one(rt: HostRuntime) -> Result<(), Fail> {
    for (is_odd, call, even_is, odd_is, wants) in [
        (false, 2, 0, 1, Err(LaneFault::Disk { file: EVEN })),
        (true, 2, 0, 0, Err(LaneFault::Disk { file: ODD })),
        (true, 3, 0, 0, Ok(())),
    ] {
        let mut writer = failing(rt.alloc(), is_odd, call)?;
        assert_eq!(rt; writer.blank(), wants, "{is_odd} {call}");
        let LaneDisks { even, odd } = writer.into_disks();
        assert_eq!(rt; gate_of(&even), even_is, "{is_odd} {call}");
        assert_eq!(rt; gate_of(&odd), odd_is, "{is_odd} {call}");
    }
    Ok(())
}

/// A reading as a text: `closed`, `at` and a place, or the generation and each batch's place and length.
fn reading(alloc: Global, bytes: &[u8], odd: bool) -> Result<String, Fail> {
    let mut disk = disk(alloc, bytes, 1000)?;
    match read_segment(alloc, &mut disk, odd, 0) {
        Ok(None) => Ok(format!(in alloc; "closed")?),
        Ok(Some(segment)) => {
            let mut text = format!(in alloc; "{}", segment.generation)?;
            for batch in segment.batches.as_slice() {
                text = format!(in alloc; "{text} {}+{}", batch.at, batch.body.len())?;
            }
            Ok(text)
        }
        Err(LaneReadFault::Damaged { at, .. }) => Ok(format!(in alloc; "at {at}")?),
        Err(fault) => Ok(format!(in alloc; "{fault}")?),
    }
}

#[test]
fn a_file_that_was_written_reads_as_its_batches(rt: HostRuntime) -> Result<(), Fail> {
    let alloc = rt.alloc();
    for (place, byte, len, wants) in [
        (0, 1, 105, "6 16+46 67+37"),
        // The second gate is not 1, or the file ends before it; what follows doesn't count.
        (62, 0x37, 105, "6 16+46"),
        (62, 0, 105, "6 16+46"),
        (0, 1, 62, "6 16+46"),
        // The file ends behind the second gate, or inside its batch, or behind it.
        (0, 1, 63, "at 62"),
        (0, 1, 103, "at 62"),
        (0, 1, 104, "6 16+46 67+37"),
        // The first length is 1,070, 0, or too long for the file.
        (13, 4, 105, "at 11"),
        (12, 0, 105, "at 11"),
        (15, 255, 105, "at 11"),
        // The head: another gate, generation or lane, or a part of it.
        (0, 2, 105, "closed"),
        (1, 7, 105, "at 1"),
        (1, 0, 105, "at 1"),
        (10, 1, 105, "at 9"),
        (0, 1, 10, "at 0"),
        (0, 1, 11, "6"),
    ] {
        let mut bytes = Vec::from_slice(alloc, &FILE)?;
        bytes[place] = byte;
        bytes.truncate(len);
        let found = reading(alloc, bytes.as_slice(), false)?;
        assert_eq!(rt; found.as_str(), wants, "{place} {byte} {len}");
    }
    Ok(())
}
