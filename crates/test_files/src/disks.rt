// What no clause says: that the calls succeed with ample memory, and what a file of the system gives.
use disk_core::{Disk, Failed, FileDisk, FileName, MemDisk};
use std::alloc::Global;
use std::fs;
use std::fs::File;
use std::test::Fail;

#[test]
fn each_file_has_its_name(rt: HostRuntime) -> Result<(), Fail> {
    let lane = |lane, odd| FileName::Lane { lane, odd };
    for (file, name) in [
        (FileName::AreaA, "area.a"),
        (FileName::AreaB, "area.b"),
        (lane(0, false), "lane0.even"),
        (lane(65535, true), "lane65535.odd"),
    ] {
        assert_eq!(rt; format!(in rt.alloc(); "{file}")?.as_str(), name);
    }
    Ok(())
}

/// A call of a disk.
#[derive(Clone, Copy)]
enum Call {
    Size,
    Read { at: u64 },
    Write { at: u64, bytes: &'static [u8] },
    Sync,
}

/// What a disk answers, as a number: how many bytes there are, or the byte that is read, or 0.
fn answer(disk: &mut MemDisk, call: Call) -> Result<u64, Failed> {
    let size = disk.bytes().len() as u64;
    match call {
        Call::Size => disk.size(),
        Call::Read { at } if at < size => {
            let mut byte = [0];
            disk.read_at(at, &mut byte)?;
            Ok(byte[0] as u64)
        }
        Call::Write { at, bytes } if at <= size => {
            disk.write_at(at, bytes)?;
            Ok(0)
        }
        Call::Sync => {
            disk.sync()?;
            Ok(0)
        }
        _ => Err(Failed),
    }
}

#[test]
fn a_disk_in_memory_keeps_what_is_written_and_fails_where_it_is_told(
    rt: HostRuntime,
) -> Result<(), Fail> {
    let alloc = rt.alloc();
    let room = 64 + 6 + 64 + 64 + 64 + 64;
    let mut disk = MemDisk::new(alloc, b"abcd".to_vec(alloc)?, room)?.failing(
        vec![in alloc; 2, 4]?,
        vec![in alloc; 3]?,
    );
    let write = |at, bytes| Call::Write { at, bytes };
    for (call, want) in [
        (Call::Size, Ok(4)),
        (write(2, b"xyz"), Ok(0)),
        (write(0, b""), Err(Failed)),
        (Call::Sync, Ok(0)),
        (Call::Sync, Err(Failed)),
        (Call::Read { at: 3 }, Ok(b'y' as u64)),
        (Call::Size, Err(Failed)),
        (Call::Size, Ok(5)),
        (write(0, b"a"), Err(Failed)),
        (Call::Sync, Ok(0)),
        (Call::Sync, Err(Failed)),
    ] {
        assert_eq!(rt; answer(&mut disk, call), want);
    }
    assert_eq!(rt; disk.bytes(), b"abxyz".as_slice());
    Ok(())
}

// Reads "Abxyz!", and read "abcd" at its last sync. Its first byte and its last one are written alone.
fn unsynced(alloc: Global) -> Result<MemDisk, Fail> {
    let mut disk = MemDisk::new(alloc, b"abcd".to_vec(alloc)?, 1000)?;
    for (at, bytes) in [(0, b"A".as_slice()), (2, b"xyz"), (5, b"!")] {
        if at <= disk.bytes().len() {
            disk.write_at(at as u64, bytes).ok().ok_or("no room")?;
        }
    }
    Ok(disk)
}

#[test]
fn a_crash_leaves_what_is_chosen(rt: HostRuntime) -> Result<(), Fail> {
    let alloc = rt.alloc();
    for (choice, whole, want) in [
        (b"".as_slice(), true, b"Abxyz!".as_slice()),
        (b"", false, b"Abxy"),
        (b"\0", true, b"ab\0\0\0\0"),
        (b"\xff", false, b"ab\xff\xff"),
        (b"A12", true, b"Ab12A\0"),
        (b"a123!", true, b"ab123!"),
    ] {
        let disk = unsynced(alloc)?;
        let (least, most) = (disk.least_size(), disk.bytes().len() as u64);
        let size = if whole { most } else { least };
        let mut left = disk.crash(choice, size);
        assert_eq!(rt; left.bytes(), want, "choice {choice:?}");
        assert_eq!(rt; left.sync(), Ok(()));
    }
    Ok(())
}

/// What a file answers, as a number: how many bytes there are, or the byte that is read, or 0.
fn file_answer(disk: &mut FileDisk, call: Call) -> Result<u64, Failed> {
    match call {
        Call::Size => disk.size(),
        Call::Read { at } => {
            let mut byte = [0];
            disk.read_at(at, &mut byte)?;
            Ok(byte[0] as u64)
        }
        Call::Write { at, bytes } => {
            disk.write_at(at, bytes)?;
            Ok(0)
        }
        Call::Sync => {
            disk.sync()?;
            Ok(0)
        }
    }
}

#[test]
fn a_file_keeps_what_is_written(rt: HostRuntime) -> Result<(), Fail> {
    let path = "a_file_of_a_test";
    fs::write(&rt, path, "abcd")?;
    let file = File::options().read(true).write(true).open(&rt, path)?;
    let mut disk = FileDisk::new(file);
    let write = |at, bytes| Call::Write { at, bytes };
    for (call, want) in [
        (Call::Size, Ok(4)),
        (write(2, b"xyz"), Ok(0)),
        (Call::Sync, Ok(0)),
        (Call::Size, Ok(5)),
        (Call::Read { at: 4 }, Ok(b'z' as u64)),
        (Call::Read { at: 5 }, Err(Failed)),
        (Call::Read { at: u64::MAX }, Err(Failed)),
        (Call::Read { at: 0 }, Ok(b'a' as u64)),
        (write(u64::MAX, b"xyz"), Err(Failed)),
    ] {
        assert_eq!(rt; file_answer(&mut disk, call), want);
    }
    assert_eq!(rt; fs::read(&rt, path)?.as_slice(), b"abxyz".as_slice());
    fs::remove_file(&rt, path)?;
    let mut missing = FileDisk::missing();
    assert_eq!(rt; missing.size(), Err(Failed));
    Ok(())
}
