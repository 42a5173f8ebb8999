// A file of the system. Its content and its calls aren't known, and it counts its faults.
ghost use Rattle.std.specs.Prelude.{◌≡◌, None, true, false, length, IsTrue, IsNone, IsErr};
ghost use Rattle.base_types.specs.Causes.{HasCause};
ghost use Rattle.disk_core.specs.Crash.{Follows, Tears};
ghost use Rattle.disk_core.specs.File.{AnyImage};
ghost use Rattle.disk_core.specs.Memory.{faults_after};

use crate::{Disk, Failed};
use std::fs::File;
use std::io;
use std::marker::Model;
use std::os::unix::fs::FileExt;

/// A file of the system, read and written at places. A read, a write or a sync that a signal interrupts is
/// made again, and one that reads or writes a part is continued.
///
/// Its first call, whichever it is, brings to the disk what a read of the file gives, so that nothing is
/// pending. Where that fails, so does the call, and the next one tries it again.
#[derive(Drop)]
pub struct FileDisk {
    file: Option<File>,
    is_settled: bool,
    faults: u64,
}

impl Model for FileDisk {
    ghost use Rattle.std.specs.Prelude.{is_none};
    ghost use Rattle.disk_core.specs.File.{FileView};

    ghost Value = { FileView };

    ghost view = { λ f. record { missing = is_none f.file; faults = f.faults } };
}

impl FileDisk {
    /// The disk of a file, which nobody else writes. It calls nothing.
    pub fn new(file: File) -> FileDisk
        ensures { result ≡ record { missing = false; faults = 0 } }
    {
        FileDisk {
            file: Some(file),
            is_settled: false,
            faults: 0,
        }
    }

    /// Stands for a file that can't be opened or made: each call of it returns `Failed`.
    pub fn missing() -> FileDisk
        ensures { result ≡ record { missing = true; faults = 0 } }
    {
        FileDisk {
            file: None,
            is_settled: false,
            faults: 0,
        }
    }

    /// Has nothing pending that was written before the file was opened.
    fn settle(&mut self) -> Result<(), Failed>
        ensures same { self.new ≡ self.old }
        ensures missing { IsTrue self.old.missing → IsErr result }
    {
        let file = self.file.as_ref().ok_or(Failed)?;
        if !self.is_settled {
            settle(file).map_err(|_| Failed)?;
            self.is_settled = true;
        }
        Ok(())
    }

    fn counted<T>(&mut self, answer: Result<T, Failed>) -> Result<T, Failed>
        ensures answer { result ≡ answer }
        ensures cause { HasCause self.old.faults self.new.faults answer }
        ensures counted { self.new ≡ record self.old { faults = faults_after answer self.old.faults } }
    {
        if answer.is_err() {
            self.faults = self.faults.saturating_add(1);
        }
        answer
    }
}

/// The byte with which a file begins whose content counts.
const OPEN: u8 = 1;

/// The most bytes of a file that may count.
const MOST: u64 = 67_108_865;

/// How many bytes are read at once.
const PIECE: usize = 8192;

/// No file system marks fewer bytes as changed.
const SECTOR: usize = 512;

/// Has what counts of an open file written to the disk once more. After a sync that failed in an earlier process
/// the system takes a page for clean that never reached the disk, and gives it to each reader. One byte written
/// again makes its sector pending again, and a byte that is written alone can't be torn. Sectors of zeros, those
/// of a hole among them, stay as they are: a gate is opened once all behind it was synced, so of what counts a
/// failed sync can have lost nothing but an open gate.
fn settle(file: &File) -> io::Result<()> {
    let size = file.metadata()?.len().min(MOST);
    if size > 0 && first_byte(file)? == OPEN {
        for i in 0..size.div_ceil(PIECE as u64) {
            settle_piece(file, i * PIECE as u64, size)?;
        }
    }
    file.sync_data()
}

fn first_byte(file: &File) -> io::Result<u8> {
    let mut byte = [0];
    file.read_exact_at(&mut byte, 0)?;
    Ok(byte[0])
}

/// Settles the bytes from `at` on, as far as a piece goes and the file of that size.
fn settle_piece(file: &File, at: u64, size: u64) -> io::Result<()> {
    let mut room = [0; PIECE];
    let len = size.saturating_sub(at).min(PIECE as u64) as usize;
    file.read_exact_at(&mut room[..len], at)?;
    touch_sectors(file, at, &room[..len])
}

/// Writes a byte again of each sector that isn't all zeros, of those that begin at `at`.
fn touch_sectors(file: &File, at: u64, bytes: &[u8]) -> io::Result<()> {
    let mut start = at;
    for sector in bytes.chunks(SECTOR) {
        if let Some(place) = sector.iter().position(|byte| *byte != 0) {
            file.write_all_at(&[sector[place]], start.saturating_add(place as u64))?;
        }
        start = start.saturating_add(SECTOR as u64);
    }
    Ok(())
}

fn length_of(file: &Option<File>) -> Result<u64, Failed>
    ensures missing { IsNone file.now → IsErr result }
{
    let file = file.as_ref().ok_or(Failed)?;
    let metadata = file.metadata().map_err(|_| Failed)?;
    Ok(metadata.len())
}

fn read_exact(file: &Option<File>, at: u64, into: &mut [u8]) -> Result<(), Failed>
    ensures missing { IsNone file.now → IsErr result }
{
    let file = file.as_ref().ok_or(Failed)?;
    at.checked_add(into.len() as u64).ok_or(Failed)?;
    file.read_exact_at(into, at).map_err(|_| Failed)
}

fn write_all(file: &Option<File>, at: u64, bytes: &[u8]) -> Result<(), Failed>
    ensures missing { IsNone file.now → IsErr result }
{
    let file = file.as_ref().ok_or(Failed)?;
    at.checked_add(bytes.len() as u64).ok_or(Failed)?;
    file.write_all_at(bytes, at).map_err(|_| Failed)
}

fn sync_data(file: &Option<File>) -> Result<(), Failed>
    ensures missing { IsNone file.now → IsErr result }
{
    let file = file.as_ref().ok_or(Failed)?;
    file.sync_data().map_err(|_| Failed)
}

impl Disk for FileDisk {
    ghost use Rattle.std.specs.Prelude.{None};
    ghost use Rattle.disk_core.specs.File.{AnyImage};

    ghost content = { λ _. None };

    ghost may_leave = { λ _. AnyImage };

    ghost moment = { λ _. 0 };

    ghost left_since = { λ _ _. AnyImage };

    ghost faults = { λ f. f.faults };

    ghost calls = { λ _. None };

    ghost counts_now = { λ f t image le now. now };

    ghost only_now = { λ f image now. now };

    ghost leaves_as_read = { λ f image is. tt };

    fn size(&mut self) -> Result<u64, Failed>
        ensures cause { HasCause self.old.faults self.new.faults result }

        // A missing file returns nothing else, and each fault is counted once.
        ensures missing { IsTrue self.old.missing → IsErr result }
        ensures counted { self.new ≡ record self.old { faults = faults_after result self.old.faults } }
    {
        let settled = self.settle();
        let length = settled.and_then(|()| length_of(&self.file));
        self.counted(length)
    }

    fn read_at(&mut self, at: u64, into: &mut [u8]) -> Result<(), Failed>
        ensures cause { HasCause self.old.faults self.new.faults result }

        // A missing file returns nothing else, and each fault is counted once.
        ensures missing { IsTrue self.old.missing → IsErr result }
        ensures counted { self.new ≡ record self.old { faults = faults_after result self.old.faults } }
    {
        let settled = self.settle();
        let read = settled.and_then(|()| read_exact(&self.file, at, into));
        self.counted(read)
    }

    fn write_at(&mut self, at: u64, bytes: &[u8]) -> Result<(), Failed>
        ensures crash { Follows (Tears at bytes.now) AnyImage AnyImage }
        ensures cause { HasCause self.old.faults self.new.faults result }

        // A missing file returns nothing else, and each fault is counted once.
        ensures missing { IsTrue self.old.missing → IsErr result }
        ensures counted { self.new ≡ record self.old { faults = faults_after result self.old.faults } }
    {
        let settled = self.settle();
        let written = settled.and_then(|()| write_all(&self.file, at, bytes));
        self.counted(written)
    }

    fn sync(&mut self) -> Result<(), Failed>
        ensures cause { HasCause self.old.faults self.new.faults result }

        // A missing file returns nothing else, and each fault is counted once.
        ensures missing { IsTrue self.old.missing → IsErr result }
        ensures counted { self.new ≡ record self.old { faults = faults_after result self.old.faults } }
    {
        let settled = self.settle();
        let synced = settled.and_then(|()| sync_data(&self.file));
        self.counted(synced)
    }
}
