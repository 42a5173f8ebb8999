// Reads the records of a lane's file one by one, through a window.
use crate::item::{Found, Item};
use crate::window::Window;
use disk_core::{Disk, FileName};
use lane_format::{AtGate, BATCH_HEAD, FIRST_GATE, HEAD, Head, LaneReadFault, at_gate, read_head};
use std::alloc::Global;
use xor_records::read_rec;

/// How many bytes a record has at most: 27, and a page's 4,096.
const LONGEST: u64 = 27 + 4096;

/// Reads the records of a lane's file in their order, each with its place. It takes memory once, for a window
/// of 65,536 bytes.
///
/// The disk has to read as it did when the reader was opened.
#[derive(Drop)]
pub struct SegmentReader {
    file: FileName,
    generation: u64,
    size: u64,
    // Where the next record stands in a body that ends at `end`. A gate stands there where the two are the
    // same.
    place: u64,
    end: u64,
    window: Window,
}

impl SegmentReader {
    ghost use Rattle.std.specs.Prelude.{◌≡◌, ◌≢◌, ◌<◌, ◌≤◌, ℕ, true, false, List, [], IfOk, IfSome, OnErr, length};
    ghost use Rattle.std.specs.Option.{ForSome};
    ghost use Rattle.std.specs.Borrow.{sem};
    ghost use Rattle.disk_core.specs.Moments.{OnlyReads};
    ghost use Rattle.disk_core.specs.declared.store.FileName.{FileName};
    ghost use Rattle.lane_format.specs.LaneRead.{head_reads};
    ghost use Rattle.xor_records.specs.Record.{Record, IsRecord, record_text};
    ghost use Rattle.replay_core.specs.Segments.{EndsBehind, IsDamagedBehind, Placed};
    ghost use Rattle.replay_core.specs.Windows.{Covers, piece_of};
    ghost use Rattle.replay_core.specs.Items.{Shows, place_of};
    ghost use Rattle.replay_core.specs.Readers.{Causes, HasRead, IsOver, IsSameFile, KeepsRead, Stepping, Steps};
    ghost use Rattle.replay_core.specs.Readers.{StepsOver, file_of, generation_of, head_as, left_of};

    /// Opens the file of a lane, that of odd generations or that of even ones, before its first record: None
    /// where its gate isn't open. `Disk`: a call of its disk failed. `Damaged`: the head isn't that of this
    /// lane's file; it names the place in the head. `OutOfMemory`: there is none for the window.
    pub fn open<D: Disk>(
        alloc: Global,
        disk: &mut D,
        odd: bool,
        lane: u16,
    ) -> Result<Option<SegmentReader>, LaneReadFault>
        // It says what the head of the file reads as.
        ensures head { ForSome (D.content disk.old) (λ bytes.
            IfSome (head_as result) (head_reads odd lane bytes)) }

        // The reader has read nothing so far.
        ensures over { IfOk result (λ opened. IfSome opened (IsOver (D.content disk.old))) }
        ensures read { IfOk result (λ opened. IfSome opened (λ reader. HasRead (D.content disk.old) reader [])) }
        ensures file { IfOk result (λ opened. IfSome opened (λ reader. file_of reader ≡ FileName.Lane lane odd)) }

        // The disk is only read, and a fault has its cause.
        ensures only_reads { OnlyReads D.Disk disk.old disk.new }
        ensures cause { Causes (FileName.Lane lane odd) (D.faults disk.old) (D.faults disk.new) result }
    {
        let file = FileName::Lane { lane, odd };
        let Ok(size) = disk.size() else {
            return Err(LaneReadFault::Disk { file });
        };
        let mut front = [0; HEAD];
        let front = &mut front[..size.min(HEAD as u64) as usize];
        let Ok(()) = disk.read_at(0, front) else {
            return Err(LaneReadFault::Disk { file });
        };
        match read_head(front, odd, lane) {
            Head::NotOpen => Ok(None),
            Head::Damaged { at } => Err(LaneReadFault::Damaged { file, at }),
            Head::Open { generation } => {
                let Ok(window) = Window::new(alloc) else {
                    return Err(LaneReadFault::OutOfMemory);
                };
                Ok(Some(SegmentReader {
                    file,
                    generation,
                    size,
                    place: FIRST_GATE,
                    end: FIRST_GATE,
                    window,
                }))
            }
        }
    }

    /// The generation that the file's head says.
    pub fn generation(&self) -> u64
        ensures { result ≡ generation_of self.now }
    {
        self.generation
    }

    /// The next record: None where a gate comes that isn't open, or the file ends. It takes no memory.
    ///
    /// `Disk`: a call of the disk failed; the reader stands where it stood. `Damaged`: an open gate comes at
    /// which no batch stands, or in a body no record stands where the next has to; it names the place of the
    /// gate, or the first byte that has to be the record's. No record goes past the end of its body.
    pub fn next<'a, D: Disk>(&'a mut self, disk: &mut D) -> Result<Option<Item<'a>>, LaneReadFault>
        requires over { IsOver (D.content disk.old) self.old }

        // The item stands next behind those that were read.
        ensures* read { sem 𝓛 (Stepping self.entry (Steps (D.content disk.old) self.old result)) }

        // None comes at the end, and `Damaged` at the first damage behind what was read.
        ensures end { result ≡ Ok None → (items : List Placed) → HasRead (D.content disk.old) self.old items
            → ForSome (D.content disk.old) (λ bytes. EndsBehind bytes items) }
        ensures damaged { (file : FileName) (at : ℕ) → result ≡ Err (LaneReadFault.Damaged file at)
            → (items : List Placed) → HasRead (D.content disk.old) self.old items
            → ForSome (D.content disk.old) (λ bytes. IsDamagedBehind bytes items at) }

        // The disk is only read, and a fault has its cause, which is never memory.
        ensures only_reads { OnlyReads D.Disk disk.old disk.new }
        ensures cause { Causes (file_of self.old) (D.faults disk.old) (D.faults disk.new) result }
        ensures memory { result ≢ Err LaneReadFault.OutOfMemory }
    {
        match self.advance(disk) {
            Ok(None) => Ok(None),
            Ok(Some(found)) => Ok(Some(self.item(found))),
            Err(fault) => Err(fault),
        }
    }

    /// Goes over the next record.
    fn advance<D: Disk>(&mut self, disk: &mut D) -> Result<Option<Found>, LaneReadFault>
        requires over { IsOver (D.content disk.old) self.old }
        ensures over { IsOver (D.content disk.old) self.new }
        ensures same { IsSameFile self.old self.new }
        ensures found { IfOk result (λ next. IfSome next (λ found.
            StepsOver (D.content disk.old) self.old found self.new)) }
        ensures none { result ≡ Ok None → KeepsRead (D.content disk.old) self.old self.new }
        ensures err { OnErr result (KeepsRead (D.content disk.old) self.old self.new) }
        ensures end { result ≡ Ok None → (items : List Placed) → HasRead (D.content disk.old) self.old items
            → ForSome (D.content disk.old) (λ bytes. EndsBehind bytes items) }
        ensures damaged { (file : FileName) (at : ℕ) → result ≡ Err (LaneReadFault.Damaged file at)
            → (items : List Placed) → HasRead (D.content disk.old) self.old items
            → ForSome (D.content disk.old) (λ bytes. IsDamagedBehind bytes items at) }
        ensures only_reads { OnlyReads D.Disk disk.old disk.new }
        ensures cause { Causes (file_of self.old) (D.faults disk.old) (D.faults disk.new) result }
        ensures memory { result ≢ Err LaneReadFault.OutOfMemory }
    {
        if self.place < self.end {
            return match self.step(disk) {
                Ok(found) => Ok(Some(found)),
                Err(fault) => Err(fault),
            };
        }
        match self.enter(disk) {
            Ok(true) => match self.step(disk) {
                Ok(found) => Ok(Some(found)),
                Err(fault) => Err(fault),
            },
            Ok(false) => Ok(None),
            Err(fault) => Err(fault),
        }
    }

    /// Goes from a gate into the body behind it. False: the gate isn't open, or the file ends there.
    fn enter<D: Disk>(&mut self, disk: &mut D) -> Result<bool, LaneReadFault>
        requires over { IsOver (D.content disk.old) self.old }
        requires gate { self.old.place ≡ self.old.end }
        ensures over { IsOver (D.content disk.old) self.new }
        ensures same { IsSameFile self.old self.new }
        ensures entered { result ≡ Ok true → self.new.place < self.new.end }
        ensures ahead { left_of self.new ≤ left_of self.old }
        ensures kept { KeepsRead (D.content disk.old) self.old self.new }
        ensures end { result ≡ Ok false → (items : List Placed) → HasRead (D.content disk.old) self.old items
            → ForSome (D.content disk.old) (λ bytes. EndsBehind bytes items) }
        ensures damaged { (file : FileName) (at : ℕ) → result ≡ Err (LaneReadFault.Damaged file at)
            → (items : List Placed) → HasRead (D.content disk.old) self.old items
            → ForSome (D.content disk.old) (λ bytes. IsDamagedBehind bytes items at) }
        ensures only_reads { OnlyReads D.Disk disk.old disk.new }
        ensures cause { Causes (file_of self.old) (D.faults disk.old) (D.faults disk.new) result }
        ensures memory { result ≢ Err LaneReadFault.OutOfMemory }
    {
        let gate = self.place;
        let left = self.size - gate;
        let n = left.min(BATCH_HEAD) as usize;
        let Ok(()) = self.window.reach(disk, self.size, gate, n) else {
            return Err(LaneReadFault::Disk { file: self.file });
        };
        match at_gate(self.window.bytes(gate, n), left) {
            AtGate::End => Ok(false),
            AtGate::Broken => Err(LaneReadFault::Damaged {
                file: self.file,
                at: gate,
            }),
            AtGate::Body { len } => {
                self.place = gate + BATCH_HEAD;
                self.end = self.place + u64::from(len);
                Ok(true)
            }
        }
    }

    /// Goes over the record that stands next in the body.
    fn step<D: Disk>(&mut self, disk: &mut D) -> Result<Found, LaneReadFault>
        requires over { IsOver (D.content disk.old) self.old }
        requires inside { self.old.place < self.old.end }
        ensures over { IsOver (D.content disk.old) self.new }
        ensures same { IsSameFile self.old self.new }
        ensures found { IfOk result (λ found. StepsOver (D.content disk.old) self.old found self.new) }
        ensures err { OnErr result (KeepsRead (D.content disk.old) self.old self.new) }
        ensures damaged { (file : FileName) (at : ℕ) → result ≡ Err (LaneReadFault.Damaged file at)
            → (items : List Placed) → HasRead (D.content disk.old) self.old items
            → ForSome (D.content disk.old) (λ bytes. IsDamagedBehind bytes items at) }
        ensures only_reads { OnlyReads D.Disk disk.old disk.new }
        ensures cause { Causes (file_of self.old) (D.faults disk.old) (D.faults disk.new) result }
        ensures memory { result ≢ Err LaneReadFault.OutOfMemory }
    {
        let at = self.place;
        let n = (self.end - at).min(LONGEST) as usize;
        let Ok(()) = self.window.reach(disk, self.size, at, n) else {
            return Err(LaneReadFault::Disk { file: self.file });
        };
        let len = match read_rec(self.window.bytes(at, n)) {
            Ok((_, len)) => len,
            Err(_) => {
                return Err(LaneReadFault::Damaged {
                    file: self.file,
                    at,
                });
            }
        };
        self.place = at + len as u64;
        Ok(Found { at, len })
    }

    /// The record that stands there, of which the window has the bytes.
    fn item(&self, found: Found) -> Item<'_>
        requires covers { Covers found.at found.len self.now.window }
        requires room { self.now.window.len ≤ length self.now.window.bytes.items }
        ensures at { place_of result ≡ found.at }
        ensures shows { (rec : Record) → IsRecord rec
            → piece_of self.now.window found.at found.len ≡ record_text rec → Shows result rec }
    {
        Item::new(found.at, self.window.bytes(found.at, found.len))
    }
}
