// Reads a lane file whole.
ghost use Rattle.std.specs.Prelude.{◌≡◌, ◌≢◌, ◌+◌, ◌≤◌, ℕ, List, length, drop};
ghost use Rattle.std.specs.Prelude.{IfOk, IfErr, IfSome, OnOk};
ghost use Rattle.std.specs.Option.{ForSome};
ghost use Rattle.base_types.specs.Causes.{HasCause, one_more};
ghost use Rattle.disk_core.specs.Moments.{OnlyReads};
ghost use Rattle.disk_core.specs.declared.store.FileName.{FileName};
ghost use Rattle.lane_format.specs.Batches.{ReadTo, stands};
ghost use Rattle.lane_format.specs.LaneRead.{head_reads, lane_reads, read_as};
ghost use Rattle.lane_format.specs.ReadingSteps.{NextIs, StopHasCause, StopsAt, found_as};
ghost use Rattle.lane_format.specs.Windows.{IsWindow};
ghost use Rattle.lane_format.specs.declared.gate.AtGate.TheVariants.{Body, Broken, End};
ghost use Rattle.lane_format.specs.declared.head.Head.TheVariants.{Open};

use crate::stop::ReadStop;
use crate::window::Window;
use crate::{
    AtGate, BATCH_HEAD, Batch, FIRST_GATE, HEAD, Head, LaneReadFault, Segment, at_gate, read_head,
};
use base_types::Items;
use disk_core::{Disk, Failed, FileName};
use std::alloc::Global;

/// Reads the file of a lane, that of odd generations or that of even ones: None where its gate isn't open.
/// `Damaged` names the first place at which an open file isn't what a lane file holds. The time is linear in
/// the file's size, and memory is taken for a body once its length was found to lie within the file.
pub fn read_segment<D: Disk>(
    alloc: Global,
    disk: &mut D,
    odd: bool,
    lane: u16,
) -> Result<Option<Segment>, LaneReadFault>
    // It says what the file reads as, where the content is known.
    ensures segment { ForSome (D.content disk.old) (λ bytes.
        IfSome (read_as result) (lane_reads odd lane bytes)) }

    // The disk is only read. A fault names the file, and comes where one call of the disk failed.
    ensures only_reads { OnlyReads D.Disk disk.old disk.new }
    ensures disk { (file : FileName) → result ≡ Err (LaneReadFault.Disk file) →
        (file ≡ FileName.Lane lane odd) × (D.faults disk.new ≡ one_more (D.faults disk.old)) }
    ensures damaged { (file : FileName) (at : ℕ) → result ≡ Err (LaneReadFault.Damaged file at) →
        file ≡ FileName.Lane lane odd }
    ensures still { ((file : FileName) → result ≢ Err (LaneReadFault.Disk file)) →
        D.faults disk.new ≡ D.faults disk.old }
{
    let file = FileName::Lane { lane, odd };
    match read(alloc, disk, odd, lane) {
        Ok(segment) => Ok(segment),
        Err(ReadStop::Disk) => Err(LaneReadFault::Disk { file }),
        Err(ReadStop::Damaged { at }) => Err(LaneReadFault::Damaged { file, at }),
        Err(ReadStop::OutOfMemory) => Err(LaneReadFault::OutOfMemory),
    }
}

fn read<D: Disk>(
    alloc: Global,
    disk: &mut D,
    odd: bool,
    lane: u16,
) -> Result<Option<Segment>, ReadStop>
    ensures segment { ForSome (D.content disk.old) (λ bytes.
        IfSome (found_as result) (lane_reads odd lane bytes)) }
    ensures only_reads { OnlyReads D.Disk disk.old disk.new }
    ensures cause { StopHasCause (D.faults disk.old) (D.faults disk.new) result }
{
    let size = disk.size()?;
    match head_of(disk, size, odd, lane)? {
        Head::NotOpen => Ok(None),
        Head::Damaged { at } => Err(ReadStop::Damaged { at }),
        Head::Open { generation } => {
            let batches = read_batches(alloc, disk, size)?;
            Ok(Some(Segment {
                generation,
                batches: Items::from_vec(batches),
            }))
        }
    }
}

/// What the file's head says.
fn head_of<D: Disk>(disk: &mut D, size: u64, odd: bool, lane: u16) -> Result<Head, Failed>
    requires { ForSome (D.content disk.old) (λ bytes. size ≡ length bytes) }
    ensures head { IfOk result (λ head. ForSome (D.content disk.old) (λ bytes.
        head_reads odd lane bytes head)) }
    ensures long { (generation : ℕ) → result ≡ Ok (Open generation) → 11 ≤ size }
    ensures only_reads { OnlyReads D.Disk disk.old disk.new }
    ensures cause { HasCause (D.faults disk.old) (D.faults disk.new) result }
{
    let mut front = [0; HEAD];
    let front = &mut front[..size.min(HEAD as u64) as usize];
    disk.read_at(0, front)?;
    Ok(read_head(front, odd, lane))
}

/// Reads the batches behind the head.
fn read_batches<D: Disk>(alloc: Global, disk: &mut D, size: u64) -> Result<Vec<Batch>, ReadStop>
    requires size { ForSome (D.content disk.old) (λ bytes. size ≡ length bytes) }
    requires head { 11 ≤ size }
    ensures whole { IfOk result (λ batches. ForSome (D.content disk.old) (λ bytes. (gate : ℕ)
        × ReadTo bytes batches.items gate × stands (drop gate bytes) End)) }
    ensures damaged { (at : ℕ) → result ≡ Err (ReadStop.Damaged at) →
        ForSome (D.content disk.old) (λ bytes. (batches : List Batch)
        × ReadTo bytes batches at × stands (drop at bytes) Broken) }
    ensures only_reads { OnlyReads D.Disk disk.old disk.new }
    ensures cause { StopHasCause (D.faults disk.old) (D.faults disk.new) result }
{
    let mut window = Window::new();
    let mut batches = Vec::new(alloc);
    let mut gate = FIRST_GATE;
    loop {
        match read_batch(alloc, disk, &mut window, size, gate)? {
            None => return Ok(batches),
            Some(batch) => {
                gate = batch.at + batch.body.len() as u64;
                batches.push(batch)?;
            }
        }
    }
}

/// Reads the batch at a gate, where it is open.
fn read_batch<D: Disk>(
    alloc: Global,
    disk: &mut D,
    window: &mut Window,
    size: u64,
    gate: u64,
) -> Result<Option<Batch>, ReadStop>
    requires size { ForSome (D.content disk.old) (λ bytes. size ≡ length bytes) }
    requires inside { gate ≤ size }
    requires window { IsWindow (D.content disk.old) window.old }
    ensures next { IfOk result (λ next. ForSome (D.content disk.old) (λ bytes. NextIs bytes gate next)) }
    ensures place { IfOk result (λ next. IfSome next (λ batch.
        (batch.at ≡ gate + 5) × (batch.at + length batch.body ≤ size))) }
    ensures damaged { IfErr result (StopsAt (D.content disk.old) gate) }
    ensures window { OnOk result (IsWindow (D.content disk.old) window.new) }
    ensures only_reads { OnlyReads D.Disk disk.old disk.new }
    ensures cause { StopHasCause (D.faults disk.old) (D.faults disk.new) result }
{
    match gate_of(disk, window, size, gate)? {
        AtGate::End => Ok(None),
        AtGate::Broken => Err(ReadStop::Damaged { at: gate }),
        AtGate::Body { len } => {
            let at = gate + BATCH_HEAD;
            let mut body: Vec<u8> = vec![in alloc; 0; len as usize]?;
            window.fetch(disk, size, at, &mut body)?;
            Ok(Some(Batch {
                at,
                body: Items::from_vec(body),
            }))
        }
    }
}

/// What stands at a gate.
fn gate_of<D: Disk>(
    disk: &mut D,
    window: &mut Window,
    size: u64,
    gate: u64,
) -> Result<AtGate, Failed>
    requires size { ForSome (D.content disk.old) (λ bytes. size ≡ length bytes) }
    requires inside { gate ≤ size }
    requires window { IsWindow (D.content disk.old) window.old }
    ensures stands { IfOk result (λ found. ForSome (D.content disk.old) (λ bytes.
        stands (drop gate bytes) found)) }
    ensures inside { (len : ℕ) → result ≡ Ok (Body len) → (1 ≤ len) × (gate + 5 + len ≤ size) }
    ensures window { OnOk result (IsWindow (D.content disk.old) window.new) }
    ensures only_reads { OnlyReads D.Disk disk.old disk.new }
    ensures cause { HasCause (D.faults disk.old) (D.faults disk.new) result }
{
    let left = size - gate;
    let mut front = [0; 5];
    let front = &mut front[..left.min(BATCH_HEAD) as usize];
    window.fetch(disk, size, gate, front)?;
    Ok(at_gate(front, left))
}
