// The device calls that close, reset and extend one of a lane's files, in the order that a crash wants: a
// gate is opened by a write of its own, once what it opens is on the disk.
ghost use Rattle.std.specs.Prelude.{◌≡◌, ◌<◌, ◌≤◌, ◌^◌, ◌++◌, [], ◌∷◌, ℕ, List, not, length, IsSome, OnOk};
ghost use Rattle.std.specs.Option.{ForSome, option_map};
ghost use Rattle.std.specs.Int.{w16, w64, to_le_bytes};
ghost use Rattle.base_types.specs.Causes.{HasCause};
ghost use Rattle.disk_core.specs.ChangeCalls.{Made, SyncCall, WriteCall};
ghost use Rattle.disk_core.specs.Crash.{Follows, NothingPending, Tears};
ghost use Rattle.disk_core.specs.Device.{written};
ghost use Rattle.disk_core.specs.Moments.{LeavesNow, LeavesOnly};
ghost use Rattle.lane_format.specs.Lane.{IsBody, IsHead, IsLane, IsNotOpen};
ghost use Rattle.lane_format.specs.Lane.{emptied, extended, frame_text, lane_text, shut};
ghost use Rattle.lane_writer.specs.Crash.{NotOpenOrEmpty, OldOrNotOpen, TornFrom, WithOrWithout};
ghost use Rattle.lane_writer.specs.Plans.{append_calls, close_calls, reset_calls};
ghost use Rattle.lane_writer.specs.Writer.{file_of};

use disk_core::{Disk, Failed, LaneDisks};
use lane_format::{CLOSED, OPEN};

/// Writes these bytes to a disk and brings them to where a crash leaves them.
fn put_down<D: Disk>(disk: &mut D, at: u64, bytes: &[u8]) -> Result<(), Failed>
    requires { ForSome (D.content disk.old) (λ old. at ≤ length old) }
    ensures written { OnOk result
        (D.content disk.new ≡ option_map (written at bytes.now) (D.content disk.old)) }
    ensures calls { Made (WriteCall at bytes.now ∷ SyncCall ∷ []) result
        (D.calls disk.old) (D.calls disk.new) }
    ensures told { IsSome (D.content disk.old) → IsSome (D.content disk.new) }
    ensures durable { OnOk result (NothingPending (D.content disk.new) (D.may_leave disk.new)) }
    ensures crash { Follows (Tears at bytes.now) (D.may_leave disk.old) (D.may_leave disk.new) }
    ensures moments { LeavesOnly D.Disk disk.old disk.new (TornFrom (D.may_leave disk.old) at bytes.now) }
    ensures cause { HasCause (D.faults disk.old) (D.faults disk.new) result }
{
    disk.write_at(at, bytes)?;
    disk.sync()
}

/// The same with one of the two disks. The other one isn't called.
fn put<D: Disk>(disks: &mut LaneDisks<D>, odd: bool, at: u64, bytes: &[u8]) -> Result<(), Failed>
    requires { ForSome (D.content (file_of odd disks.old)) (λ old. at ≤ length old) }
    ensures written { OnOk result (D.content (file_of odd disks.new)
        ≡ option_map (written at bytes.now) (D.content (file_of odd disks.old))) }
    ensures calls { Made (WriteCall at bytes.now ∷ SyncCall ∷ []) result
        (D.calls (file_of odd disks.old)) (D.calls (file_of odd disks.new)) }
    ensures told { IsSome (D.content (file_of odd disks.old)) → IsSome (D.content (file_of odd disks.new)) }
    ensures durable { OnOk result
        (NothingPending (D.content (file_of odd disks.new)) (D.may_leave (file_of odd disks.new))) }
    ensures crash { Follows (Tears at bytes.now)
        (D.may_leave (file_of odd disks.old)) (D.may_leave (file_of odd disks.new)) }
    ensures moments { LeavesOnly D.Disk (file_of odd disks.old) (file_of odd disks.new)
        (TornFrom (D.may_leave (file_of odd disks.old)) at bytes.now) }
    ensures cause { HasCause (D.faults (file_of odd disks.old)) (D.faults (file_of odd disks.new)) result }
    ensures other { file_of (not odd) disks.new ≡ file_of (not odd) disks.old }
{
    if odd {
        put_down(&mut disks.odd, at, bytes)
    } else {
        put_down(&mut disks.even, at, bytes)
    }
}

/// Closes the gate of one of the files.
pub(crate) fn close<D: Disk>(disks: &mut LaneDisks<D>, odd: bool) -> Result<(), Failed>
    ensures shut { OnOk result (D.content (file_of odd disks.new)
        ≡ option_map shut (D.content (file_of odd disks.old))) }
    ensures calls { Made close_calls result
        (D.calls (file_of odd disks.old)) (D.calls (file_of odd disks.new)) }
    ensures told { IsSome (D.content (file_of odd disks.old)) → IsSome (D.content (file_of odd disks.new)) }
    ensures durable { OnOk result
        (NothingPending (D.content (file_of odd disks.new)) (D.may_leave (file_of odd disks.new))) }
    ensures moments { LeavesOnly D.Disk (file_of odd disks.old) (file_of odd disks.new)
        (OldOrNotOpen D.Disk (file_of odd disks.old)) }
    ensures cause { HasCause (D.faults (file_of odd disks.old)) (D.faults (file_of odd disks.new)) result }
    ensures other { file_of (not odd) disks.new ≡ file_of (not odd) disks.old }
{
    put(disks, odd, 0, &[CLOSED])
}

/// Makes one of the files an open lane with no batch.
pub(crate) fn reset<D: Disk>(
    disks: &mut LaneDisks<D>,
    odd: bool,
    generation: u64,
    lane: u16,
) -> Result<(), Failed>
    requires gate { ForSome (D.content (file_of odd disks.old)) (λ bytes. 0 < length bytes) }
    requires some { 1 ≤ generation }
    ensures empty { OnOk result (D.content (file_of odd disks.new)
        ≡ option_map (emptied generation lane) (D.content (file_of odd disks.old))) }
    ensures head { IsHead generation lane }
    ensures calls { Made (reset_calls generation lane) result
        (D.calls (file_of odd disks.old)) (D.calls (file_of odd disks.new)) }
    ensures told { IsSome (D.content (file_of odd disks.old)) → IsSome (D.content (file_of odd disks.new)) }
    ensures durable { OnOk result
        (NothingPending (D.content (file_of odd disks.new)) (D.may_leave (file_of odd disks.new))) }
    ensures moments { LeavesNow D.Disk (file_of odd disks.old) IsNotOpen
        → LeavesOnly D.Disk (file_of odd disks.old) (file_of odd disks.new) (NotOpenOrEmpty generation lane) }
    ensures cause { HasCause (D.faults (file_of odd disks.old)) (D.faults (file_of odd disks.new)) result }
    ensures other { file_of (not odd) disks.new ≡ file_of (not odd) disks.old }
{
    put(disks, odd, 1, &header(generation, lane))?;
    put(disks, odd, 0, &[OPEN])
}

/// What stands behind the gate of a lane with no batch: generation, lane and a closed gate.
fn header(generation: u64, lane: u16) -> [u8; 11]
    ensures { result ≡ to_le_bytes w64 generation ++ to_le_bytes w16 lane ++ 0 ∷ [] }
{
    let [g0, g1, g2, g3, g4, g5, g6, g7] = generation.to_le_bytes();
    let [l0, l1] = lane.to_le_bytes();
    [g0, g1, g2, g3, g4, g5, g6, g7, l0, l1, CLOSED]
}

/// Puts a filled frame behind the gate of one of the files, and opens the gate once the frame is on the disk.
pub(crate) fn append<D: Disk>(
    disks: &mut LaneDisks<D>,
    odd: bool,
    gate: u64,
    frame: &[u8],
) -> Result<(), Failed>
    requires inside { ForSome (D.content (file_of odd disks.old)) (λ bytes. gate < length bytes) }
    requires near { gate ≤ 2 ^ 62 }
    ensures extended { OnOk result (D.content (file_of odd disks.new)
        ≡ option_map (extended gate frame.now) (D.content (file_of odd disks.old))) }
    ensures calls { Made (append_calls gate frame.now) result
        (D.calls (file_of odd disks.old)) (D.calls (file_of odd disks.new)) }
    ensures told { IsSome (D.content (file_of odd disks.old)) → IsSome (D.content (file_of odd disks.new)) }
    ensures durable { OnOk result
        (NothingPending (D.content (file_of odd disks.new)) (D.may_leave (file_of odd disks.new))) }
    ensures moments { (generation lane : ℕ) (bodies : List (List ℕ)) (body : List ℕ)
        → gate ≡ length (lane_text generation lane bodies) → frame.now ≡ frame_text body → IsBody body
        → LeavesNow D.Disk (file_of odd disks.old) (IsLane generation lane bodies)
        → LeavesOnly D.Disk (file_of odd disks.old) (file_of odd disks.new)
        (WithOrWithout generation lane bodies body) }
    ensures cause { HasCause (D.faults (file_of odd disks.old)) (D.faults (file_of odd disks.new)) result }
    ensures other { file_of (not odd) disks.new ≡ file_of (not odd) disks.old }
{
    put(disks, odd, gate + 1, frame)?;
    put(disks, odd, gate, &[OPEN])
}
