use crate::{LaneFault, frame, steps};
use disk_core::{Disk, Failed, FileName, LaneDisks};
use lane_format::FIRST_GATE;

/// How far a writer has come with its files.
#[derive(Clone, Copy, Debug, PartialEq, Eq)]
pub enum Stage {
    /// No file stands ready: one has to be closed first.
    Adopted,
    /// The file for this generation is closed, and can be reset for it.
    Shut { generation: u64 },
    /// The file for this generation is an open lane, and the next batch goes to the gate at this place.
    Open { generation: u64, gate: u64 },
    /// The disk of this file failed. No further call is made.
    Failed { file: FileName },
}

/// Appends batches to the log files of a lane: one has the lane's even generations, the other its odd ones.
/// No call takes memory, and a call for a generation leaves the file of the other parity as it is.
///
/// After a call that met a disk fault each later one returns `Closed` with that file and calls no disk.
pub struct LaneWriter<D> {
    disks: LaneDisks<D>,
    lane: u16,
    stage: Stage,
}

impl<D: Disk> LaneWriter<D> {
    ghost use Rattle.std.specs.Prelude.{◌≡◌, ◌⊎◌, ◌+◌, ◌≤◌, ◌^◌, ◌++◌, [], ◌∷◌, ℕ, Bool, List, not, length};
    ghost use Rattle.std.specs.Prelude.{IsOk, IsSome, OnOk, OnErr, MatchResult};
    ghost use Rattle.std.specs.Option.{ForSome, option_map};
    ghost use Rattle.disk_core.specs.ChangeCalls.{Made};
    ghost use Rattle.disk_core.specs.Moments.{LeavesNow};
    ghost use Rattle.disk_core.specs.declared.store.FileName.{FileName};
    ghost use Rattle.lane_format.specs.Lane.{IsLane, IsNotOpen, body_of, frame_text, lane_text, shut};
    ghost use Rattle.lane_writer.specs.Crash.{Leaves, NotOpenOrEmpty, OldOrNotOpen, WithOrWithout};
    ghost use Rattle.lane_writer.specs.Parity.{is_odd};
    ghost use Rattle.lane_writer.specs.Plans.{BlanksInOrder, Carries, IsBlanked};
    ghost use Rattle.lane_writer.specs.Plans.{append_calls, close_calls, reset_calls};
    ghost use Rattle.lane_writer.specs.Writer.{Holds, IsFailed, IsNear, IsSettled, IsShut, KeepsFault};
    ghost use Rattle.lane_writer.specs.Writer.{disk_of, disks_of, file_of, lane_of, parity_of, stage_of};

    /// Takes over both files of a lane, of which nothing is known: the one that is to be written has to be
    /// closed first.
    pub fn adopt(disks: LaneDisks<D>, lane: u16) -> LaneWriter<D>
        ensures disks { disks_of result ≡ disks }
        ensures lane { lane_of result ≡ lane }
        ensures stage { stage_of result ≡ Stage.Adopted }
    {
        LaneWriter {
            disks,
            lane,
            stage: Stage::Adopted,
        }
    }

    /// Takes over both files of a lane, of which the one for this generation is open, of this generation and
    /// lane. Its first gate that isn't open lies at `gate` inside the file, and the next batch goes there.
    pub fn adopt_open(disks: LaneDisks<D>, lane: u16, generation: u64, gate: u64) -> LaneWriter<D>
        requires near { gate ≤ 2 ^ 62 }
        requires open { ForSome (D.content (file_of (is_odd generation) disks)) (λ bytes.
            (bodies : List (List ℕ)) × (gate ≡ length (lane_text generation lane bodies))
            × IsLane generation lane bodies bytes) }
        ensures disks { disks_of result ≡ disks }
        ensures lane { lane_of result ≡ lane }
        ensures stage { stage_of result ≡ Stage.Open generation gate }

        // Where every crash now leaves that lane, the writer is settled.
        ensures settled { (bodies : List (List ℕ)) → gate ≡ length (lane_text generation lane bodies)
            → LeavesNow D.Disk (file_of (is_odd generation) disks) (IsLane generation lane bodies)
            → IsSettled D.Disk result generation bodies }
    {
        LaneWriter {
            disks,
            lane,
            stage: Stage::Open { generation, gate },
        }
    }

    /// Gives the disks back.
    pub fn into_disks(self) -> LaneDisks<D>
        ensures { result ≡ disks_of self }
    {
        let LaneWriter {
            disks,
            lane: _,
            stage: _,
        } = self;
        disks
    }

    /// Closes both files, the even one first. Where the odd one fails the even one is closed for good.
    pub fn blank(&mut self) -> Result<(), LaneFault>
        ensures stage { OnOk result (stage_of self.new ≡ Stage.Adopted) }
        ensures content { (odd : Bool) → IsBlanked odd self.old result
            → D.content (disk_of odd self.new) ≡ option_map shut (D.content (disk_of odd self.old)) }
        ensures calls { ¬ (IsFailed self.old) → BlanksInOrder D.Disk self.old self.new result }
        ensures fault { (odd : Bool) × KeepsFault D.Disk odd self.old self.new result }
        ensures leaves { (odd : Bool) → Leaves D.Disk (disk_of odd self.old) (disk_of odd self.new)
            (IsBlanked odd self.old result) (OldOrNotOpen D.Disk (disk_of odd self.old)) IsNotOpen }
    {
        self.live()?;
        self.shut_file(false, Stage::Adopted)?;
        self.shut_file(true, Stage::Adopted)
    }

    /// Closes the file for this generation: its gate isn't open then.
    pub fn close(&mut self, generation: u64) -> Result<(), LaneFault>
        ensures shut { OnOk result (IsShut D.Disk self.new generation) }
        ensures content { OnOk result (D.content (disk_of (is_odd generation) self.new)
            ≡ option_map shut (D.content (disk_of (is_odd generation) self.old))) }
        ensures calls { Carries D.Disk (is_odd generation) self.old self.new close_calls result }
        ensures fault { KeepsFault D.Disk (is_odd generation) self.old self.new result }
        ensures other { disk_of (not (is_odd generation)) self.new
            ≡ disk_of (not (is_odd generation)) self.old }
        ensures leaves { Leaves D.Disk
            (disk_of (is_odd generation) self.old) (disk_of (is_odd generation) self.new)
            (IsOk result) (OldOrNotOpen D.Disk (disk_of (is_odd generation) self.old)) IsNotOpen }
    {
        self.live()?;
        self.shut_file(generation % 2 == 1, Stage::Shut { generation })
    }

    /// Makes the file for this generation an open lane with no batch. It comes right after `close` for that
    /// generation.
    pub fn reset(&mut self, generation: u64) -> Result<(), LaneFault>
        requires some { 1 ≤ generation }
        requires shut { IsShut D.Disk self.old generation ⊎ IsFailed self.old }
        ensures empty { OnOk result (Holds D.Disk self.new generation []) }
        ensures stage { OnOk result (stage_of self.new ≡ Stage.Open generation 11) }
        ensures calls { Carries D.Disk (is_odd generation) self.old self.new
            (reset_calls generation (lane_of self.old)) result }
        ensures fault { KeepsFault D.Disk (is_odd generation) self.old self.new result }
        ensures other { disk_of (not (is_odd generation)) self.new
            ≡ disk_of (not (is_odd generation)) self.old }

        // A crash leaves a file that isn't open, or the empty lane.
        ensures leaves { LeavesNow D.Disk (disk_of (is_odd generation) self.old) IsNotOpen
            → Leaves D.Disk (disk_of (is_odd generation) self.old) (disk_of (is_odd generation) self.new)
            (IsOk result) (NotOpenOrEmpty generation (lane_of self.old))
            (IsLane generation (lane_of self.old) []) }
        ensures settled { OnOk result (IsSome (D.content (disk_of (is_odd generation) self.old))
            → IsSettled D.Disk self.new generation []) }
    {
        self.live()?;
        let odd = generation % 2 == 1;
        let done = steps::reset(&mut self.disks, odd, generation, self.lane);
        let next = Stage::Open {
            generation,
            gate: FIRST_GATE,
        };
        self.finish(odd, done, next)
    }

    /// Appends one batch to the open file, and brings it to where a crash leaves it. Its body is the frame
    /// without its first four bytes, which this call fills with the body's length, and without its last one,
    /// which it fills with a closed gate.
    pub fn force(&mut self, frame: &mut [u8]) -> Result<(), LaneFault>
        requires open { ((generation : ℕ) × (bodies : List (List ℕ))
            × Holds D.Disk self.old generation bodies) ⊎ IsFailed self.old }
        requires near { IsNear self.old }
        requires room { 6 ≤ length frame.old }
        requires short { length frame.old ≤ 2 ^ 31 }
        ensures appended { OnOk result ((generation : ℕ) (bodies : List (List ℕ))
            → Holds D.Disk self.old generation bodies
            → Holds D.Disk self.new generation (bodies ++ body_of frame.old ∷ [])) }
        ensures stage { OnOk result ((generation gate : ℕ) → stage_of self.old ≡ Stage.Open generation gate
            → stage_of self.new ≡ Stage.Open generation (gate + length frame.old)) }
        ensures frame { ¬ (IsFailed self.old) → frame.new ≡ frame_text (body_of frame.old) }
        ensures kept { IsFailed self.old → frame.new ≡ frame.old }
        ensures calls { (generation gate : ℕ) → stage_of self.old ≡ Stage.Open generation gate
            → Carries D.Disk (is_odd generation) self.old self.new
            (append_calls gate (frame_text (body_of frame.old))) result }
        ensures fault { KeepsFault D.Disk (parity_of (stage_of self.old)) self.old self.new result }
        ensures other { disk_of (not (parity_of (stage_of self.old))) self.new
            ≡ disk_of (not (parity_of (stage_of self.old))) self.old }

        // A crash leaves the batches from before, with this one or without.
        ensures leaves { (generation : ℕ) (bodies : List (List ℕ))
            → IsSettled D.Disk self.old generation bodies
            → Leaves D.Disk (disk_of (is_odd generation) self.old) (disk_of (is_odd generation) self.new)
            (IsOk result) (WithOrWithout generation (lane_of self.old) bodies (body_of frame.old))
            (IsLane generation (lane_of self.old) (bodies ++ body_of frame.old ∷ [])) }
        ensures settled { OnOk result ((generation : ℕ) (bodies : List (List ℕ))
            → IsSettled D.Disk self.old generation bodies
            → IsSettled D.Disk self.new generation (bodies ++ body_of frame.old ∷ [])) }
    {
        let (generation, gate) = match self.stage {
            Stage::Open { generation, gate } => (generation, gate),
            Stage::Failed { file } => return Err(LaneFault::Closed { file }),
            Stage::Adopted | Stage::Shut { .. } => unreachable!(),
        };
        frame::fill(frame);
        let odd = generation % 2 == 1;
        let done = steps::append(&mut self.disks, odd, gate, frame);
        let next = Stage::Open {
            generation,
            gate: gate + frame.len() as u64,
        };
        self.finish(odd, done, next)
    }

    /// Closes one of the files.
    fn shut_file(&mut self, odd: bool, next: Stage) -> Result<(), LaneFault>
        requires { ¬ (IsFailed self.old) }
        ensures stage { OnOk result (stage_of self.new ≡ next) }
        ensures content { OnOk result
            (D.content (disk_of odd self.new) ≡ option_map shut (D.content (disk_of odd self.old))) }
        ensures calls { Made close_calls result
            (D.calls (disk_of odd self.old)) (D.calls (disk_of odd self.new)) }
        ensures fault { KeepsFault D.Disk odd self.old self.new result }
        ensures other { disk_of (not odd) self.new ≡ disk_of (not odd) self.old }
        ensures leaves { Leaves D.Disk (disk_of odd self.old) (disk_of odd self.new)
            (IsOk result) (OldOrNotOpen D.Disk (disk_of odd self.old)) IsNotOpen }
    {
        let done = steps::close(&mut self.disks, odd);
        self.finish(odd, done, next)
    }

    /// Refuses the call where a disk failed before.
    fn live(&self) -> Result<(), LaneFault>
        ensures { MatchResult result (λ _. ¬ (IsFailed self.now))
            (λ e. (file : FileName) × (e ≡ LaneFault.Closed file) × (stage_of self.now ≡ Stage.Failed file)) }
    {
        match self.stage {
            Stage::Failed { file } => Err(LaneFault::Closed { file }),
            _ => Ok(()),
        }
    }

    /// Goes to the next stage, or keeps the fault of a file.
    fn finish(&mut self, odd: bool, done: Result<(), Failed>, next: Stage) -> Result<(), LaneFault>
        ensures disks { disks_of self.new ≡ disks_of self.old }
        ensures lane { lane_of self.new ≡ lane_of self.old }
        ensures ok { OnOk done (IsOk result × (stage_of self.new ≡ next)) }
        ensures err { OnErr done ((result ≡ Err (LaneFault.Disk (FileName.Lane (lane_of self.old) odd)))
            × (stage_of self.new ≡ Stage.Failed (FileName.Lane (lane_of self.old) odd))) }
    {
        match done {
            Ok(()) => {
                self.stage = next;
                Ok(())
            }
            Err(Failed) => {
                let file = FileName::Lane {
                    lane: self.lane,
                    odd,
                };
                self.stage = Stage::Failed { file };
                Err(LaneFault::Disk { file })
            }
        }
    }
}
