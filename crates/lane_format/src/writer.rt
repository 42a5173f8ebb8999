use crate::{FIRST_GATE, frame, steps};
use disk_core::{Disk, Failed, FileName};
use thiserror::Error;

/// Why a call of the writer isn't done.
#[derive(Clone, Copy, Debug, PartialEq, Eq, Error)]
pub enum LaneFault {
    /// The disk of this file failed in this call. What the file holds has to be read anew.
    #[error("{file} failed")]
    Disk { file: FileName },
    /// The disk of this file failed in an earlier call.
    #[error("{file} failed before")]
    Closed { file: FileName },
}

/// How far a writer has come with its file.
#[derive(Clone, Copy, Debug, PartialEq, Eq)]
pub enum Stage {
    /// Nothing is known of the file.
    Adopted,
    /// It is closed, for a lane of this generation.
    Shut { generation: u64 },
    /// It is an open lane of this generation, and the next batch goes to the gate at this place.
    Open { generation: u64, gate: u64 },
    /// Its disk failed. No further call is made.
    Failed { file: FileName },
}

/// Appends batches to the log file of a lane, the one of even generations. It takes no memory.
///
/// After a call that met a disk fault each later one returns `Closed` with that file and changes nothing.
pub struct LaneWriter<D> {
    disk: D,
    lane: u16,
    stage: Stage,
}

impl<D: Disk> LaneWriter<D> {
    ghost use Rattle.std.specs.Prelude.{◌≡◌, ◌⊎◌, ◌+◌, ◌%◌, ◌≤◌, ◌^◌, ◌++◌, [], ◌∷◌, ℕ, List, length};
    ghost use Rattle.std.specs.Prelude.{IsOk, IsSome, OnOk, OnErr, MatchResult};
    ghost use Rattle.disk_core.specs.declared.store.FileName.{FileName};
    ghost use Rattle.std.specs.Option.{ForSome, option_map};
    ghost use Rattle.disk_core.specs.Moments.{LeavesNow, LeavesOnly};
    ghost use Rattle.lane_format.specs.Crash.{NotOpenOrEmpty, OldOrNotOpen, WithOrWithout};
    ghost use Rattle.lane_format.specs.Lane.{IsLane, IsNotOpen, body_of, frame_text, lane_text, shut};
    ghost use Rattle.lane_format.specs.Plans.{Carries, append_calls, close_calls, reset_calls};
    ghost use Rattle.lane_format.specs.Writer.{Holds, IsFailed, IsNear, IsSettled, IsShut, KeepsFault};
    ghost use Rattle.lane_format.specs.Writer.{disk_of, even_file, lane_of, stage_of};

    /// Takes over a file of which nothing is known: it has to be closed first.
    pub fn adopt(disk: D, lane: u16) -> LaneWriter<D>
        ensures disk { disk_of result ≡ disk }
        ensures lane { lane_of result ≡ lane }
        ensures stage { stage_of result ≡ Stage.Adopted }
    {
        LaneWriter {
            disk,
            lane,
            stage: Stage::Adopted,
        }
    }

    /// Takes over a file that is an open lane of this generation, whose first gate that isn't open lies at
    /// `gate` inside the file. The next batch goes there.
    pub fn adopt_open(disk: D, lane: u16, generation: u64, gate: u64) -> LaneWriter<D>
        requires near { gate ≤ 2 ^ 62 }
        requires even { generation % 2 ≡ 0 }
        requires open { ForSome (D.content disk) (λ bytes. (bodies : List (List ℕ))
            × (gate ≡ length (lane_text generation lane bodies)) × IsLane generation lane bodies bytes) }
        ensures disk { disk_of result ≡ disk }
        ensures lane { lane_of result ≡ lane }
        ensures stage { stage_of result ≡ Stage.Open generation gate }

        // Where every crash now leaves that lane, the writer is settled.
        ensures settled { (bodies : List (List ℕ)) → gate ≡ length (lane_text generation lane bodies)
            → LeavesNow D.Disk disk (IsLane generation lane bodies)
            → IsSettled D.Disk result generation bodies }
    {
        LaneWriter {
            disk,
            lane,
            stage: Stage::Open { generation, gate },
        }
    }

    /// Gives the disk back.
    pub fn into_disk(self) -> D
        ensures { result ≡ disk_of self }
    {
        let LaneWriter {
            disk,
            lane: _,
            stage: _,
        } = self;
        disk
    }

    /// Closes the file, for a lane of this generation: its gate isn't open then.
    pub fn close(&mut self, generation: u64) -> Result<(), LaneFault>
        requires even { generation % 2 ≡ 0 }

        // What the file holds after it.
        ensures shut { OnOk result (IsShut D.Disk self.new generation) }
        ensures content { OnOk result
            (D.content (disk_of self.new) ≡ option_map shut (D.content (disk_of self.old))) }

        // What was called, and how it ended.
        ensures calls { Carries D.Disk self.old self.new close_calls result }
        ensures fault { KeepsFault D.Disk self.old self.new result }

        // A crash at any moment of the call, or after it, leaves what it might have left before, or a file
        // that isn't open.
        ensures moments { LeavesOnly D.Disk (disk_of self.old) (disk_of self.new)
            (OldOrNotOpen D.Disk (disk_of self.old)) }
        ensures crash { IsSome (D.content (disk_of self.old))
            → LeavesNow D.Disk (disk_of self.new) (OldOrNotOpen D.Disk (disk_of self.old)) }
        ensures durable { OnOk result (IsSome (D.content (disk_of self.old))
            → LeavesNow D.Disk (disk_of self.new) IsNotOpen) }
    {
        self.live()?;
        let done = steps::close(&mut self.disk);
        self.finish(done, Stage::Shut { generation })
    }

    /// Makes the file an open lane of this generation with no batch. It comes right after `close` for that
    /// generation.
    pub fn reset(&mut self, generation: u64) -> Result<(), LaneFault>
        requires some { 1 ≤ generation }
        requires even { generation % 2 ≡ 0 }
        requires shut { IsShut D.Disk self.old generation ⊎ IsFailed self.old }

        // What the file holds after it.
        ensures empty { OnOk result (Holds D.Disk self.new generation []) }
        ensures stage { OnOk result (stage_of self.new ≡ Stage.Open generation 11) }

        // What was called, and how it ended.
        ensures calls { Carries D.Disk self.old self.new (reset_calls generation (lane_of self.old)) result }
        ensures fault { KeepsFault D.Disk self.old self.new result }

        // A crash at any moment of the call, or after it, leaves a file that isn't open, or the empty lane.
        ensures moments { LeavesNow D.Disk (disk_of self.old) IsNotOpen
            → LeavesOnly D.Disk (disk_of self.old) (disk_of self.new)
            (NotOpenOrEmpty generation (lane_of self.old)) }
        ensures crash { LeavesNow D.Disk (disk_of self.old) IsNotOpen
            → LeavesNow D.Disk (disk_of self.new) (NotOpenOrEmpty generation (lane_of self.old)) }
        ensures durable { OnOk result (IsSome (D.content (disk_of self.old))
            → IsSettled D.Disk self.new generation []) }
    {
        self.live()?;
        let done = steps::reset(&mut self.disk, generation, self.lane);
        let next = Stage::Open {
            generation,
            gate: FIRST_GATE,
        };
        self.finish(done, next)
    }

    /// Appends one batch, and brings it to where a crash leaves it. Its body is the frame without its first
    /// four bytes, which this call fills with the body's length, and without its last one, which it fills
    /// with a closed gate.
    pub fn force(&mut self, frame: &mut [u8]) -> Result<(), LaneFault>
        requires open { ((generation : ℕ) × (bodies : List (List ℕ))
            × Holds D.Disk self.old generation bodies) ⊎ IsFailed self.old }
        requires near { IsNear self.old }
        requires room { 6 ≤ length frame.old }
        requires short { length frame.old ≤ 2 ^ 31 }

        // What the file holds after it.
        ensures appended { OnOk result ((generation : ℕ) (bodies : List (List ℕ))
            → Holds D.Disk self.old generation bodies
            → Holds D.Disk self.new generation (bodies ++ body_of frame.old ∷ [])) }
        ensures stage { OnOk result ((generation gate : ℕ) → stage_of self.old ≡ Stage.Open generation gate
            → stage_of self.new ≡ Stage.Open generation (gate + length frame.old)) }

        // What it leaves in the frame, what was called, and how it ended.
        ensures frame { ¬ (IsFailed self.old) → frame.new ≡ frame_text (body_of frame.old) }
        ensures kept { IsFailed self.old → frame.new ≡ frame.old }
        ensures calls { (generation gate : ℕ) → stage_of self.old ≡ Stage.Open generation gate
            → Carries D.Disk self.old self.new (append_calls gate (frame_text (body_of frame.old))) result }
        ensures fault { KeepsFault D.Disk self.old self.new result }

        // A crash at any moment of the call, or after it, leaves the batches from before, with this one or
        // without.
        ensures moments { (generation : ℕ) (bodies : List (List ℕ))
            → IsSettled D.Disk self.old generation bodies
            → LeavesOnly D.Disk (disk_of self.old) (disk_of self.new)
            (WithOrWithout generation (lane_of self.old) bodies (body_of frame.old)) }
        ensures crash { (generation : ℕ) (bodies : List (List ℕ))
            → IsSettled D.Disk self.old generation bodies
            → LeavesNow D.Disk (disk_of self.new)
            (WithOrWithout generation (lane_of self.old) bodies (body_of frame.old)) }
        ensures durable { OnOk result ((generation : ℕ) (bodies : List (List ℕ))
            → IsSettled D.Disk self.old generation bodies
            → IsSettled D.Disk self.new generation (bodies ++ body_of frame.old ∷ [])) }
    {
        let (generation, gate) = match self.stage {
            Stage::Open { generation, gate } => (generation, gate),
            Stage::Failed { file } => return Err(LaneFault::Closed { file }),
            Stage::Adopted | Stage::Shut { .. } => unreachable!(),
        };
        frame::fill(frame);
        let done = steps::append(&mut self.disk, gate, frame);
        let next = Stage::Open {
            generation,
            gate: gate + frame.len() as u64,
        };
        self.finish(done, next)
    }

    /// Refuses the call where the disk failed before.
    fn live(&self) -> Result<(), LaneFault>
        ensures { MatchResult result (λ _. ¬ (IsFailed self.now))
            (λ e. (file : FileName) × (e ≡ LaneFault.Closed file) × (stage_of self.now ≡ Stage.Failed file)) }
    {
        match self.stage {
            Stage::Failed { file } => Err(LaneFault::Closed { file }),
            _ => Ok(()),
        }
    }

    /// Goes to the next stage, or keeps the fault.
    fn finish(&mut self, done: Result<(), Failed>, next: Stage) -> Result<(), LaneFault>
        ensures disk { disk_of self.new ≡ disk_of self.old }
        ensures lane { lane_of self.new ≡ lane_of self.old }
        ensures ok { OnOk done (IsOk result × (stage_of self.new ≡ next)) }
        ensures err { OnErr done ((result ≡ Err (LaneFault.Disk (even_file (lane_of self.old))))
            × (stage_of self.new ≡ Stage.Failed (even_file (lane_of self.old)))) }
    {
        let file = FileName::Lane {
            lane: self.lane,
            odd: false,
        };
        match done {
            Ok(()) => {
                self.stage = next;
                Ok(())
            }
            Err(Failed) => {
                self.stage = Stage::Failed { file };
                Err(LaneFault::Disk { file })
            }
        }
    }
}
