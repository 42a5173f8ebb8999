use crate::{AreaFault, layout, steps};
use area_format::{ImageHead, Settings};
use disk_core::{Disk, Failed, FileName};
use row_types::Schema;
use std::mem::swap;

/// How far a writer has come with the spare area.
#[derive(Clone, Copy, Debug, PartialEq, Eq)]
pub enum Stage {
    /// Nothing is known of the spare area: its gate has to be closed first.
    Adopted,
    /// Its gate is closed, and its head can be put.
    Shut,
    /// Its head is put, so many images are still to come, and the next one goes to this place.
    Filling { left: u32, at: u64 },
    /// The whole area is on the disk, behind a closed gate.
    Sealed,
    /// The disk of this file failed. No further call is made.
    Failed { file: FileName },
}

/// Writes areas, each to the one of two files that isn't in use, the spare one. For one area these calls come in this
/// order: `close_spare`, `put_header`, `put_image` for each image, `seal` and `open_gate`. Then the file that
/// was written is in use, and the other one is the spare.
///
/// No call takes memory or touches the file that is in use. After a call that met a disk fault each later one
/// returns `Closed` with that file and calls no disk.
pub struct AreaWriter<D> {
    spare: D,
    other: D,
    /// The spare area is the second one.
    is_b: bool,
    stage: Stage,
}

impl<D: Disk> AreaWriter<D> {
    ghost use Rattle.std.specs.Prelude.{◌≡◌, ◌⊎◌, ◌+◌, [], ℕ, not, length, IsOk, IsSome, OnOk, OnErr, MatchResult};
    ghost use Rattle.std.specs.Option.{option_map};
    ghost use Rattle.disk_core.specs.Moments.{LeavesNow};
    ghost use Rattle.disk_core.specs.declared.store.FileName.{FileName};
    ghost use Rattle.disk_core.specs.declared.store.FileName.TheVariants.{AreaA, AreaB};
    ghost use Rattle.area_format.specs.Area.{Area, Holds, Image, IsArea, IsNotOpen};
    ghost use Rattle.area_writer.specs.Crash.{Leaves, NotOpenOrHolds, OldOrNotOpen, StaysShut};
    ghost use Rattle.area_writer.specs.Plans.{Carries, close_calls, header_calls, image_calls, open_calls};
    ghost use Rattle.area_writer.specs.Plans.{seal_calls};
    ghost use Rattle.area_writer.specs.Put.{new_area, with_gate, with_image};
    ghost use Rattle.area_writer.specs.Writer.{IsFailed, IsFilling, IsSealed, IsShut, KeepsFault};
    ghost use Rattle.area_writer.specs.Writer.{area_name, disks_of, opened_disk, other_disk, spare_disk};
    ghost use Rattle.area_writer.specs.Writer.{is_b_of, spare_of, stage_of, uncalled_disk};

    /// Takes over the two areas, of which the one with this name is the spare one. Nothing is known of it.
    pub fn adopt(a: D, b: D, spare: FileName) -> AreaWriter<D>
        requires { (spare ≡ AreaA) ⊎ (spare ≡ AreaB) }
        ensures disks { disks_of result ≡ (a, b) }
        ensures spare { spare_of result ≡ spare }
        ensures stage { stage_of result ≡ Stage.Adopted }
    {
        let stage = Stage::Adopted;
        match spare {
            FileName::AreaB => AreaWriter {
                spare: b,
                other: a,
                is_b: true,
                stage,
            },
            _ => AreaWriter {
                spare: a,
                other: b,
                is_b: false,
                stage,
            },
        }
    }

    /// Gives both disks back: of area A and of area B.
    pub fn into_disks(self) -> (D, D)
        ensures { result ≡ disks_of self }
    {
        let AreaWriter {
            spare,
            other,
            is_b,
            stage: _,
        } = self;
        if is_b { (other, spare) } else { (spare, other) }
    }

    /// Closes the gate of the spare area: it isn't open then.
    pub fn close_spare(&mut self) -> Result<(), AreaFault>
        requires { (stage_of self.old ≡ Stage.Adopted) ⊎ IsFailed self.old }
        ensures shut { OnOk result (IsShut D.Disk self.new) }
        ensures content { OnOk result (D.content (spare_disk self.new)
            ≡ option_map (with_gate 0) (D.content (spare_disk self.old))) }
        ensures calls { Carries D.Disk self.old (spare_disk self.new) close_calls result }
        ensures fault { KeepsFault D.Disk self.old self.new (spare_disk self.new) result }
        ensures other { other_disk self.new ≡ other_disk self.old }
        ensures spare { spare_of self.new ≡ spare_of self.old }
        ensures leaves { Leaves D.Disk (spare_disk self.old) (spare_disk self.new)
            (IsOk result) (OldOrNotOpen D.Disk (spare_disk self.old)) IsNotOpen }
    {
        self.live()?;
        let done = steps::put_gate(&mut self.spare, 0);
        self.finish(done, Stage::Shut)
    }

    /// Puts the head of an area of this generation behind the closed gate: its settings, its schema, and
    /// how many images it has.
    pub fn put_header(
        &mut self,
        generation: u64,
        settings: &Settings,
        schema: &Schema,
        count: u32,
    ) -> Result<(), AreaFault>
        requires shut { IsShut D.Disk self.old ⊎ IsFailed self.old }
        ensures filling { OnOk result
            (IsFilling D.Disk self.new (new_area generation settings.now schema.now) count) }
        ensures calls { Carries D.Disk self.old (spare_disk self.new)
            (header_calls (new_area generation settings.now schema.now) count) result }
        ensures fault { KeepsFault D.Disk self.old self.new (spare_disk self.new) result }
        ensures other { other_disk self.new ≡ other_disk self.old }
        ensures spare { spare_of self.new ≡ spare_of self.old }
        ensures leaves { StaysShut D.Disk (spare_disk self.old) (spare_disk self.new) }
    {
        self.live()?;
        let fields = layout::fields(generation, settings, count);
        let mut room = [0; layout::SCHEMA];
        let len = layout::lay_schema(schema, &mut room);
        let done = steps::put_header(&mut self.spare, &fields, &room[..len]);
        let next = Stage::Filling {
            left: count,
            at: 35 + len as u64,
        };
        self.finish(done, next)
    }

    /// Puts the next image behind those before it. Its head is `head`, and `bytes` is the page.
    pub fn put_image(&mut self, head: &ImageHead, bytes: &[u8]) -> Result<(), AreaFault>
        requires filling { ((area : Area) × (left : ℕ) × IsFilling D.Disk self.old area (left + 1))
            ⊎ IsFailed self.old }
        requires page { length bytes.now ≡ 4096 }
        ensures filling { OnOk result ((area : Area) (left : ℕ)
            → IsFilling D.Disk self.old area (left + 1)
            → IsFilling D.Disk self.new
            (with_image area (record { head = head.now; bytes = bytes.now })) left) }
        ensures calls { (left at : ℕ) → stage_of self.old ≡ Stage.Filling left at
            → Carries D.Disk self.old (spare_disk self.new)
            (image_calls at (record { head = head.now; bytes = bytes.now })) result }
        ensures fault { KeepsFault D.Disk self.old self.new (spare_disk self.new) result }
        ensures other { other_disk self.new ≡ other_disk self.old }
        ensures spare { spare_of self.new ≡ spare_of self.old }
        ensures leaves { StaysShut D.Disk (spare_disk self.old) (spare_disk self.new) }
    {
        let (left, at) = match self.stage {
            Stage::Filling { left, at } => (left, at),
            Stage::Failed { file } => return Err(AreaFault::Closed { file }),
            Stage::Adopted | Stage::Shut | Stage::Sealed => unreachable!(),
        };
        let mut image = [0; layout::IMAGE];
        layout::lay_image(head, bytes, &mut image);
        let done = steps::put_behind(&mut self.spare, at, &image);
        let next = Stage::Filling {
            left: left - 1,
            at: at + layout::IMAGE as u64,
        };
        self.finish(done, next)
    }

    /// Brings the whole area to where a crash leaves it, once its last image is put. Its gate stays closed.
    pub fn seal(&mut self) -> Result<(), AreaFault>
        requires { ((area : Area) × IsFilling D.Disk self.old area 0) ⊎ IsFailed self.old }
        ensures sealed { OnOk result ((area : Area) → IsFilling D.Disk self.old area 0
            → IsSealed D.Disk self.new area) }
        ensures calls { Carries D.Disk self.old (spare_disk self.new) seal_calls result }
        ensures fault { KeepsFault D.Disk self.old self.new (spare_disk self.new) result }
        ensures other { other_disk self.new ≡ other_disk self.old }
        ensures spare { spare_of self.new ≡ spare_of self.old }
        ensures leaves { StaysShut D.Disk (spare_disk self.old) (spare_disk self.new) }
    {
        self.live()?;
        let done = steps::seal(&mut self.spare);
        self.finish(done, Stage::Sealed)
    }

    /// Opens the gate of the area that was sealed. From then on it is in use, and the other one is the spare area.
    pub fn open_gate(&mut self) -> Result<(), AreaFault>
        requires sealed { ((area : Area) × IsSealed D.Disk self.old area) ⊎ IsFailed self.old }
        ensures stage { OnOk result (stage_of self.new ≡ Stage.Adopted) }
        ensures spare { OnOk result (spare_of self.new ≡ area_name (not (is_b_of self.old))) }
        ensures kept { OnErr result (spare_of self.new ≡ spare_of self.old) }
        ensures content { OnOk result (D.content (opened_disk result self.new)
            ≡ option_map (with_gate 1) (D.content (spare_disk self.old))) }
        ensures calls { Carries D.Disk self.old (opened_disk result self.new) open_calls result }
        ensures fault { KeepsFault D.Disk self.old self.new (opened_disk result self.new) result }
        ensures other { uncalled_disk result self.new ≡ other_disk self.old }

        // A crash leaves a file that isn't open, or the whole area; after it the area alone.
        ensures leaves { (area : Area) → IsArea area → IsSealed D.Disk self.old area
            → IsSome (D.content (spare_disk self.old))
            → Leaves D.Disk (spare_disk self.old) (opened_disk result self.new)
            (IsOk result) (NotOpenOrHolds area) (Holds area) }
    {
        self.open_spare()?;
        swap(&mut self.spare, &mut self.other);
        self.is_b = !self.is_b;
        self.stage = Stage::Adopted;
        Ok(())
    }

    /// Opens the gate of the spare area, which stays the spare one.
    fn open_spare(&mut self) -> Result<(), AreaFault>
        requires sealed { ((area : Area) × IsSealed D.Disk self.old area) ⊎ IsFailed self.old }
        ensures content { OnOk result (D.content (spare_disk self.new)
            ≡ option_map (with_gate 1) (D.content (spare_disk self.old))) }
        ensures calls { Carries D.Disk self.old (spare_disk self.new) open_calls result }
        ensures fault { KeepsFault D.Disk self.old self.new (spare_disk self.new) result }
        ensures other { other_disk self.new ≡ other_disk self.old }
        ensures name { is_b_of self.new ≡ is_b_of self.old }
        ensures leaves { (area : Area) → IsArea area → IsSealed D.Disk self.old area
            → IsSome (D.content (spare_disk self.old))
            → Leaves D.Disk (spare_disk self.old) (spare_disk self.new)
            (IsOk result) (NotOpenOrHolds area) (Holds area) }
    {
        self.live()?;
        let done = steps::put_gate(&mut self.spare, 1);
        self.finish(done, Stage::Sealed)
    }

    /// Refuses the call where a disk failed before.
    fn live(&self) -> Result<(), AreaFault>
        ensures { MatchResult result (λ _. ¬ (IsFailed self.now))
            (λ e. (file : FileName) × (e ≡ AreaFault.Closed file) × (stage_of self.now ≡ Stage.Failed file)) }
    {
        match self.stage {
            Stage::Failed { file } => Err(AreaFault::Closed { file }),
            _ => Ok(()),
        }
    }

    /// The name of the spare area.
    fn spare_name(&self) -> FileName
        ensures { result ≡ spare_of self.now }
    {
        if self.is_b {
            FileName::AreaB
        } else {
            FileName::AreaA
        }
    }

    /// Goes to the next stage, or keeps the fault of the spare area.
    fn finish(&mut self, done: Result<(), Failed>, next: Stage) -> Result<(), AreaFault>
        ensures spare { spare_disk self.new ≡ spare_disk self.old }
        ensures other { other_disk self.new ≡ other_disk self.old }
        ensures name { is_b_of self.new ≡ is_b_of self.old }
        ensures ok { OnOk done (IsOk result × (stage_of self.new ≡ next)) }
        ensures err { OnErr done ((result ≡ Err (AreaFault.Disk (spare_of self.old)))
            × (stage_of self.new ≡ Stage.Failed (spare_of self.old))) }
    {
        match done {
            Ok(()) => {
                self.stage = next;
                Ok(())
            }
            Err(Failed) => {
                let file = self.spare_name();
                self.stage = Stage::Failed { file };
                Err(AreaFault::Disk { file })
            }
        }
    }
}
