// The store.
ghost use Rattle.std.specs.Prelude.{◌≡◌, [], IsSome, IfErr, OnOk};
ghost use Rattle.disk_core.specs.Moments.{LeavesOnly};
ghost use Rattle.lane_format.specs.Writer.{Holds, IsSettled, lane_of, stage_of};
ghost use Rattle.lane_format.specs.Writer as lane;
ghost use Rattle.list_store.specs.Faults.{NamesItsFile, OldOrEmpty};
ghost use Rattle.lane_format.specs.declared.writer.Stage.TheVariants.{Adopted, Open};

use crate::OpenFault;
use crate::reading::{Found, GENERATION, LANE, read_log};
use disk_core::Disk;
use engine_txn::{Answer, Tried, try_block};
use lane_format::{LaneFault, LaneWriter};
use list_keeper::ListKeeper;
use row_types::{Block, Items, Schema};
use std::alloc::Global;

/// Tables in memory, and the log file that has what was committed.
pub struct ListStore<D> {
    alloc: Global,
    keeper: ListKeeper,
    writer: LaneWriter<D>,
}

impl<D: Disk> ListStore<D> {
    ghost use Rattle.std.specs.Prelude.{◌≡◌, [], IsSome, IfOk, IfErr};
    ghost use Rattle.std.specs.Option.{ForSome};
    ghost use Rattle.base_types.specs.Causes.{one_more};
    ghost use Rattle.disk_core.specs.Moments.{LeavesNow, LeavesOnly};
    ghost use Rattle.row_types.specs.Tables.{Tables};
    ghost use Rattle.lane_format.specs.Lane.{IsLane};
    ghost use Rattle.lane_format.specs.Writer.{even_file};
    ghost use Rattle.call_log.specs.Played.{empty_tables};
    ghost use Rattle.call_log.specs.History.{batches_of, bodies_of};
    ghost use Rattle.list_keeper.specs.Past.{tables_in};
    ghost use Rattle.list_store.specs.Faults.{OldOrEmpty};
    ghost use Rattle.list_store.specs.Found.{HasRead};
    ghost use Rattle.list_store.specs.Keeping.{Keeps, Secures, defs_of, disk_of};
    ghost use Rattle.list_store.specs.Opening.{CannotOpen, Opens};
    ghost use Rattle.list_store.specs.Running.{Ran};

    /// Opens a log file as the changes of tables with these definitions, one batch after the other. A file
    /// whose gate isn't open is made an empty log. All memory is found before the file is changed.
    ///
    /// `Damaged` names the place from which on an open file isn't such a log; the file stays as it was. The
    /// lane's own grammar is tested first, over the whole file, then its generation, then each batch, and at
    /// last that the file doesn't end before the gate behind them. An `Err` returns the disk.
    pub fn open(alloc: Global, schema: &Schema, disk: D) -> Result<ListStore<D>, (OpenFault, D)>
        ensures opened { IfOk result (Opens D.Disk schema.now disk) }
        ensures refused { IfErr result (λ e. CannotOpen D.Disk schema.now disk e.0 e.1) }
    {
        let mut disk = disk;
        match read_log(alloc, schema, &mut disk) {
            Ok(Found::NotOpen(keeper)) => ListStore::begin(alloc, keeper, disk),
            Ok(Found::Log { keeper, gate }) => Ok(ListStore::continued(alloc, keeper, disk, gate)),
            Err(fault) => Err((fault, disk)),
        }
    }

    /// A store over a file that is made an empty log, where the keeper has no rows.
    fn begin(alloc: Global, keeper: ListKeeper, disk: D) -> Result<ListStore<D>, (OpenFault, D)>
        requires read { HasRead keeper.defs keeper 11 }
        requires none { batches_of keeper.calls ≡ [] }
        ensures begun { IfOk result (λ store. (defs_of store ≡ keeper.defs)
            × Keeps D.Disk store (empty_tables keeper.defs)
            × (D.faults (disk_of store) ≡ D.faults disk)) }
        ensures refused { IfErr result (λ e. (e.0 ≡ OpenFault.Disk (even_file 0))
            × (D.faults e.1 ≡ one_more (D.faults disk))) }
        ensures secures { IfOk result (λ store. IsSome (D.content disk)
            → Secures D.Disk store (empty_tables keeper.defs)
            × LeavesOnly D.Disk disk (disk_of store) (OldOrEmpty D.Disk disk)) }
        ensures unbegun { IfErr result (λ e. IsSome (D.content disk)
            → LeavesOnly D.Disk disk e.1 (OldOrEmpty D.Disk disk)) }
    {
        let mut writer = LaneWriter::adopt(disk, LANE);
        match make_empty(&mut writer) {
            Ok(()) => Ok(ListStore {
                alloc,
                keeper,
                writer,
            }),
            Err(fault) => Err((OpenFault::from(fault), writer.into_disk())),
        }
    }

    /// A store over a log with this gate, whose batches the keeper has played.
    fn continued(alloc: Global, keeper: ListKeeper, disk: D, gate: u64) -> ListStore<D>
        requires read { HasRead keeper.defs keeper gate }
        requires log { ForSome (D.content disk)
            (IsLane 2 0 (bodies_of keeper.defs (batches_of keeper.calls))) }
        ensures defs { defs_of result ≡ keeper.defs }
        ensures keeps { Keeps D.Disk result (tables_in keeper) }
        ensures disk { disk_of result ≡ disk }
        ensures secures { LeavesNow D.Disk disk (IsLane 2 0 (bodies_of keeper.defs (batches_of keeper.calls)))
            → Secures D.Disk result (tables_in keeper) }
    {
        let writer = LaneWriter::adopt_open(disk, LANE, GENERATION, gate);
        ListStore {
            alloc,
            keeper,
            writer,
        }
    }

    /// Returns the disk.
    pub fn into_disk(self) -> D
        ensures { result ≡ disk_of self }
    {
        let ListStore {
            alloc: _,
            keeper: _,
            writer,
        } = self;
        writer.into_disk()
    }

    /// Runs a block in at most one transaction, and answers it once the changes that it has committed are on
    /// the disk, as one batch of the log. A block that changes no row makes no call of the disk.
    ///
    /// `Stopped`: the disk failed, and the store is done with. `OutOfMemory`: the tables are as they were.
    pub fn run(&mut self, block: &Block) -> Answer
        requires { (tables : Tables) × Keeps D.Disk self.old tables }
        ensures { Ran D.Disk block.now self.old result self.new }
    {
        let tried = try_block(self.alloc, &mut self.keeper, block, None);
        self.keeper.history();
        let replies = match tried {
            Tried::Said(replies) => replies,
            Tried::OutOfMemory => return Answer::OutOfMemory,
            Tried::Stopped => unreachable!(),
            Tried::Died { .. } => unreachable!(),
        };
        match self.keeper.force(&mut self.writer) {
            Ok(()) => Answer::Said(Items::from_vec(replies)),
            Err(_) => Answer::Stopped,
        }
    }
}

/// Closes a file of which nothing is known and makes it an open lane with no batch.
fn make_empty<D: Disk>(writer: &mut LaneWriter<D>) -> Result<(), LaneFault>
    requires fresh { stage_of writer.old ≡ Adopted }
    requires lane { lane_of writer.old ≡ 0 }
    ensures empty { OnOk result (Holds D.Disk writer.new 2 [] × (stage_of writer.new ≡ Open 2 11)
        × (lane_of writer.new ≡ 0)) }
    ensures still { OnOk result (D.faults (lane.disk_of writer.new) ≡ D.faults (lane.disk_of writer.old)) }
    ensures cause { IfErr result (NamesItsFile D.Disk writer.old writer.new) }
    ensures moments { IsSome (D.content (lane.disk_of writer.old))
        → LeavesOnly D.Disk (lane.disk_of writer.old) (lane.disk_of writer.new)
        (OldOrEmpty D.Disk (lane.disk_of writer.old)) }
    ensures durable { OnOk result (IsSome (D.content (lane.disk_of writer.old))
        → IsSettled D.Disk writer.new 2 []) }
{
    writer.close(GENERATION)?;
    writer.reset(GENERATION)
}
