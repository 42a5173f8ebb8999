// Reads a log file, and plays what it keeps.
ghost use Rattle.std.specs.Prelude.{◌≡◌, ◌≢◌, ◌↔◌, ◌+◌, ◌<◌, ◌≤◌, ◌++◌, [], ℕ, List, length, take, Err};
ghost use Rattle.std.specs.Prelude.{IsTrue, IfOk};
ghost use Rattle.std.specs.List.{AllByRecursion};
ghost use Rattle.std.specs.Option.{ForSome};
ghost use Rattle.base_types.specs.Causes.{HasCause, one_more};
ghost use Rattle.disk_core.specs.declared.store.FileName.{FileName};
ghost use Rattle.disk_core.specs.Moments.{OnlyReads};
ghost use Rattle.op_log.specs.Changes.{IsChange, body_text};
ghost use Rattle.op_log.specs.declared.change.RowChange.{RowChange};
ghost use Rattle.lane_format.specs.Writer.{even_file};
ghost use Rattle.call_log.specs.History.{batches_of, bodies_of, log_limit};
ghost use Rattle.list_keeper.specs.Past.{tables_in};
ghost use Rattle.list_store.specs.Found.{HasRead, IsFound, PlaysOne, StopsIn, bodies_in};
ghost use Rattle.list_store.specs.Log.{DamagedAt, IsNoBatch, log_reads};

use crate::fault::damaged;
use crate::{OpenFault, OutOfMemory};
use disk_core::{Disk, Failed};
use lane_format::{Batch, read_segment};
use list_keeper::{ListKeeper, LoadFault};
use op_log::{ChangeFault, read_body, read_change};
use row_types::{Schema, TryCopy};
use std::alloc::Global;

/// The number of the log file's lane.
pub(crate) const LANE: u16 = 0;

/// The generation of the log file.
pub(crate) const GENERATION: u64 = 2;

/// The place of the first gate of a log file.
const FIRST_GATE: u64 = 11;

/// How many bytes stand before a body: its gate and its length.
const BATCH_HEAD: u64 = 5;

/// The most bytes of a log file: no batch ends past this place.
const MOST: u64 = 67_108_864;

/// What a log file is found to be, with a keeper of the tables that it leaves.
pub(crate) enum Found {
    /// Its gate isn't open, and the tables are empty.
    NotOpen(ListKeeper),
    /// It is a log, and the gate behind its batches lies at this place.
    Log { keeper: ListKeeper, gate: u64 },
}

/// Reads a log file whole, and plays its batches.
pub(crate) fn read_log<D: Disk>(
    alloc: Global,
    schema: &Schema,
    disk: &mut D,
) -> Result<Found, OpenFault>
    ensures found { IfOk result (IsFound schema.now (D.content disk.old)) }
    ensures damaged { (file : FileName) (at : ℕ) → result ≡ Err (OpenFault.Damaged file at) →
        (file ≡ even_file 0) × ForSome (D.content disk.old)
        (λ bytes. log_reads schema.now bytes (DamagedAt at)) }
    ensures disk { (file : FileName) → result ≡ Err (OpenFault.Disk file) →
        (file ≡ even_file 0) × (D.faults disk.new ≡ one_more (D.faults disk.old)) }
    ensures still { ((file : FileName) → result ≢ Err (OpenFault.Disk file)) →
        D.faults disk.new ≡ D.faults disk.old }
    ensures only_reads { OnlyReads D.Disk disk.old disk.new }
{
    let keeper = ListKeeper::new(alloc, schema.copy()?)?;
    keeper.history();
    let Some(segment) = read_segment(alloc, disk, false, LANE)? else {
        return Ok(Found::NotOpen(keeper));
    };
    if segment.generation != GENERATION {
        return Err(damaged(1));
    }
    let (keeper, gate) = play(alloc, schema, keeper, segment.batches.as_slice())?;
    if !has_byte(disk, gate)? {
        return Err(damaged(FIRST_GATE));
    }
    Ok(Found::Log { keeper, gate })
}

/// Plays batches in order, and says where the gate behind them lies.
fn play(
    alloc: Global,
    schema: &Schema,
    keeper: ListKeeper,
    batches: &[Batch],
) -> Result<(ListKeeper, u64), OpenFault>
    requires read { HasRead schema.now keeper FIRST_GATE }
    requires none { batches_of keeper.calls ≡ [] }
    ensures read { IfOk result (λ played. HasRead schema.now played.0 played.1) }
    ensures bodies { IfOk result (λ played.
        bodies_of schema.now (batches_of played.0.calls) ≡ bodies_in batches.now) }
    ensures damaged { (file : FileName) (at : ℕ) → result ≡ Err (OpenFault.Damaged file at) →
        (file ≡ even_file 0) × (AllByRecursion (λ body. 1 ≤ length body) (bodies_in batches.now)
        → StopsIn schema.now (bodies_in batches.now) at) }
    ensures reads_none { (file : FileName) → result ≢ Err (OpenFault.Disk file) }
{
    let mut keeper = keeper;
    let mut gate = FIRST_GATE;
    for batch in batches {
        let body = batch.body.as_slice();
        keeper = play_batch(alloc, schema, keeper, gate, body)?;
        gate += BATCH_HEAD + body.len() as u64;
    }
    Ok((keeper, gate))
}

/// Plays the batch behind a gate.
fn play_batch(
    alloc: Global,
    schema: &Schema,
    keeper: ListKeeper,
    gate: u64,
    body: &[u8],
) -> Result<ListKeeper, OpenFault>
    requires read { HasRead schema.now keeper gate }
    ensures read { IfOk result (λ next. HasRead schema.now next (gate + 5 + length body.now)) }
    ensures plays { IfOk result (λ next. PlaysOne keeper next body.now) }
    ensures damaged { (file : FileName) (at : ℕ) → result ≡ Err (OpenFault.Damaged file at) →
        (file ≡ even_file 0)
        × (1 ≤ length body.now → IsNoBatch schema.now (tables_in keeper) gate body.now at) }
    ensures reads_none { (file : FileName) → result ≢ Err (OpenFault.Disk file) }
{
    if ends_late(gate, body.len()) {
        return Err(damaged(gate));
    }
    let at = gate + BATCH_HEAD;
    let front = read_body(alloc, schema, body)?;
    let end = front.end;
    if end == 0 {
        return Err(damaged(at));
    }
    match keeper.load(front.changes, end) {
        Ok(loaded) => {
            if end < body.len() {
                return Err(damaged(at + end as u64));
            }
            loaded.history();
            Ok(loaded)
        }
        Err(LoadFault::NoRow { index }) => {
            let len = changes_len(alloc, schema, body, index)?;
            Err(damaged(at + len as u64))
        }
        Err(LoadFault::OutOfMemory) => Err(OpenFault::OutOfMemory),
    }
}

/// Whether the body behind a gate ends past the last place.
fn ends_late(gate: u64, len: usize) -> bool
    requires { gate ≤ MOST }
    ensures { IsTrue result ↔ (log_limit < gate + 5 + len) }
{
    let room = MOST - gate;
    room < BATCH_HEAD || room - BATCH_HEAD < len as u64
}

/// How many bytes the first changes of a body have, where it begins with more than `count`.
fn changes_len(
    alloc: Global,
    schema: &Schema,
    body: &[u8],
    count: usize,
) -> Result<usize, OutOfMemory>
    requires { (changes : List RowChange) × (rest : List ℕ) × AllByRecursion (IsChange schema.now) changes
        × (body.now ≡ body_text schema.now changes ++ rest) × (count < length changes) }
    ensures { IfOk result (λ len. (changes : List RowChange) (rest : List ℕ)
        → AllByRecursion (IsChange schema.now) changes → body.now ≡ body_text schema.now changes ++ rest
        → count < length changes → len ≡ length (body_text schema.now (take count changes))) }
{
    let mut len = 0;
    for _ in 0..count {
        match read_change(alloc, schema, &body[len..]) {
            Ok((_, more)) => len += more,
            Err(ChangeFault::BadChange) => unreachable!(),
            Err(ChangeFault::OutOfMemory) => return Err(OutOfMemory),
        }
    }
    Ok(len)
}

/// Whether there is a byte at this place of the file.
fn has_byte<D: Disk>(disk: &mut D, place: u64) -> Result<bool, Failed>
    ensures there { IfOk result (λ there. ForSome (D.content disk.old) (λ bytes.
        IsTrue there ↔ (place < length bytes))) }
    ensures only_reads { OnlyReads D.Disk disk.old disk.new }
    ensures cause { HasCause (D.faults disk.old) (D.faults disk.new) result }
{
    let size = disk.size()?;
    Ok(place < size)
}
