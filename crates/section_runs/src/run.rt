// Runs blocks over a store, section after section.
ghost use Rattle.std.specs.Prelude.{◌≡◌, ◌≢◌, ◌<◌, ◌≤◌, [], length, map, slice_get, vec_capacity, vec_len};
ghost use Rattle.std.specs.Prelude.{None};
ghost use Rattle.std.specs.List.{AllByRecursion};
ghost use Rattle.row_types.specs.Tables.{Tables};
ghost use Rattle.list_store.specs.Keeping.{Keeps, disk_of};
ghost use Rattle.section_runs.specs.Lasting.{Runs};
ghost use Rattle.section_runs.specs.Sections.{AreStopped, FailsAt, IsAnswered, IsUnrun, Leaves, all_said};
ghost use Rattle.section_runs.specs.Sections.{block_at, faults_after, halt_of, said_by, stopped_by};
ghost use Rattle.section_runs.specs.Sections.{stopped_in, with_replies};

use crate::{Halt, ReadySection, SectionRun};
use disk_core::Disk;
use engine_txn::Answer;
use list_store::ListStore;
use plain_model::Reply;
use row_types::{Block, Items};
use std::alloc::Global;

/// Runs blocks in order, up to the first that is stopped, and adds their replies.
fn run_blocks<D: Disk>(
    store: &mut ListStore<D>,
    blocks: &[Block],
    said: &mut Vec<Items<Reply>>,
) -> Halt
    requires keeps { (tables : Tables) × Keeps D.Disk store.old tables }
    requires none { said.old.items ≡ [] }
    requires room { length blocks.now ≤ vec_capacity said.old }
    ensures few { length said.new.items ≤ length blocks.now }
    ensures all { result ≡ Halt.Done → length said.new.items ≡ length blocks.now }
    ensures short { result ≢ Halt.Done → length said.new.items < length blocks.now }
    ensures faults { D.faults (disk_of store.new) ≡ faults_after result (D.faults (disk_of store.old)) }
    ensures runs { Runs D.Disk store.old (with_replies blocks.now said.new.items)
        (block_at result (slice_get blocks.now (length said.new.items)) None) store.new }
{
    for block in blocks {
        match store.run(block) {
            Answer::Said(replies) => said.push_reserved(replies),
            Answer::Stopped => return Halt::Stopped,
            Answer::OutOfMemory => return Halt::OutOfMemory,
        }
    }
    Halt::Done
}

/// Runs a section. The memory of its replies is found first.
fn run_section<D: Disk>(
    alloc: Global,
    store: &mut ListStore<D>,
    section: ReadySection,
) -> SectionRun
    requires keeps { (tables : Tables) × Keeps D.Disk store.old tables }
    ensures section { result.section ≡ section }
    ensures answered { IsAnswered result }
    ensures failed { FailsAt result.halt (stopped_by result) }
    ensures faults { D.faults (disk_of store.new)
        ≡ faults_after result.halt (D.faults (disk_of store.old)) }
    ensures runs { Runs D.Disk store.old (said_by result) (stopped_by result) store.new }
{
    let blocks = section.to_run();
    if blocks.is_empty() {
        return unrun(alloc, section, Halt::Done);
    }
    let Ok(mut said) = Vec::with_capacity(alloc, blocks.len()) else {
        return unrun(alloc, section, Halt::OutOfMemory);
    };
    let halt = run_blocks(store, blocks, &mut said);
    SectionRun {
        section,
        said: Items::from_vec(said),
        halt,
    }
}

/// A section of which no block is run.
fn unrun(alloc: Global, section: ReadySection, halt: Halt) -> SectionRun
    ensures section { result.section ≡ section }
    ensures said { result.said ≡ [] }
    ensures halt { result.halt ≡ halt }
{
    SectionRun {
        section,
        said: Items::new(alloc),
        halt,
    }
}

/// Runs a section, or none of its blocks where the disk has failed in an earlier one.
fn run_next<D: Disk>(
    alloc: Global,
    store: &mut ListStore<D>,
    section: ReadySection,
    before: Halt,
) -> SectionRun
    requires keeps { before ≢ Halt.Stopped → (tables : Tables) × Keeps D.Disk store.old tables }
    ensures section { result.section ≡ section }
    ensures answered { IsAnswered result }
    ensures failed { before ≢ Halt.Stopped → FailsAt result.halt (stopped_by result) }
    ensures faults { before ≢ Halt.Stopped → D.faults (disk_of store.new)
        ≡ faults_after result.halt (D.faults (disk_of store.old)) }
    ensures runs { before ≢ Halt.Stopped
        → Runs D.Disk store.old (said_by result) (stopped_by result) store.new }
    ensures stopped { before ≡ Halt.Stopped → IsUnrun result × (store.new ≡ store.old) }
{
    match before {
        Halt::Stopped => unrun(alloc, section, Halt::Stopped),
        Halt::Done | Halt::OutOfMemory => run_section(alloc, store, section),
    }
}

/// Runs sections in order, one block after the other, and returns their answers, with what stopped them.
///
/// After a fault of the disk no further block is run, of that section and of all later ones. After memory has
/// run out no further block of that section is run. `room` has the memory for all answers.
pub fn run_sections<D: Disk>(
    alloc: Global,
    store: &mut ListStore<D>,
    sections: Vec<ReadySection>,
    room: Vec<SectionRun>,
) -> (Vec<SectionRun>, Halt)
    requires keeps { (tables : Tables) × Keeps D.Disk store.old tables }
    requires none { room.items ≡ [] }
    requires room { vec_len sections ≤ vec_capacity room }
    ensures sections { map (λ run. run.section) result.0.items ≡ sections.items }
    ensures halt { result.1 ≡ halt_of result.0.items }
    ensures answered { AllByRecursion IsAnswered result.0.items }
    ensures stopped { AreStopped result.0.items }
    ensures failed { FailsAt result.1 (stopped_in result.0.items) }
    ensures faults { D.faults (disk_of store.new) ≡ faults_after result.1 (D.faults (disk_of store.old)) }
    ensures runs { Runs D.Disk store.old (all_said result.0.items) (stopped_in result.0.items) store.new }
{
    let mut runs = room;
    let mut halt = Halt::Done;
    for section in sections {
        let run = run_next(alloc, store, section, halt);
        halt = halt.worse(run.halt);
        runs.push_reserved(run);
    }
    (runs, halt)
}
