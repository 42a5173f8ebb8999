// Runs a script over the log file.
ghost use Rattle.std.specs.Prelude.{◌≡◌, ◌⊎◌, ◌≤◌, [], vec_capacity, vec_len};
ghost use Rattle.shell.specs.Outcome.{view_of};
ghost use Rattle.shell.specs.Running.{WasRunOver, IsUnopened, Runs, fault_halting, fault_opening};

use crate::outcome::Outcome;
use crate::ready::make_ready;
use disk_core::{Disk, FileName};
use list_store::{ListStore, OpenFault};
use reply_text::{Fault, Place};
use row_types::Schema;
use script::Script;
use section_runs::{Halt, ReadySection, SectionRun, run_sections};
use std::alloc::Global;

/// The fault of a log file that isn't opened.
fn fault_opening(fault: OpenFault) -> Fault
    ensures { result ≡ fault_opening fault }
{
    match fault {
        OpenFault::Disk { file } => Fault::Disk(file),
        OpenFault::Damaged { file, at } => Fault::Damaged(Place::File { file, at }),
        OpenFault::OutOfMemory => Fault::OutOfMemory,
    }
}

/// The fault of sections that were stopped.
fn fault_halting(halt: Halt) -> Option<Fault>
    ensures { result ≡ fault_halting halt }
{
    match halt {
        Halt::Done => None,
        Halt::Stopped => Some(Fault::Disk(FileName::Lane {
            lane: 0,
            odd: false,
        })),
        Halt::OutOfMemory => Some(Fault::OutOfMemory),
    }
}

/// Opens the log file and runs sections over it.
fn run_ready<D: Disk>(
    alloc: Global,
    schema: Schema,
    sections: Vec<ReadySection>,
    room: Vec<SectionRun>,
    disk: D,
) -> (D, Outcome)
    requires none { room.items ≡ [] }
    requires room { vec_len sections ≤ vec_capacity room }
    ensures { IsUnopened D.Disk schema disk (view_of result.1) result.0
        ⊎ WasRunOver D.Disk schema sections.items disk (view_of result.1) result.0 }
{
    let mut store = match ListStore::open(alloc, &schema, disk) {
        Ok(store) => store,
        Err((fault, disk)) => return (disk, Outcome::alone(fault_opening(fault))),
    };
    let (runs, halt) = run_sections(alloc, &mut store, sections, room);
    let outcome = Outcome {
        shown: Some(runs),
        fault: fault_halting(halt),
    };
    (store.into_disk(), outcome)
}

/// Runs a script over the log file. The memory of its sections is found before the file is opened.
pub(crate) fn run_script<D: Disk>(alloc: Global, script: Script, disk: D) -> (D, Outcome)
    ensures { Runs D.Disk script disk (view_of result.1) result.0 }
{
    let Ok((schema, sections)) = make_ready(alloc, script) else {
        return (disk, Outcome::alone(Fault::OutOfMemory));
    };
    let Ok(room) = Vec::with_capacity(alloc, sections.len()) else {
        return (disk, Outcome::alone(Fault::OutOfMemory));
    };
    run_ready(alloc, schema, sections, room, disk)
}
