ghost use Rattle.std.specs.Prelude.{◌≡◌, ◌≢◌, ◌↔◌, ℕ, length, IfOk, IfErr, IsTrue};
ghost use Rattle.base_types.specs.Causes.{one_more};
ghost use Rattle.shell.specs.Call.{AllDone, Answers, Explains, IsRun, IsUntouched, LeavesFile};
ghost use Rattle.shell.specs.Call.{GivesNoScript, GivesScript, NamesFolder, NoScript, StaysDamaged};
ghost use Rattle.shell.specs.Files.{KeepsOthers, log_file, outside_in, outside_of};
ghost use Rattle.shell.specs.Input.{FailsWithin, ReadsWithin, WasRead, read_limit};
ghost use Rattle.shell.specs.Outcome.{view_of};

use crate::input::{InputFault, read_all};
use crate::outcome::Outcome;
use crate::run::run_script;
use disk_core::{Disk, LaneDisks, Store};
use io_edge::{Sink, Source, Word};
use reply_text::Fault;
use script::{Script, ScriptFault, split};
use std::alloc::Global;

/// What a call returns: its exit status and the files.
#[derive(Drop)]
pub struct Ended<D> {
    pub status: u8,
    pub store: Store<D>,
}

/// Runs the script that the source gives over the store's log file, as the words ask, and prints the replies.
/// The script is read whole before the file is touched, and all is printed at the end of the run.
///
/// The leading statements of the setup say which tables there are. The other blocks of the setup are run, and
/// then those of the sessions in their order, one block after the other.
///
/// | Status | Last line | Comes |
/// |---|---|---|
/// | 0 | none | where all was read, done, kept and printed |
/// | 2 | `fault USAGE` | exactly where the words aren't `run` and a folder |
/// | 3 | `fault MEMORY` | where memory ran out, and no disk failed |
/// | 4 | `fault DISK` and the file | where a call of the log file's disk failed, and nowhere else |
/// | 5 | `fault SOURCE` | where a pull of the source failed, and nowhere else; it is the last pull |
/// | 6 | none | only where a push to the sink failed, and all else was done and kept |
/// | 7 | `fault SCRIPT` and a place | where the input is no script, and nowhere else |
/// | 8 | `fault DAMAGED` and a place | where the log file is open at entry but isn't a log of the tables |
///
/// The store has one lane. Its log file is the even one; the other files are returned as they were.
pub fn ptime<S: Source, K: Sink, D: Disk>(
    alloc: Global,
    words: &[Word],
    source: &mut S,
    sink: &mut K,
    store: Store<D>,
) -> Ended<D>
    requires lane { length store.lanes.items ≡ 1 }

    // How the call ended and why, what it showed, what it made of the log file, and what a crash leaves.
    ensures answers { Answers S.Source K.Sink D.Disk words.now (outside_in source.old store)
        (outside_in source.new result.store) sink.old sink.new result.status }
    ensures others { KeepsOthers store result.store }

    // What each status says.
    ensures done { result.status ≡ 0 → AllDone S.Source K.Sink D.Disk words.now
        (outside_in source.old store) (outside_in source.new result.store) sink.old sink.new }
    ensures usage { (result.status ≡ 2) ↔ ¬ (IsRun words.now) }
    ensures disk { result.status ≡ 4
        → D.faults (log_file result.store) ≡ one_more (D.faults (log_file store)) }
    ensures source { result.status ≡ 5 → FailsWithin S.Source read_limit source.old source.new }
    ensures sink { result.status ≡ 6 → K.faults sink.new ≡ one_more (K.faults sink.old) }
    ensures script { result.status ≡ 7 → (at : ℕ) × GivesNoScript S.Source source.old at }
    ensures damaged { result.status ≡ 8 → StaysDamaged D.Disk (log_file store) (log_file result.store) }

    // What was read, and where the log file stays as it was.
    ensures read { result.status ≢ 2 → result.status ≢ 3 → result.status ≢ 5
        → WasRead S.Source source.old source.new }
    ensures untouched { LeavesFile result.status
        → IsUntouched D.Disk (log_file store) (log_file result.store) }

    // No other status hides a fault of the disk or of the source.
    ensures no_disk_fault { result.status ≢ 4 → D.faults (log_file result.store) ≡ D.faults (log_file store) }
    ensures no_source_fault { result.status ≢ 5 → ReadsWithin S.Source read_limit source.old source.new }
{
    let Store {
        area_a,
        area_b,
        mut lanes,
    } = store;
    let LaneDisks { even, odd } = lanes.pop().unwrap();
    let (even, outcome) = call(alloc, words, source, even);
    let status = outcome.print(sink);
    lanes.push_reserved(LaneDisks { even, odd });
    let store = Store {
        area_a,
        area_b,
        lanes,
    };
    Ended { status, store }
}

/// Reads the script and runs it over the log file, where the words ask for that.
fn call<S: Source, D: Disk>(alloc: Global, words: &[Word], source: &mut S, disk: D) -> (D, Outcome)
    ensures { Explains S.Source D.Disk words.now (outside_of source.old disk)
        (outside_of source.new result.0) (view_of result.1) }
{
    if !is_run(words) {
        return (disk, Outcome::alone(Fault::Usage));
    }
    match read_script(alloc, source) {
        Ok(script) => run_script(alloc, script, disk),
        Err(fault) => (disk, Outcome::alone(fault)),
    }
}

/// Whether the words are `run` and a folder, so that a log file is wanted. The word for a folder isn't empty
/// and doesn't begin with a minus.
pub fn is_run(words: &[Word]) -> bool
    ensures { IsTrue result ↔ IsRun words.now }
{
    let [command, folder] = words else {
        return false;
    };
    command.as_str() == "run" && names_folder(folder.as_str().as_bytes())
}

/// Whether a word may name a folder: it isn't empty and doesn't begin as an option does.
fn names_folder(word: &[u8]) -> bool
    ensures { IsTrue result ↔ NamesFolder word.now }
{
    match word.first() {
        Some(first) => *first != b'-',
        None => false,
    }
}

/// Reads the whole source as a script.
fn read_script<S: Source>(alloc: Global, source: &mut S) -> Result<Script, Fault>
    ensures script { IfOk result (λ script. WasRead S.Source source.old source.new
        × GivesScript S.Source source.old script) }
    ensures fault { IfErr result (λ fault. NoScript S.Source fault source.old source.new) }
{
    let input = match read_all(alloc, source) {
        Ok(input) => input,
        Err(InputFault::Source) => return Err(Fault::Source),
        Err(InputFault::OutOfMemory) => return Err(Fault::OutOfMemory),
    };
    match split(alloc, &input) {
        Ok(script) => Ok(script),
        Err(ScriptFault::BadScript { at }) => Err(Fault::Script { at }),
        Err(ScriptFault::OutOfMemory) => Err(Fault::OutOfMemory),
    }
}
