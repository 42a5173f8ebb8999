//! Runs the engine on the words of the command line, standard input and output, and the files of a folder.
#![tactic(auto)]

ghost use Rattle.std.specs.Prelude.{◌≡◌, length, IfOk};

use disk_core::{FileDisk, LaneDisks, OutOfMemory, Store};
use io_edge::{Sink, StdSink, StdSource, Word};
use shell::{is_run, ptime};
use std::env::{Env, FillError};
use std::fs::File;
use std::io;
use std::os::fd::AsRawFd;
use std::process::ExitCode;

/// As long as the system lets a path be.
const LONGEST_PATH: usize = 4096;

/// The number of standard error, the last of the standard streams.
const LAST_STREAM: i32 = 2;

/// The status that says that the program ran out of memory.
const OUT_OF_MEMORY: u8 = 3;

fn main(rt: HostRuntime) -> ExitCode {
    let mut sink = StdSink::new(rt.stdout());
    let status = match run(&rt, &mut sink) {
        Ok(status) => status,
        Err(OutOfMemory) => {
            // The status says it where the line can't be written.
            let _ = sink.push(b"fault MEMORY\n");
            OUT_OF_MEMORY
        }
    };
    ExitCode::from(status)
}

fn run(rt: &HostRuntime, sink: &mut StdSink) -> Result<u8, OutOfMemory> {
    let _held = hold_streams(rt);
    let words = read_words(rt)?;
    let store = open_store(rt, &words)?;
    let mut source = StdSource::new(rt.stdin());
    let ended = ptime(rt.alloc(), &words, &mut source, sink, store);
    Ok(ended.status)
}

/// Takes the numbers of standard streams that are closed, so that no file of a database gets one. Reading
/// there finds the end, and writing fails. One that can't be held is met again by `open_or_make`.
fn hold_streams(rt: &HostRuntime) -> [Option<File>; 3] {
    let hold = || File::open(rt, "/dev/null").ok();
    [hold(), hold(), hold()]
}

/// The words behind the program's name.
fn read_words(rt: &HostRuntime) -> Result<Vec<Word>, OutOfMemory> {
    let mut words = Vec::new(rt.alloc());
    for i in 1..usize::MAX {
        let Some(word) = read_word(rt, i)? else {
            break;
        };
        words.push(word)?;
    }
    Ok(words)
}

/// A word, where there is one. One that isn't UTF-8, or is longer than a path may be, is an empty word.
fn read_word(rt: &HostRuntime, i: usize) -> Result<Option<Word>, OutOfMemory> {
    let mut room = [0; LONGEST_PATH];
    let len = match rt.arg(i, &mut room) {
        Ok(len) => len,
        Err(FillError::TooLong) => 0,
        Err(FillError::NotPresent) => return Ok(None),
    };
    let text = str::from_utf8(&room[..len]).unwrap_or("");
    Ok(Some(Word::new(rt.alloc(), text)?))
}

/// The files that the words name. No file is made but the log file, and that only for a run.
fn open_store(rt: &HostRuntime, words: &[Word]) -> Result<Store<FileDisk>, OutOfMemory>
    ensures lane { IfOk result (λ store. length store.lanes.items ≡ 1) }
{
    let lane = LaneDisks {
        even: open_log(rt, words)?,
        odd: FileDisk::missing(),
    };
    Ok(Store {
        area_a: FileDisk::missing(),
        area_b: FileDisk::missing(),
        lanes: vec![in rt.alloc(); lane]?,
    })
}

fn open_log(rt: &HostRuntime, words: &[Word]) -> Result<FileDisk, OutOfMemory> {
    if !is_run(words) {
        return Ok(FileDisk::missing());
    }
    let folder = words[1].as_str();
    let path = format!(in rt.alloc(); "{folder}/lane0.even")?;
    Ok(match open_or_make(rt, folder, path.as_str()) {
        Ok(file) => FileDisk::new(file),
        Err(_) => FileDisk::missing(),
    })
}

/// Opens a file, or makes it, for this process alone, and has its folder keep it. The folder comes first:
/// where it gets a number of a standard stream, that number couldn't be held, and nothing is made.
fn open_or_make(rt: &HostRuntime, folder: &str, path: &str) -> io::Result<File> {
    let folder = File::open(rt, folder)?;
    if folder.as_raw_fd() <= LAST_STREAM {
        return Err(io::ErrorKind::Other.into());
    }
    let file = File::options()
        .read(true)
        .write(true)
        .create(true)
        .open(rt, path)?;
    file.try_lock()?;
    folder.sync_all()?;
    Ok(file)
}
