// Runs the public call over a source, a sink and files in memory.
ghost use Rattle.std.specs.Prelude.{◌≡◌, length, IfOk};

use disk_core::{LaneDisks, MemDisk, OutOfMemory, Store};
use io_edge::{MemSink, MemSource, Word};
use shell::{Ended, ptime};
use std::alloc::Global;
use std::test::Fail;

/// What a call gave: its status, what it printed and the log file.
#[derive(Drop)]
pub struct Ran {
    pub status: u8,
    pub sink: MemSink,
    pub disk: MemDisk,
}

/// A disk with these bytes, and room for what so many bytes of calls keep.
pub fn disk(alloc: Global, bytes: &[u8], room: u64) -> Result<MemDisk, OutOfMemory> {
    MemDisk::new(alloc, bytes.to_vec(alloc)?, room)
}

/// A disk whose change call of this number fails.
pub fn failing(alloc: Global, bytes: &[u8], call: u64) -> Result<MemDisk, OutOfMemory> {
    let disk = disk(alloc, bytes, 4000)?;
    Ok(disk.failing(vec![in alloc; call]?, Vec::new(alloc)))
}

/// A sink with room for so many bytes, whose pushes of these numbers fail.
pub fn sink(alloc: Global, room: usize, pushes: &[u64]) -> Result<MemSink, OutOfMemory> {
    let room = Vec::with_capacity(alloc, room)?;
    Ok(MemSink::with_room(room, pushes.to_vec(alloc)?))
}

/// Runs a script over a log file.
pub fn run(alloc: Global, even: MemDisk, script: &str) -> Result<Ran, Fail> {
    let source = MemSource::new(script.as_bytes().to_vec(alloc)?, Vec::new(alloc));
    let words = words(alloc, &["run", "folder"])?;
    run_as(alloc, &words, source, sink(alloc, 1000, &[])?, even)
}

/// Runs what the words ask for, over a source, a sink and a log file.
pub fn run_as(
    alloc: Global,
    words: &[Word],
    source: MemSource,
    sink: MemSink,
    even: MemDisk,
) -> Result<Ran, Fail> {
    let (mut source, mut sink) = (source, sink);
    let store = store(alloc, even)?;
    let Ended { status, store } = ptime(alloc, words, &mut source, &mut sink, store);
    let disk = log_file(store)?;
    Ok(Ran { status, sink, disk })
}

pub fn words(alloc: Global, texts: &[&str]) -> Result<Vec<Word>, OutOfMemory> {
    let mut words = Vec::new(alloc);
    for text in texts {
        words.push(Word::new(alloc, text)?)?;
    }
    Ok(words)
}

fn store(alloc: Global, even: MemDisk) -> Result<Store<MemDisk>, OutOfMemory>
    ensures { IfOk result (λ store. length store.lanes.items ≡ 1) }
{
    let odd = disk(alloc, b"", 0)?;
    let lane = LaneDisks { even, odd };
    Ok(Store {
        area_a: disk(alloc, b"", 0)?,
        area_b: disk(alloc, b"", 0)?,
        lanes: vec![in alloc; lane]?,
    })
}

fn log_file(mut store: Store<MemDisk>) -> Result<MemDisk, Fail> {
    match store.lanes.pop() {
        Some(lane) => Ok(lane.even),
        None => Err(Fail::from("no lane came back")),
    }
}
