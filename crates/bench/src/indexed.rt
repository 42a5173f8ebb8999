// The index.
ghost use Rattle.std.specs.Prelude.{◌≡◌};

use crate::times::{Changes, Desk, Looks, Plan, key_of, print_alone, print_beside};
use base_types::OutOfMemory;
use key_space::Key;
use olfit_tree::{Index, Reader, Writer};
use std::alloc::{AllocError, Global};
use std::io;
use std::sync::Wait;
use std::thread::Threads;
use std::time::Clock;

/// A reader of the index.
#[derive(Drop)]
struct IndexReader<'a> {
    index: &'a Index,
    reader: Reader,
    ghost fits: { reader.table ≡ index.now.table },
}

impl Looks for IndexReader<'_> {
    fn look<R: Wait>(&mut self, rt: &R, key: Key) -> Option<u64> {
        self.reader.get(rt, self.index, key).value
    }
}

/// Its writer.
#[derive(Drop)]
struct IndexWriter<'a> {
    index: &'a Index,
    writer: Writer,
    ghost fits: { writer.table ≡ index.now.table },
}

impl Changes for IndexWriter<'_> {
    fn change<R: Wait>(&mut self, _rt: &R, key: Key, value: u64) {
        take(self.index, &mut self.writer, key);
        put(self.index, &mut self.writer, key, value);
    }
}

/// Adds a key.
fn put(index: &Index, writer: &mut Writer, key: Key, value: u64)
    requires { writer.old.table ≡ index.now.table }
    ensures { writer.new.table ≡ index.now.table }
{
    if writer.changes() < 1 << 60 {
        let _ = writer.add(index, key, value);
    }
}

/// Drops a key.
fn take(index: &Index, writer: &mut Writer, key: Key)
    requires { writer.old.table ≡ index.now.table }
    ensures { writer.new.table ≡ index.now.table }
{
    if writer.changes() < 1 << 60 {
        writer.drop_key(index, key);
    }
}

/// Adds all keys.
fn fill(index: &Index, writer: &mut Writer, plan: Plan)
    requires { writer.old.table ≡ index.now.table }
    ensures { writer.new.table ≡ index.now.table }
{
    for number in 0..plan.keys {
        put(index, writer, key_of(number), number);
    }
}

/// Readers that know all changes so far.
fn readers<'a>(
    alloc: Global,
    index: &'a Index,
    writer: &mut Writer,
) -> io::Result<Vec<Desk<IndexReader<'a>>>>
    requires { writer.old.table ≡ index.now.table }
    ensures { writer.new.table ≡ index.now.table }
{
    let mut desks = Vec::new(alloc);
    for _ in 0..4 {
        let reader = writer.reader(index).map_err(|_: OutOfMemory| AllocError)?;
        desks.push(Desk {
            reader: IndexReader { index, reader },
            found: 0,
        })?;
    }
    Ok(desks)
}

/// Times the index. Six added keys can need a node, and four nodes more may be in use.
pub(crate) fn time<R: Threads + Wait + Clock + Print + Sync>(
    rt: &R,
    alloc: Global,
    plan: Plan,
) -> io::Result<()> {
    let nodes = (plan.keys / 6) as u32 + 5;
    let (index, mut writer) = Index::empty(alloc, 0, nodes).map_err(|_: OutOfMemory| AllocError)?;
    fill(&index, &mut writer, plan);
    let mut desks = readers(alloc, &index, &mut writer)?;
    print_alone(rt, plan, "index", desks.as_mut_slice())?;
    let writer = IndexWriter {
        index: &index,
        writer,
    };
    print_beside(rt, plan, "index", desks.as_mut_slice(), writer)
}
