// What an index with few nodes has room for.
ghost use Rattle.std.specs.Prelude.{◌≡◌, ◌<◌, IfSome};

use crate::trees::{key, put, take};
use olfit_tree::{AddFault, Index, Writer};
use std::alloc::Global;

/// An index with the keys from 1 to `keys`, added in this order, each with ten times itself.
fn grown(alloc: Global, nodes: u32, keys: u64) -> Option<(Index, Writer)>
    requires { 0 < nodes }
    ensures { IfSome result (λ made. made.1.table ≡ made.0.table) }
{
    let (index, mut writer) = Index::empty(alloc, 0, nodes).ok()?;
    if fill(&index, &mut writer, keys) {
        Some((index, writer))
    } else {
        None
    }
}

/// Adds the keys from 1 to `keys`, and answers whether all were added.
fn fill(index: &Index, writer: &mut Writer, keys: u64) -> bool
    requires { writer.old.table ≡ index.now.table }
    ensures { writer.new.table ≡ index.now.table }
{
    for number in 1..keys.min(1_000) + 1 {
        if !put(index, writer, number, number * 10) {
            return false;
        }
    }
    true
}

/// What adding this key with the value 7 returns, which `may_add` has to tell before.
fn add(index: &Index, writer: &mut Writer, number: u64) -> Option<Result<(), AddFault>>
    requires { writer.old.table ≡ index.now.table }
    ensures { writer.new.table ≡ index.now.table }
{
    if writer.changes() >= 1 << 60 {
        return None;
    }
    let key = key(u128::from(number));
    let told = writer.may_add(index, key);
    let done = writer.add(index, key, 7);
    if told == done { Some(done) } else { None }
}

/// The refusal of an index that began empty.
fn full(used: u32, limit: u32, inserts: u64) -> Result<(), AddFault> {
    Err(AddFault::NodesFull {
        used,
        limit,
        built: 0,
        inserts,
    })
}

/// Rising keys leave 8 entries in a leaf that is split, so a new leaf comes with each eighth key. A root with
/// 16 leaves is full too: the next leaf takes three nodes.
#[test]
fn keys_up_to_the_last_node(rt: HostRuntime) {
    for (limit, used, keys) in [
        (1u32, 1, 16),
        (2, 1, 16),
        (3, 3, 24),
        (4, 4, 32),
        (16, 16, 128),
        (17, 17, 136),
        (18, 17, 136),
        (19, 17, 136),
        (20, 20, 144),
    ] {
        assert!(rt; limit > 0);
        let Some((index, mut writer)) = grown(rt.alloc(), limit, keys) else {
            panic!(rt; "{keys} keys don't fit into {limit} nodes");
        };
        let refused = add(&index, &mut writer, keys.saturating_add(1));
        assert!(rt; refused == Some(full(used, limit, keys)), "{limit} nodes");
        assert!(rt; writer.changes() == keys);
    }
}

/// A call, and what it has to return.
#[derive(Clone, Copy, Debug)]
enum Call {
    Add(u64, Result<(), AddFault>),
    Drop(u64, Option<u64>),
}

/// Whether the call returns this.
fn does(index: &Index, writer: &mut Writer, call: Call) -> bool
    requires { writer.old.table ≡ index.now.table }
    ensures { writer.new.table ≡ index.now.table }
{
    match call {
        Call::Add(number, wanted) => add(index, writer, number) == Some(wanted),
        Call::Drop(number, wanted) => take(index, writer, number) == wanted,
    }
}

fn present(value: u64) -> Result<(), AddFault> {
    Err(AddFault::Present { value })
}

/// A full index takes keys where a leaf has room, also after drops, and refuses keys that it has.
#[test]
fn keys_of_a_full_index(rt: HostRuntime) {
    let Some((index, mut writer)) = grown(rt.alloc(), 16, 128) else {
        panic!(rt; "memory");
    };
    for call in [
        Call::Add(129, full(16, 16, 128)),
        Call::Add(5, present(50)),
        Call::Add(128, present(1280)),
        Call::Add(0, Ok(())),
        Call::Add(0, present(7)),
        Call::Add(129, full(16, 16, 129)),
        Call::Drop(128, Some(1280)),
        Call::Drop(128, None),
        Call::Add(129, Ok(())),
        Call::Add(128, full(16, 16, 130)),
        Call::Add(129, present(7)),
    ] {
        assert!(rt; does(&index, &mut writer, call), "{call:?}");
    }
    assert!(rt; writer.changes() == 131);
}
