// A region of blocks, some out and some free.
ghost use Rattle.std.specs.Prelude.{◌≡◌, ◌<◌, ◌≤◌, ◌+◌, ◌*◌, ◌-◌, ◌++◌, ℕ, true, length, get_or, take, drop, replicate};
ghost use Rattle.std.specs.Prelude.{vec_capacity, IfOk};
ghost use Rattle.block_pool.specs.Blocks.{zeros};

use crate::{Block, OutOfMemory, Run};
use std::alloc::Global;
use std::marker::Model;
use thiserror::Error;

/// The bytes of a block.
pub(crate) const BLOCK: usize = 4096;

/// All blocks are out.
#[derive(Clone, Copy, Debug, PartialEq, Eq, Error)]
#[error("{used} of {limit} blocks are out")]
pub struct PoolFull {
    pub used: u64,
    pub limit: u64,
}

/// A fixed number of blocks of 4,096 bytes in one region, seen as the list of its blocks: the bytes of each
/// that is out, nothing for one that is free.
#[derive(Debug, Drop)]
pub struct Pool {
    /// The bytes of all blocks, one block behind the other.
    region: Vec<u8>,
    outs: Vec<bool>,
    /// The places of the free blocks, the next one last. It has room for all.
    free: Vec<u32>,
}

impl Model for Pool {
    ghost use Rattle.std.specs.Prelude.{◌≡◌, ◌*◌, ◌≤◌, length, vec_capacity};
    ghost use Rattle.block_pool.specs.Blocks.{Blocks};
    ghost use Rattle.block_pool.specs.Region.{blocks_of, entries, IsKept};

    ghost Value = { Blocks };

    ghost view = { λ p. entries p.outs.items (blocks_of (length p.outs.items) p.region.items) };

    ghost invariant = { λ p. IsKept p.outs.items (blocks_of (length p.outs.items) p.region.items) p.free.items
        × (length p.outs.items ≤ vec_capacity p.free)
        × (length p.region.items ≡ 4096 * length p.outs.items) };
}

impl Pool {
    ghost use Rattle.std.specs.Prelude.{◌≡◌, ◌+◌, ◌*◌, ◌++◌, ◌<◌, ◌≤◌, ℕ, List, None, Some, Err, length, take};
    ghost use Rattle.std.specs.Prelude.{drop, replicate, slice_set, IfOk, OnErr, OnOk};
    ghost use Rattle.std.specs.Borrow.{sem};
    ghost use Rattle.block_pool.specs.Blocks.{Holds, IsFree, used, zeros};
    ghost use Rattle.block_pool.specs.Lends.{LendsFrom};
    ghost use Rattle.block_pool.specs.Runs.{HoldsRun, IsFresh};
    ghost use Rattle.block_pool.specs.declared.pool.PoolFull.{PoolFull};

    /// A pool of `n` blocks, all free.
    pub fn new(alloc: Global, n: u32) -> Result<Pool, OutOfMemory>
        ensures { IfOk result (λ pool. pool ≡ replicate n None) }
    {
        let region = vec![in alloc; 0; n as usize * BLOCK]?;
        let outs = vec![in alloc; false; n as usize]?;
        let free = places(alloc, n)?;
        Ok(Pool { region, outs, free })
    }

    /// Gives a free block out, which becomes zeros. `PoolFull` comes exactly where all blocks are out, and
    /// tells how many are out and how many there are.
    pub fn take(&mut self) -> Result<Block, PoolFull>
        ensures free { IfOk result (λ block. IsFree self.old block) }
        ensures zeros { IfOk result (λ block. self.new ≡ slice_set self.old block (Some zeros)) }
        ensures full { OnErr result (used self.old ≡ length self.old) }
        ensures tells { OnErr result (result
            ≡ Err (record { used = used self.old; limit = length self.old })) }
        ensures same { OnErr result (self.new ≡ self.old) }
    {
        let Some(place) = self.free.pop() else {
            let limit = self.outs.len() as u64;
            return Err(PoolFull { used: limit, limit });
        };
        let block = Block::at(place);
        self.outs[place as usize] = true;
        clear(&mut self.region, block.start(), BLOCK);
        Ok(block)
    }

    /// Takes a block back, which becomes free.
    pub fn give(&mut self, block: Block)
        requires { (bytes : List ℕ) × Holds self.old block bytes }
        ensures { self.new ≡ slice_set self.old block None }
    {
        let place = block.place();
        self.outs[place] = false;
        self.free.push_reserved(place as u32);
    }

    /// The bytes of a block.
    pub fn bytes(&self, block: &Block) -> &[u8]
        requires { (bytes : List ℕ) × Holds self.now block.now bytes }
        ensures bytes { Holds self.now block.now result.now }
        ensures len { length result.now ≡ 4096 }
    {
        part(&self.region, block.start(), BLOCK)
    }

    /// The bytes of a block, for writing, which leaves all other blocks.
    pub fn bytes_mut(&mut self, block: &Block) -> &mut [u8]
        requires { (bytes : List ℕ) × Holds self.old block.now bytes }
        ensures* writes_back { sem 𝓛 (LendsFrom self.entry block.now result) }
        ensures bytes { Holds self.old block.now result.now }
        ensures len { length result.now ≡ 4096 }
    {
        let at = block.start();
        self.region.slice_mut(at..at + BLOCK)
    }

    /// Gives `n` neighbouring blocks out, which become zeros, as long as none was given back. `PoolFull` comes
    /// exactly where fewer are free, and tells how many are out and how many there are.
    pub fn take_run(&mut self, n: u32) -> Result<Run, PoolFull>
        requires { IsFresh self.old }
        ensures run { IfOk result (λ run. run ≡ record { first = used self.old; count = n }) }
        ensures fits { OnOk result (used self.old + n ≤ length self.old) }
        ensures zeros { OnOk result (self.new
            ≡ take (used self.old) self.old ++ replicate n (Some zeros) ++ drop (used self.old + n) self.old) }
        ensures fresh { IsFresh self.new }
        ensures full { OnErr result (length self.old < used self.old + n) }
        ensures tells { OnErr result (result
            ≡ Err (record { used = used self.old; limit = length self.old })) }
        ensures same { OnErr result (self.new ≡ self.old) }
    {
        let used = self.used();
        let limit = self.outs.len() as u64;
        if limit < u64::from(used) + u64::from(n) {
            return Err(PoolFull {
                used: u64::from(used),
                limit,
            });
        }
        let run = Run::at(used, n);
        mark(&mut self.outs, used as usize, n as usize);
        clear(&mut self.region, run.start(), run.len());
        leave(&mut self.free, used + n, limit as u32);
        Ok(run)
    }

    /// The bytes of a run, those of its first block first.
    pub fn run_bytes(&self, run: &Run) -> &[u8]
        requires { (bytes : List ℕ) × HoldsRun self.now run.now bytes }
        ensures bytes { HoldsRun self.now run.now result.now }
        ensures len { length result.now ≡ 4096 * run.now.count }
    {
        part(&self.region, run.start(), run.len())
    }

    /// The bytes of a run, for writing, which leaves all other blocks.
    pub fn run_bytes_mut(&mut self, run: &Run) -> &mut [u8]
        requires { (bytes : List ℕ) × HoldsRun self.old run.now bytes }
        ensures* writes_back { sem 𝓛 (LendsFrom self.entry run.now.first result) }
        ensures bytes { HoldsRun self.old run.now result.now }
        ensures len { length result.now ≡ 4096 * run.now.count }
    {
        let at = run.start();
        let end = at + run.len();
        self.region.slice_mut(at..end)
    }

    /// How many blocks are out.
    pub fn used(&self) -> u32
        ensures { result ≡ used self.now }
    {
        (self.outs.len() - self.free.len()) as u32
    }
}

/// Makes so many bytes of a region 0, from a place on.
fn clear(region: &mut [u8], at: usize, len: usize)
    requires { at + len ≤ length region.old }
    ensures { region.new ≡ take at region.old ++ replicate len 0 ++ drop (at + len) region.old }
{
    fill_zeros(&mut region[at..at + len]);
}

/// Marks so many blocks as out.
fn mark(outs: &mut [bool], from: usize, count: usize)
    requires { from + count ≤ length outs.old }
    ensures { outs.new ≡ take from outs.old ++ replicate count true ++ drop (from + count) outs.old }
{
    fill_true(&mut outs[from..from + count]);
}

fn fill_true(outs: &mut [bool])
    ensures { outs.new ≡ replicate (length outs.old) true }
{
    outs.fill(true);
}

/// Leaves the places from `from` on as the free ones, the first one last.
fn leave(free: &mut Vec<u32>, from: u32, limit: u32)
    requires order { from ≤ limit }
    requires room { limit ≤ vec_capacity free.old }
    ensures len { length free.new.items ≡ limit - from }
    ensures room { vec_capacity free.old ≤ vec_capacity free.new }
    ensures falling { (i : ℕ) → i < limit - from → get_or free.new.items i 0 ≡ limit - 1 - i }
{
    free.clear();
    for i in 0..limit - from {
        free.push_reserved(limit - 1 - i);
    }
}

fn fill_zeros(bytes: &mut [u8])
    ensures { bytes.new ≡ replicate (length bytes.old) 0 }
{
    bytes.fill(0);
}

/// So many bytes of a region from a place on.
fn part(region: &[u8], at: usize, len: usize) -> &[u8]
    requires { at + len ≤ length region.now }
    ensures { result.now ≡ take len (drop at region.now) }
{
    &region[at..at + len]
}

/// The places of `n` blocks, the first one last.
fn places(alloc: Global, n: u32) -> Result<Vec<u32>, OutOfMemory>
    ensures len { IfOk result (λ places. length places.items ≡ n) }
    ensures room { IfOk result (λ places. n ≤ vec_capacity places) }
    ensures falling { IfOk result (λ places. (i : ℕ) → i < n → get_or places.items i 0 ≡ n - 1 - i) }
{
    let mut places = Vec::with_capacity(alloc, n as usize)?;
    for i in 0..n {
        places.push_reserved(n - 1 - i);
    }
    Ok(places)
}
