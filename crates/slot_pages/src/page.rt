// Pages over blocks of a pool.
ghost use Rattle.std.specs.Prelude.{◌≡◌};
ghost use Rattle.slot_pages.specs.State.{none_held};

use crate::bytes::{put, toggle_block};
use crate::free::{PAGE, SLOTS, first_free, still_taken, taken_from};
use block_pool::{Block, Pool, PoolFull};
use row_types::Schema;
use std::marker::Model;
use thiserror::Error;

/// A slot of a page is neither the slot of a row nor empty, or what is behind the last isn't 0.
#[derive(Clone, Copy, Debug, PartialEq, Eq, Error)]
#[error("byte {at} of slot {slot} is wrong")]
pub struct BadPage {
    /// The number of the first such slot; for what is behind the last, the number behind its.
    pub slot: u64,
    /// The place of the fault, counted from the slot's first byte.
    pub at: u64,
}

/// A page of a table, over a block of a pool: 4,096 bytes, a stamp that each change raises, and which of its
/// slots are held.
#[derive(Debug, Drop)]
pub struct Page {
    block: Block,
    table: u16,
    number: u32,
    stamp: u64,
    held: [bool; SLOTS],
    /// The slots' length for which the next is known, 0 at first.
    len: u16,
    /// How many slots from the first on are known to be taken.
    taken: u16,
}

impl Model for Page {
    ghost use Rattle.slot_pages.specs.State.{PageState};

    ghost Value = { PageState };

    ghost view = { λ p. record {
      table = p.table;
      number = p.number;
      stamp = p.stamp;
      block = p.block;
      held = p.held;
      len = p.len;
      taken = p.taken;
    } };
}

impl Page {
    ghost use Rattle.std.specs.Prelude.{◌≡◌, ◌⊎◌, ℕ, ◌+◌, ◌*◌, ◌/◌, ◌^◌, ◌<◌, ◌≤◌, List, true, false, get_or};
    ghost use Rattle.std.specs.Prelude.{Some, None, Ok, Err, IfOk, OnErr, IfSome, IfNone, length, replicate};
    ghost use Rattle.std.specs.Prelude.{slice_set};
    ghost use Rattle.block_pool.specs.Blocks.{Blocks, IsFree as IsFreeBlock, used, zeros};
    ghost use Rattle.block_pool.specs.declared.pool.PoolFull.{PoolFull};
    ghost use Rattle.fields.specs.Toggle.{byte_from, toggled};
    ghost use Rattle.row_types.specs.Page.{slot_at, page_fault};
    ghost use Rattle.row_types.specs.Schema.{columns_at};
    ghost use Rattle.slot_pages.specs.State.{PageState, IsPage, IsTaken, bytes_in, none_held};
    ghost use Rattle.slot_pages.specs.State.{LiesOutside};
    ghost use Rattle.slot_pages.specs.Slots.{IsFree, IsFirstFree, unless_bad};

    /// An empty page with stamp 0, over a block that was free. `PoolFull`: there is none.
    pub fn fresh(pool: &mut Pool, table: u16, number: u32) -> Result<Page, PoolFull>
        ensures page { IfOk result (λ page. page
            ≡ record {
              table = table;
              number = number;
              stamp = 0;
              block = page.block;
              held = none_held;
              len = 0;
              taken = 0;
            }) }
        ensures pool { IfOk result
            (λ page. IsFreeBlock pool.old page.block
            × (pool.new ≡ slice_set pool.old page.block (Some zeros))) }
        ensures kept { IfOk result (λ page. IsPage pool.new page) }
        ensures full { OnErr result (used pool.old ≡ length pool.old) }
        ensures tells { OnErr result
            (result ≡ Err (record { used = used pool.old; limit = length pool.old })) }
        ensures same { OnErr result (pool.new ≡ pool.old) }
    {
        let block = pool.take()?;
        Ok(Page {
            block,
            table,
            number,
            stamp: 0,
            held: none_held(),
            len: 0,
            taken: 0,
        })
    }

    /// A page with these bytes and this stamp, over a block that was free. `PoolFull`: there is none.
    pub fn from_image(
        pool: &mut Pool,
        table: u16,
        number: u32,
        stamp: u64,
        bytes: &[u8],
    ) -> Result<Page, PoolFull>
        requires { length bytes.now ≡ 4096 }
        ensures page { IfOk result (λ page. page
            ≡ record {
              table = table;
              number = number;
              stamp = stamp;
              block = page.block;
              held = none_held;
              len = 0;
              taken = 0;
            }) }
        ensures pool { IfOk result
            (λ page. IsFreeBlock pool.old page.block
            × (pool.new ≡ slice_set pool.old page.block (Some bytes.now))) }
        ensures kept { IfOk result (λ page. IsPage pool.new page) }
        ensures full { OnErr result (used pool.old ≡ length pool.old) }
        ensures tells { OnErr result
            (result ≡ Err (record { used = used pool.old; limit = length pool.old })) }
        ensures same { OnErr result (pool.new ≡ pool.old) }
    {
        let block = pool.take()?;
        put(pool, &block, bytes);
        Ok(Page {
            block,
            table,
            number,
            stamp,
            held: none_held(),
            len: 0,
            taken: 0,
        })
    }

    /// Its table's number.
    pub fn table(&self) -> u16
        ensures { result ≡ self.now.table }
    {
        self.table
    }

    /// Its number in the table.
    pub fn number(&self) -> u32
        ensures { result ≡ self.now.number }
    {
        self.number
    }

    /// Its stamp.
    pub fn stamp(&self) -> u64
        ensures { result ≡ self.now.stamp }
    {
        self.stamp
    }

    /// Its bytes.
    pub fn bytes<'a>(&self, pool: &'a Pool) -> &'a [u8]
        requires { IsPage pool.now self.now }
        ensures { result.now ≡ bytes_in pool.now self.now }
    {
        pool.bytes(&self.block)
    }

    /// Tests that each slot is the slot of a row or empty, and that what is behind the last is 0. `BadPage`
    /// names the first fault.
    pub fn check(&self, pool: &Pool, schema: &Schema) -> Result<(), BadPage>
        requires page { IsPage pool.now self.now }
        requires table { self.now.table < length schema.now }
        ensures { result
            ≡ unless_bad (page_fault (columns_at schema.now self.now.table) (bytes_in pool.now self.now)) }
    {
        match schema.page_fault(self.table, self.bytes(pool)) {
            Some((slot, at)) => Err(BadPage {
                slot: slot as u64,
                at: at as u64,
            }),
            None => Ok(()),
        }
    }

    /// The bytes of slot `n`, where slots have `len` bytes.
    pub fn slot<'a>(&self, pool: &'a Pool, n: u16, len: usize) -> &'a [u8]
        requires page { IsPage pool.now self.now }
        requires least { 16 ≤ len }
        requires inside { n * len + len ≤ 4096 }
        ensures { result.now ≡ slot_at len (bytes_in pool.now self.now) n }
    {
        let at = n as usize * len;
        &self.bytes(pool)[at..at + len]
    }

    /// The lowest slot that is empty and isn't held, where slots have `len` bytes. `None`: there is none. It
    /// begins behind the slots that `skip_taken` has found.
    pub fn first_free(&self, pool: &Pool, len: usize) -> Option<u16>
        requires page { IsPage pool.now self.now }
        requires least { 16 ≤ len }
        requires most { len ≤ 4096 }
        ensures some { IfSome result (IsFirstFree (bytes_in pool.now self.now) self.now.held len) }
        ensures none { IfNone result
            ((k : ℕ) → k < 4096 / len → ¬ (IsFree (bytes_in pool.now self.now) self.now.held len k)) }
    {
        let from = self.taken_for(len);
        first_free(self.bytes(pool), &self.held, len, from)
    }

    /// Looks how many slots from the first on are taken, where slots have `len` bytes, so that later calls of
    /// `first_free` begin behind them. A call that follows others of the same length continues where they
    /// stopped.
    pub fn skip_taken(&mut self, pool: &Pool, len: usize)
        requires page { IsPage pool.now self.old }
        requires least { 16 ≤ len }
        requires most { len ≤ 4096 }
        ensures state { self.new ≡ record self.old { len = len; taken = self.new.taken } }
        ensures kept { IsPage pool.now self.new }
        ensures all { self.new.taken < 4096 / len
            → ¬ (IsTaken (bytes_in pool.now self.new) self.new.held len self.new.taken) }
    {
        let from = self.taken_for(len);
        let taken = taken_from(pool.bytes(&self.block), &self.held, len, from);
        self.len = len as u16;
        self.taken = taken as u16;
    }

    /// How many slots of this length are known to be taken.
    fn taken_for(&self, len: usize) -> usize
        ensures { (result ≡ 0) ⊎ ((len ≡ self.now.len) × (result ≡ self.now.taken)) }
    {
        if self.len as usize == len {
            return self.taken as usize;
        }
        0
    }

    /// Flips the bits that `xor` has set, from `offset` on, and
    /// raises the stamp by 1. All other blocks of the pool stay.
    pub fn toggle(&mut self, pool: &mut Pool, offset: u16, xor: &[u8])
        requires page { IsPage pool.old self.old }
        requires inside { offset + length xor.now ≤ 4096 }
        requires stamp { self.old.stamp < 2 ^ 63 }
        ensures pool { pool.new
            ≡ slice_set pool.old self.old.block
            (Some (toggled (byte_from offset) (bytes_in pool.old self.old) xor.now)) }
        ensures state { self.new ≡ record self.old { stamp = self.old.stamp + 1; taken = self.new.taken } }
        ensures kept { IsPage pool.new self.new }
        ensures known { (k : ℕ) → k < self.old.taken
            → LiesOutside self.old.len offset (length xor.now) k → k < self.new.taken }
    {
        toggle_block(pool, &self.block, offset, xor);
        self.stamp += 1;
        self.taken = still_taken(
            self.taken as usize,
            self.len as usize,
            offset as usize,
            xor.len(),
        ) as u16;
    }

    /// Holds slot `n`: it isn't free, though it be empty.
    pub fn hold(&mut self, n: u16)
        requires { n < 256 }
        ensures state { self.new ≡ record self.old { held = slice_set self.old.held n true } }
        ensures kept { (pool : Blocks) → IsPage pool self.old → IsPage pool self.new }
    {
        self.held[n as usize] = true;
    }

    /// Slot `n` is no longer held.
    pub fn unhold(&mut self, n: u16)
        requires { n < 256 }
        ensures state { self.new
            ≡ record self.old { held = slice_set self.old.held n false; taken = self.new.taken } }
        ensures kept { (pool : Blocks) → IsPage pool self.old → IsPage pool self.new }
        ensures known { (k : ℕ) → k < self.old.taken → k < n → k < self.new.taken }
    {
        self.held[n as usize] = false;
        self.taken = self.taken.min(n);
    }
}

/// No slot is held.
fn none_held() -> [bool; SLOTS]
    ensures { result ≡ none_held }
{
    [false; SLOTS]
}
