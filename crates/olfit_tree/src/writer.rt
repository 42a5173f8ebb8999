//! Changes of an index.
ghost use Rattle.std.specs.Prelude.{◌≡◌, ◌+◌, ◌^◌, ◌<◌, ◌≤◌, length, IfOk, IfErr, IfSome, IfNone, OnOk};
ghost use Rattle.std.specs.Prelude.{OnErr};
ghost use Rattle.olfit_rule.specs.Maps.{StartsWith};

use crate::index::Index;
use crate::reader::Reader;
use base_types::OutOfMemory;
use key_space::Key;
use olfit_change::{nodes_needed, put, take, value_of};
use olfit_rule::{Hand, agree, meet, reader};
use std::marker::Model;

/// Why a key isn't added.
#[derive(Clone, Copy, Debug, PartialEq, Eq)]
pub enum AddFault {
    /// It is there, with this value.
    Present {
        /// Its value.
        value: u64,
    },
    /// The nodes that would be split, and a new root where the root is one of them, are more than are left.
    NodesFull {
        /// The nodes in use.
        used: u32,
        /// The nodes of the index.
        limit: u32,
        /// The entries of which the index was built.
        built: u64,
        /// The keys added since.
        inserts: u64,
    },
}

/// The writer of an index, seen as what it has made.
#[derive(Drop)]
pub struct Writer {
    pub(crate) hand: Hand,
    pub(crate) nodes: usize,
    /// How many nodes are in use: those with lower numbers.
    pub(crate) used: usize,
    pub(crate) built: u64,
    pub(crate) inserts: u64,
    pub(crate) changes: u64,
}

impl Model for Writer {
    ghost use Rattle.std.specs.Prelude.{◌≡◌, ◌+◌, ◌≤◌, length};
    ghost use Rattle.olfit_tree.specs.Index.{Writing};
    ghost use Rattle.olfit_change.specs.Room.{IsPaid};
    ghost use Rattle.olfit_change.specs.States.{IsBetweenCalls};

    ghost Value = { Writing };

    ghost view = { λ w. record {
      table = w.hand.table_id;
      base = w.hand.me.0.base;
      now = w.hand.me.0.seen;
      used = w.used;
      inserts = w.inserts;
    } };

    ghost invariant = { λ w. record {
      works : IsBetweenCalls w.hand.table_id w.nodes w.used w.hand;
      counted : w.changes ≡ length w.hand.me.0.seen.log;
      built : w.built ≡ length w.hand.me.0.base;
      inserted : w.inserts ≤ length w.hand.me.0.seen.log;
      paid : IsPaid w.used (w.built + w.inserts) w.hand.me.0.seen;
    } };
}

impl Writer {
    ghost use Rattle.olfit_change.specs.States.{IsClean, IsTold};
    ghost use Rattle.olfit_tree.specs.Index.{CanAdd, CannotAdd, HasAdded, HasDropped};

    /// Adds a key. After a fault nothing is changed.
    pub fn add(&mut self, index: &Index, key: Key, value: u64) -> Result<(), AddFault>
        requires index { self.old.table ≡ index.now.table }
        requires few { length self.old.now.log < 2 ^ 60 }
        ensures ok { OnOk result
            (CanAdd key.number index.now.nodes self.old × HasAdded key.number value self.old self.new) }
        ensures err { IfErr result (λ fault. CannotAdd key.number fault index.now.nodes self.old) }
        ensures unchanged { OnErr result (self.new ≡ self.old) }
        ensures told { IsTold self.new.now }
        ensures clean { IsClean self.new.now }
    {
        if let Some(fault) = self.fault(index, key.number) {
            return Err(fault);
        }
        let shared = &index.memory.shared;
        put(
            shared,
            &mut self.hand,
            self.nodes,
            &mut self.used,
            key.number,
            value,
        );
        self.inserts += 1;
        self.changes += 1;
        Ok(())
    }

    /// What `add` of this key would return. Nothing is changed.
    pub fn may_add(&mut self, index: &Index, key: Key) -> Result<(), AddFault>
        requires { self.old.table ≡ index.now.table }
        ensures ok { OnOk result (CanAdd key.number index.now.nodes self.old) }
        ensures err { IfErr result (λ fault. CannotAdd key.number fault index.now.nodes self.old) }
        ensures unchanged { self.new ≡ self.old }
    {
        match self.fault(index, key.number) {
            Some(fault) => Err(fault),
            None => Ok(()),
        }
    }

    /// Why the key can't be added. None: it can be.
    fn fault(&mut self, index: &Index, key: u128) -> Option<AddFault>
        requires { self.old.table ≡ index.now.table }
        ensures some { IfSome result (λ fault. CannotAdd key fault index.now.nodes self.old) }
        ensures none { IfNone result (CanAdd key index.now.nodes self.old) }
        ensures unchanged { self.new ≡ self.old }
        ensures told { IsTold self.new.now }
        ensures clean { IsClean self.new.now }
    {
        let shared = &index.memory.shared;
        if let Some(value) = value_of(shared, &mut self.hand, self.nodes, key) {
            return Some(AddFault::Present { value });
        }
        let needed = nodes_needed(shared, &mut self.hand, self.nodes, key);
        if needed <= self.nodes - self.used {
            return None;
        }
        Some(AddFault::NodesFull {
            used: self.used as u32,
            limit: self.nodes as u32,
            built: self.built,
            inserts: self.inserts,
        })
    }

    /// Drops a key, and returns its value. None: it isn't there, and nothing is changed.
    pub fn drop_key(&mut self, index: &Index, key: Key) -> Option<u64>
        requires index { self.old.table ≡ index.now.table }
        requires few { length self.old.now.log < 2 ^ 60 }
        ensures dropped { HasDropped key.number result self.old self.new }
        ensures told { IsTold self.new.now }
        ensures clean { IsClean self.new.now }
    {
        let shared = &index.memory.shared;
        let dropped = take(shared, &mut self.hand, self.nodes, key.number);
        if dropped.is_some() {
            self.changes += 1;
        }
        dropped
    }

    /// How many changes were made since the index was built.
    pub fn changes(&self) -> u64
        ensures { result ≡ length self.now.now.log }
    {
        self.changes
    }

    /// A reader, which knows all changes so far. Out of memory: there is none, and the writer is as it was.
    pub fn reader(&mut self, index: &Index) -> Result<Reader, OutOfMemory>
        requires { self.old.table ≡ index.now.table }
        ensures same { self.new ≡ self.old }
        ensures reader { IfOk result (λ r. (r.table ≡ self.old.table) × (r.base ≡ self.old.base)) }
        ensures knows { IfOk result (λ r. (r.seen ≡ self.old.now) × (r.told ≡ self.old.now.log)) }
    {
        let shared = &index.memory.shared;
        let mut hand = reader(shared, &mut self.hand);
        meet(shared, &mut self.hand, &mut hand);
        Ok(Reader {
            hand,
            known: self.changes,
        })
    }

    /// The reader knows all changes so far. Out of memory: it knows what it knew. The reader's entries at the
    /// building are the writer's, so that its look-ups are of the map that the writer changes.
    pub fn meet(&mut self, index: &Index, reader: &mut Reader) -> Result<(), OutOfMemory>
        requires index { self.old.table ≡ index.now.table }
        requires reader { reader.old.table ≡ index.now.table }
        ensures same { self.new ≡ self.old }
        ensures told { OnOk result (reader.new ≡ record reader.old { told = self.old.now.log }) }
        ensures agree { OnOk result
            (StartsWith self.old.now.log reader.old.seen.log × (reader.old.base ≡ self.old.base)) }
        ensures unchanged { OnErr result (reader.new ≡ reader.old) }
    {
        let shared = &index.memory.shared;
        meet(shared, &mut self.hand, &mut reader.hand);
        agree(shared, &mut self.hand, &mut reader.hand);
        reader.known = self.changes;
        Ok(())
    }
}
