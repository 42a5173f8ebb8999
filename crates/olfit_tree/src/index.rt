//! An index: its building and its end.
ghost use Rattle.std.specs.Prelude.{◌≡◌, ◌<◌, ◌≤◌, ◌++◌, ◌^◌, [], IfOk, IfErr, OnOk, length, max};
ghost use Rattle.olfit_nodes.specs.Nodes.{count_of, entries_of, Rises};
ghost use Rattle.olfit_walk.specs.Looks.{entries_of_keys};
ghost use Rattle.olfit_change.specs.States.{IsReady, Stays};
ghost use Rattle.olfit_tree.specs.Index.{HasAll};

use crate::build::{laid_out, leaf_size, nodes_needed};
use crate::reader::Reader;
use crate::writer::Writer;
use base_types::OutOfMemory;
use key_space::Key;
use olfit_nodes::{count, entry, right};
use olfit_rule::{Hand, Memory, Words, opened, own_node};
use std::alloc::{AllocError, Global};
use std::marker::Model;

/// An ordered index from keys to values, of a fixed number of nodes.
#[derive(Drop)]
pub struct Index {
    pub(crate) memory: Memory,
    pub(crate) nodes: usize,
    number: u16,
}

impl Model for Index {
    ghost use Rattle.std.specs.Prelude.{◌≡◌, ◌+◌, ◌*◌, ◌^◌, ◌<◌};
    ghost use Rattle.olfit_tree.specs.Index.{Lain};

    ghost Value = { Lain };

    ghost view = { λ i. record {
      table = i.memory.shared.table_id;
      nodes = i.nodes;
      number = i.number;
    } };

    ghost invariant = { λ i. record {
      some : 0 < i.nodes;
      few : i.nodes < 2 ^ 32;
      sized : i.memory.shared.table_id.words ≡ i.nodes * 64 + 1;
    } };
}

impl Index {
    ghost use Rattle.olfit_tree.specs.Build.{nodes_over, nodes_with, per_leaf};
    ghost use Rattle.olfit_change.specs.States.{IsClean, IsTold};
    ghost use Rattle.olfit_tree.specs.Index.{IsAllOf, IsNew, IsPacked};

    /// An index of these entries, whose keys rise, with its writer. It has so many nodes, or as many as the
    /// entries need with 16 in each full node. Where there are at most six entries for each node but four,
    /// leaves get 8 of them, else 16; nodes above get 16 each, and the last node of each level gets the rest.
    /// Without entries it is one empty leaf. Its number names it among other indexes. Out of memory: there is
    /// no index.
    pub fn build(
        alloc: Global,
        number: u16,
        nodes: u32,
        sorted: &[(Key, u64)],
    ) -> Result<(Index, Writer), OutOfMemory>
        requires some { 0 < nodes }
        requires rises { Rises (entries_of_keys sorted.now) }
        requires few { length sorted.now < 2 ^ 32 }
        ensures index { IfOk result (λ made. (made.1.table ≡ made.0.table)
            × (made.0.nodes ≡ max nodes (nodes_over (length sorted.now)))
            × (made.0.number ≡ number)) }
        ensures base { IfOk result (λ made. made.1.base ≡ entries_of_keys sorted.now) }
        ensures none { IfOk result (λ made. (made.1.now.log ≡ []) × (made.1.inserts ≡ 0)) }
        ensures used { IfOk result (λ made. made.1.used
            ≡ nodes_with (length sorted.now) (per_leaf nodes (length sorted.now))) }
        ensures packed { IfOk result (λ made. IsPacked nodes made.1) }
        ensures new { IfOk result (λ made. IsNew made.1.now) }
        ensures told { IfOk result (λ made. IsTold made.1.now) }
        ensures clean { IfOk result (λ made. IsClean made.1.now) }
    {
        let wanted = nodes as usize;
        let nodes = wanted.max(nodes_needed(sorted.len()));
        let (words, used) = laid_out(alloc, nodes, leaf_size(wanted, sorted.len()), sorted)?;
        let (memory, hand) = opened(alloc, &words)?;
        let index = Index {
            memory,
            nodes,
            number,
        };
        let writer = Writer {
            hand,
            nodes,
            used,
            built: sorted.len() as u64,
            inserts: 0,
            changes: 0,
        };
        Ok((index, writer))
    }

    /// An index of so many nodes that has no key, with its writer. Its number names it among other indexes.
    /// Out of memory: there is no index.
    pub fn empty(alloc: Global, number: u16, nodes: u32) -> Result<(Index, Writer), OutOfMemory>
        requires { 0 < nodes }
        ensures index { IfOk result
            (λ made. (made.1.table ≡ made.0.table) × (made.0.nodes ≡ nodes)
            × (made.0.number ≡ number)) }
        ensures none { IfOk result (λ made. (made.1.base ≡ []) × (made.1.now.log ≡ [])
            × (made.1.inserts ≡ 0) × (made.1.used ≡ 1)) }
        ensures new { IfOk result (λ made. IsNew made.1.now) }
        ensures told { IfOk result (λ made. IsTold made.1.now) }
        ensures clean { IfOk result (λ made. IsClean made.1.now) }
    {
        let nodes = nodes as usize;
        let words = vec![in alloc; 0u64; nodes * 64 + 1]?;
        let (memory, hand) = opened(alloc, &words)?;
        let index = Index {
            memory,
            nodes,
            number,
        };
        let writer = Writer {
            hand,
            nodes,
            used: 1,
            built: 0,
            inserts: 0,
            changes: 0,
        };
        Ok((index, writer))
    }

    /// All entries, by rising keys. Out of memory: all comes back as it was.
    pub fn finish(
        self,
        alloc: Global,
        mut writer: Writer,
        readers: Vec<Reader>,
    ) -> Result<Vec<(Key, u64)>, (Index, Writer, Vec<Reader>)>
        requires index { writer.table ≡ self.table }
        ensures all { IfOk result (λ all. IsAllOf writer all.items) }
        ensures back { IfErr result
            (λ back. (back.0 ≡ self) × (back.1 ≡ writer) × (back.2.items ≡ readers.items)) }
    {
        match self.entries(alloc, &mut writer) {
            Ok(entries) => Ok(entries),
            Err(AllocError) => Err((self, writer, readers)),
        }
    }

    /// The entries of the leaves, from node 0 along the right links.
    fn entries(&self, alloc: Global, writer: &mut Writer) -> Result<Vec<(Key, u64)>, AllocError>
        requires { writer.old.table ≡ self.now.table }
        ensures all { IfOk result (λ all. IsAllOf writer.old all.items) }
        ensures same { writer.new ≡ writer.old }
    {
        let shared = &self.memory.shared;
        leaf_entries(shared, &mut writer.hand, writer.nodes, alloc)
    }
}

/// The entries of the leaves, from node 0 along the right links.
fn leaf_entries(
    shared: &Words,
    me: &mut Hand,
    nodes: usize,
    alloc: Global,
) -> Result<Vec<(Key, u64)>, AllocError>
    requires { IsReady shared.now.table_id nodes me.old }
    ensures same { Stays me.old me.new }
    ensures all { IfOk result (λ all. HasAll all.items me.old.me.0) }
{
    let mut all = Vec::new(alloc);
    let mut node = 0;
    'chain: loop {
        let words = own_node(shared, me, node);
        push_entries(&mut all, &words)?;
        match right(&words) {
            Some(link) => node = link.node,
            None => return Ok(all),
        }
    }
}

/// Pushes the entries of a leaf.
fn push_entries(all: &mut Vec<(Key, u64)>, words: &[u64; 64]) -> Result<(), AllocError>
    requires { count_of words.now ≤ 16 }
    ensures { OnOk result
        (entries_of_keys all.new.items ≡ entries_of_keys all.old.items ++ entries_of words.now) }
{
    for place in 0..count(words) {
        let (number, value) = entry(words, place);
        all.push((Key { number }, value))?;
    }
    Ok(())
}
