// The rows of a table by their keys.
ghost use Rattle.std.specs.Prelude.{◌≡◌, ◌==◌, ◌≤◌, ◌⊎◌, ◌&&◌, ℕ, if◌then◌else◌, Some, None, is_some, is_none};
ghost use Rattle.std.specs.Prelude.{IfOk, OnOk, OnErr, IsSome, length};
ghost use Rattle.std.specs.List.Sorted.{IsStrictlySortedBy};
ghost use Rattle.std.specs.Map.{keys_of};
ghost use Rattle.std.specs.Ordering.{nat_cmp};
ghost use Rattle.key_space.specs.Ranges.{IsNotEmpty};
ghost use Rattle.row_lists.specs.Held.{at_key, entries_between, most_rows, row_of, rows_of, stood};

use crate::OutOfMemory;
use key_space::{Key, Range};
use row_types::{Items, Row, TryCopy};
use std::alloc::Global;
use std::collections::BTreeMap;
use std::marker::Model;
use std::mem::replace;

/// The rows of a table in the order of their keys. A key may be there without a row: what was taken away can
/// so be put back without memory.
#[derive(Drop)]
pub struct RowList {
    rows: BTreeMap<u128, Option<Row>>,
}

impl Model for RowList {
    ghost use Rattle.row_lists.specs.Held.{Entries};

    ghost Value = { Entries };

    ghost view = { λ l. l.rows.entries };
}

/// What stood at a key before a change.
#[derive(Drop)]
pub enum Before {
    /// The key wasn't there.
    NoKey,
    /// The key was there, with this row or without one.
    Had(Option<Row>),
}

/// Copies of the rows of a range of keys from its beginning up to `upto`, in the order of their keys.
#[derive(Drop)]
pub struct Piece {
    pub upto: Key,
    pub rows: Items<Row>,
}

/// The most rows of a piece.
const MOST_ROWS: usize = 256;

impl RowList {
    ghost use Rattle.key_space.specs.Ranges.{IsNotEmpty};
    ghost use Rattle.row_lists.specs.Held.{at_key, entries_between, most_rows, row_of, rows_of, stood};

    /// No keys.
    pub fn new(alloc: Global) -> RowList
        ensures { (key : ℕ) → at_key result key ≡ None }
    {
        RowList {
            rows: BTreeMap::new(alloc),
        }
    }

    /// A copy of the row of a key. `None`: the key has no row. `OutOfMemory`: there is none for the copy.
    pub fn get(&self, key: Key) -> Result<Option<Row>, OutOfMemory>
        ensures { IfOk result (λ found. found ≡ row_of self.now key.number) }
    {
        match self.rows.get(&key.number) {
            Some(Some(row)) => {
                let copy = row.copy()?;
                Ok(Some(copy))
            }
            Some(None) => Ok(None),
            None => Ok(None),
        }
    }

    /// Whether there is a row of a key.
    pub fn has(&self, key: Key) -> bool
        ensures { result ≡ is_some (row_of self.now key.number) }
    {
        match self.rows.get(&key.number) {
            Some(row) => row.is_some(),
            None => false,
        }
    }

    /// The first rows of a range of keys: 256, where it has so many, and else all, up to its end. Only keys
    /// up to the piece's last are visited. `OutOfMemory`: there is none for the copies.
    pub fn rows_between(&self, alloc: Global, range: Range) -> Result<Piece, OutOfMemory>
        requires { IsNotEmpty range }
        ensures low { IfOk result (λ piece. range.lo.number ≤ piece.upto.number) }
        ensures high { IfOk result (λ piece. piece.upto.number ≤ range.hi.number) }
        ensures rows { IfOk result (λ piece. piece.rows
            ≡ rows_of (entries_between self.now range.lo.number piece.upto.number)) }
        ensures few { IfOk result (λ piece. length piece.rows ≤ most_rows) }
        ensures full { IfOk result (λ piece. (piece.upto ≡ range.hi) ⊎ (length piece.rows ≡ most_rows)) }
        ensures rising { IsStrictlySortedBy nat_cmp (keys_of self.now) }
    {
        let mut rows = Vec::new(alloc);
        for (key, row) in self.rows.range(range.lo.number..=range.hi.number) {
            if let Some(row) = row {
                rows.push(row.copy()?)?;
                if rows.len() == MOST_ROWS {
                    return Ok(Piece {
                        upto: Key { number: *key },
                        rows: Items::from_vec(rows),
                    });
                }
            }
        }
        Ok(Piece {
            upto: range.hi,
            rows: Items::from_vec(rows),
        })
    }

    /// Sets the row of a key, and says what stood there. `OutOfMemory`: there is none for a new key, and all
    /// stays as it was.
    pub fn put(&mut self, key: Key, row: Row) -> Result<Before, OutOfMemory>
        ensures before { IfOk result (λ before. stood before ≡ at_key self.old key.number) }
        ensures put { OnOk result ((k : ℕ) → at_key self.new k
            ≡ (if key.number == k then Some (Some row) else at_key self.old k)) }
        ensures err { OnErr result (self.new ≡ self.old) }
    {
        match self.rows.insert(key.number, Some(row)) {
            Ok(Some(had)) => Ok(Before::Had(had)),
            Ok(None) => Ok(Before::NoKey),
            Err(_) => Err(OutOfMemory),
        }
    }

    /// Takes the row of a key away, which leaves the key, and says what stood there.
    pub fn take(&mut self, key: Key) -> Before
        ensures before { stood result ≡ at_key self.old key.number }
        ensures taken { (k : ℕ) → at_key self.new k
            ≡ (if (key.number == k) && is_some (at_key self.old k) then Some None else at_key self.old k) }
    {
        match self.rows.get_mut(&key.number) {
            Some(held) => Before::Had(replace(held, None)),
            None => Before::NoKey,
        }
    }

    /// Takes a key away, with what stands there.
    pub fn remove(&mut self, key: Key)
        ensures { (k : ℕ) → at_key self.new k ≡ (if key.number == k then None else at_key self.old k) }
    {
        self.rows.remove(&key.number);
    }

    /// Puts back what stood at a key that is there.
    pub fn restore(&mut self, key: Key, before: Before)
        requires { IsSome (at_key self.old key.number) }
        ensures { (k : ℕ) → at_key self.new k
            ≡ (if key.number == k then stood before else at_key self.old k) }
    {
        match before {
            Before::NoKey => self.remove(key),
            Before::Had(row) => {
                if let Some(held) = self.rows.get_mut(&key.number) {
                    *held = row;
                }
            }
        }
    }

    /// Takes a key away that has no row.
    pub fn forget(&mut self, key: Key)
        ensures { (k : ℕ) → row_of self.new k ≡ row_of self.old k }
    {
        if !self.has(key) {
            self.remove(key);
        }
    }
}
