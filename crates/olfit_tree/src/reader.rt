//! Look-ups that take no latch.
ghost use Rattle.std.specs.Prelude.{◌≡◌, length};

use crate::index::Index;
use key_space::{Key, Range};
use olfit_rule::Hand;
use olfit_walk::{Look, Looked, Part, Piece};
use std::marker::Model;
use std::sync::Wait;

/// A reader of an index, seen as the changes that it has seen and those of which it was told.
#[derive(Drop)]
pub struct Reader {
    pub(crate) hand: Hand,
    pub(crate) known: u64,
}

impl Model for Reader {
    ghost use Rattle.std.specs.Prelude.{◌≡◌, ◌+◌, ◌*◌, ◌^◌, ◌<◌, false, length};
    ghost use Rattle.olfit_walk.specs.Looks.{Reading, reading_of};

    ghost Value = { Reading };

    ghost view = { λ r. reading_of r.hand };

    ghost invariant = { λ r. record {
      reads : r.hand.me.0.writes ≡ false;
      sized : r.hand.table_id.words ≡ length r.hand.me.0.seen.image * 64 + 1;
      counted : r.known ≡ length r.hand.me.0.told;
    } };
}

impl Reader {
    ghost use Rattle.key_space.specs.Ranges.{IsNotEmpty};
    ghost use Rattle.olfit_walk.specs.Looks.{HasSeen, IsPiece, IsTrueOf, Tells, TellsPart};

    /// Looks the key up once. It returns whatever the writer does, takes no memory, and makes loads alone.
    pub fn try_get(&mut self, index: &Index, key: Key) -> Look
        requires { self.old.table ≡ index.now.table }
        ensures answer { Tells key.number result self.new }
        ensures seen { HasSeen self.old self.new }
    {
        let shared = &index.memory.shared;
        olfit_walk::try_get(shared, &mut self.hand, index.nodes, key, self.known)
    }

    /// Reads the first piece of a range once: its entries up to its last key or to the end of a leaf,
    /// whichever comes first. It returns whatever the writer does, takes no memory, and makes loads alone.
    pub fn try_chunk(&mut self, index: &Index, range: Range) -> Part
        requires index { self.old.table ≡ index.now.table }
        requires range { IsNotEmpty range }
        ensures answer { TellsPart range result self.new }
        ensures seen { HasSeen self.old self.new }
    {
        let shared = &index.memory.shared;
        olfit_walk::try_chunk(shared, &mut self.hand, index.nodes, range, self.known)
    }

    /// Looks the key up until no try is to be made again.
    pub fn get<R: Wait>(&mut self, rt: &R, index: &Index, key: Key) -> Looked
        requires { self.old.table ≡ index.now.table }
        ensures key { (result.key.number ≡ key.number) × (result.known ≡ length self.old.told) }
        ensures value { IsTrueOf self.new key.number result.value }
        ensures seen { HasSeen self.old self.new }
    {
        for _ in rt.forever() {
            match self.try_get(index, key) {
                Look::Found(looked) | Look::Absent(looked) => return looked,
                Look::Again { .. } => {}
            }
        }
        unreachable!()
    }

    /// Reads the first piece of a range until no try is to be made again.
    pub fn chunk<R: Wait>(&mut self, rt: &R, index: &Index, range: Range) -> Piece
        requires index { self.old.table ≡ index.now.table }
        requires range { IsNotEmpty range }
        ensures piece { IsPiece range result self.new }
        ensures seen { HasSeen self.old self.new }
    {
        for _ in rt.forever() {
            match self.try_chunk(index, range) {
                Part::Chunk(piece) => return piece,
                Part::Again { .. } => {}
            }
        }
        unreachable!()
    }
}
