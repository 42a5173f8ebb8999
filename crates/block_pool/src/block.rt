// One block of a pool.
use crate::pool::BLOCK;
use std::marker::Model;

/// A block that a pool gave out, seen as its place in the pool. It belongs to that pool, and goes back to
/// it by `Pool::give`.
#[derive(Debug, Drop)]
pub struct Block {
    place: u32,
}

impl Model for Block {
    ghost use Rattle.std.specs.Prelude.{ℕ};

    ghost Value = { ℕ };

    ghost view = { λ b. b.place };
}

impl Block {
    ghost use Rattle.std.specs.Prelude.{◌≡◌, ◌<◌, ◌*◌, ◌^◌};

    pub(crate) fn at(place: u32) -> Block
        ensures { result ≡ place }
    {
        Block { place }
    }

    pub(crate) fn place(&self) -> usize
        ensures { result ≡ self.now }
    {
        self.place as usize
    }

    /// Where its bytes begin in the region.
    pub(crate) fn start(&self) -> usize
        ensures start { result ≡ 4096 * self.now }
        ensures low { result < 2 ^ 44 }
    {
        BLOCK * self.place as usize
    }
}
