// Neighbouring blocks of a pool.
use crate::pool::BLOCK;
use std::marker::Model;

/// Neighbouring blocks that a pool gave out together, seen as their places in the pool. A run belongs to that
/// pool for good: it isn't given back.
#[derive(Debug, Drop)]
pub struct Run {
    first: u32,
    count: u32,
}

impl Model for Run {
    ghost use Rattle.block_pool.specs.Runs.{Places};

    ghost Value = { Places };

    ghost view = { λ r. record { first = r.first; count = r.count } };
}

impl Run {
    ghost use Rattle.std.specs.Prelude.{◌≡◌, ◌<◌, ◌≤◌, ◌*◌, ◌^◌};

    pub(crate) fn at(first: u32, count: u32) -> Run
        ensures { result ≡ record { first = first; count = count } }
    {
        Run { first, count }
    }

    /// Where its bytes begin in the region.
    pub(crate) fn start(&self) -> usize
        ensures start { result ≡ 4096 * self.now.first }
        ensures low { result < 2 ^ 44 }
    {
        BLOCK * self.first as usize
    }

    /// How many bytes it has.
    pub fn len(&self) -> usize
        ensures len { result ≡ 4096 * self.now.count }
        ensures low { result < 2 ^ 44 }
    {
        BLOCK * self.count as usize
    }
}
