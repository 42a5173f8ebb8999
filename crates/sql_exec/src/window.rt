// How wide the windows are in which a range is read from its upper end on, and what comes of one.
ghost use Rattle.std.specs.Prelude.{◌≡◌, ◌<◌, ◌≤◌, IfSome};
ghost use Rattle.key_space.specs.Ranges.{IsNotEmpty};

use key_space::{Key, Range};
use row_types::Row;
use std::collections::VecDeque;

/// How often a window is given up for its upper half. The keys of a table are 2^64 at most, so that so many
/// halvings lead from any window down to a single key.
const HALVINGS: u64 = 64;

/// How many keys the next window has.
#[derive(Clone, Copy)]
pub(crate) struct Width {
    keys: u128,
    /// Windows become narrower: the last rows of one that was given up are looked for.
    is_halving: bool,
    /// So often they still may.
    pub halvings: u64,
}

impl Width {
    /// As many keys as rows are wanted.
    pub(crate) fn of(wanted: u64) -> Width {
        Width {
            keys: u128::from(wanted),
            is_halving: false,
            halvings: HALVINGS,
        }
    }

    /// The window at the upper end of what is left of a range.
    pub(crate) fn window(self, rest: Range) -> Range
        requires { IsNotEmpty rest }
        ensures low { rest.lo.number ≤ result.lo.number }
        ensures some { IsNotEmpty result }
        ensures high { result.hi ≡ rest.hi }
    {
        let lo = rest.hi.number.saturating_sub(self.keys.saturating_sub(1));
        Range {
            lo: Key {
                number: lo.max(rest.lo.number),
            },
            hi: rest.hi,
        }
    }

    /// Half as many keys. `None`: that was done too often.
    pub(crate) fn narrower(self) -> Option<Width>
        ensures { IfSome result (λ next. next.halvings < self.halvings) }
    {
        if self.halvings == 0 {
            return None;
        }
        Some(Width {
            keys: (self.keys / 2).max(1),
            is_halving: true,
            halvings: self.halvings - 1,
        })
    }

    /// Behind a window that was read: twice as many keys, or half as many where they become narrower and no row
    /// that is looked for was in it.
    pub(crate) fn next(self, is_empty: bool) -> Width
        ensures { result.halvings ≤ self.halvings }
    {
        if self.is_halving && is_empty {
            if let Some(next) = self.narrower() {
                return next;
            }
        }
        Width {
            keys: self.keys.saturating_mul(2),
            is_halving: false,
            halvings: self.halvings,
        }
    }
}

/// What comes of a window.
#[derive(Drop)]
pub(crate) enum Window {
    /// What is shown of its last rows, the last one first.
    Whole(VecDeque<Row>),
    /// It has more than one piece, and the next one is so wide.
    GivenUp(Width),
}

/// A window that was read.
#[derive(Drop)]
pub(crate) struct Part {
    pub window: Range,
    /// What is shown of its last rows, the last one first.
    pub found: VecDeque<Row>,
    /// How wide the next one is.
    pub next: Width,
}
