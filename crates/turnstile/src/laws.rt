// What holds of the turns of a pass.
ghost use Rattle.std.specs.Prelude.{ℕ};
ghost use Rattle.turnstile.specs.Passes.{IsNew, IsPaced, OnePassMore, SameButSeen, TurnIsPaced};

use crate::pass::PassWith;

/// As long as each turn of a pass adds an entry, the pass has made at least as many entries as turns. So one
/// that has `n` turns left has made 2^56 - n entries or more.
///
/// The laws are stated for the passes `p`, `q` and `r`, as they are one after the other.
pub fn a_pass_counts_its_turns_by_entries<M, E>(
    p: &PassWith<M, E>,
    q: &PassWith<M, E>,
    r: &PassWith<M, E>,
)
    ensures new { (n count : ℕ) → IsNew p.now n count → IsPaced p.now }
    ensures turn { TurnIsPaced p.now q.now r.now }
    ensures met { SameButSeen p.now q.now → IsPaced p.now → IsPaced q.now }
    ensures made { OnePassMore p.now q.now → IsPaced p.now → IsPaced q.now }
{}
