// Ranges of keys.
ghost use Rattle.std.specs.Prelude.{◌≡◌, ◌↔◌, ◌≤◌, ◌<◌, ℕ, IsTrue, IfSome, None};
ghost use Rattle.key_space.specs.Ranges.{IsIn, behind, shares, covers};

use crate::Key;

/// The keys from `lo` to `hi`, both among them. It is empty where `lo` is above `hi`.
#[derive(Clone, Copy, Debug, Default, PartialEq, Eq)]
pub struct Range {
    pub lo: Key,
    pub hi: Key,
}

impl Range {
    ghost use Rattle.key_space.specs.Ranges.{IsIn, IsNotEmpty, behind, shares, covers};

    /// Whether a key lies in both.
    pub fn overlaps(&self, o: &Range) -> bool
        requires mine { IsNotEmpty self.now }
        requires other { IsNotEmpty o.now }
        ensures meaning { IsTrue result ↔ ((k : ℕ) × IsIn self.now k × IsIn o.now k) }
        ensures test { result ≡ shares self.now o.now }
    {
        self.lo <= o.hi && o.lo <= self.hi
    }

    /// Whether each key of the other lies in it.
    pub fn contains(&self, o: &Range) -> bool
        requires mine { IsNotEmpty self.now }
        requires other { IsNotEmpty o.now }
        ensures meaning { IsTrue result ↔ ((k : ℕ) → IsIn o.now k → IsIn self.now k) }
        ensures test { result ≡ covers self.now o.now }
    {
        self.lo <= o.lo && o.hi <= self.hi
    }

    /// The keys of the range above one of them. `None`: it is the last.
    pub fn behind(self, key: Key) -> Option<Range>
        requires { IsIn self key.number }
        ensures value { result ≡ behind self key.number }
        ensures keys { IfSome result
            (λ rest. (k : ℕ) → IsIn rest k ↔ (IsIn self k × (key.number < k))) }
        ensures none { result ≡ None → key.number ≡ self.hi.number }
    {
        if key >= self.hi {
            return None;
        }
        Some(Range {
            lo: Key {
                number: key.number + 1,
            },
            hi: self.hi,
        })
    }
}
