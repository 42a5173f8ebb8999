/// The settings of a database, which don't change once it is made.
#[derive(Clone, Copy, Debug, PartialEq, Eq)]
pub struct Settings {
    /// How many log lanes there are: 1 to 8.
    pub lanes: u16,
    /// At most so many pages, of all tables together: 1 to 65,536.
    pub pages: u32,
    /// At most so many nodes in the index of a table: 16 to 65,536.
    pub nodes: u32,
    /// At most so many bytes of log records of one transaction: 4,096 to 1,048,576.
    pub txn: u32,
    /// At most so many bytes in a file of a lane: 1,048,576 to 134,217,728, and at least
    /// `64 + 32 * (2 * txn + 64)`.
    pub segment: u32,
}

impl Settings {
    ghost use Rattle.std.specs.Prelude.{◌≡◌, ◌↔◌, ◌≤◌, ◌+◌, ◌*◌, ◌&&◌, nat_le, IsNone, IsTrue};
    ghost use Rattle.area_format.specs.AreaRead.{first_broken, settings_rules, within};
    ghost use Rattle.area_format.specs.Settings.{IsSettings};

    /// Each setting lies in its limits.
    pub fn check(&self) -> bool
        ensures { IsTrue result ↔ IsSettings self.now }
    {
        self.fault().is_none()
    }

    #[tactic(auto, using(crate::proofs::Rules::settings_kept, crate::proofs::Rules::settings_fine))]
    /// The place in an area at which the first setting stands that breaks its rule.
    pub(crate) fn fault(&self) -> Option<u64>
        ensures fault { result ≡ first_broken (settings_rules self.now) }
        ensures settings { IsNone result ↔ IsSettings self.now }
    {
        if !(1..=8).contains(&self.lanes) {
            return Some(11);
        }
        if !(1..=65_536).contains(&self.pages) {
            return Some(13);
        }
        if !(16..=65_536).contains(&self.nodes) {
            return Some(17);
        }
        if !(4_096..=1_048_576).contains(&self.txn) {
            return Some(21);
        }
        if !self.has_room() {
            return Some(25);
        }
        None
    }

    /// Whether the segment bytes lie in their limits, and in a segment is room for transactions of that size.
    fn has_room(&self) -> bool
        requires { self.now.txn ≤ 1048576 }
        ensures { result ≡ (within 1048576 134217728 self.now.segment
            && nat_le (64 + 32 * (2 * self.now.txn + 64)) self.now.segment) }
    {
        let least = 64 + 32 * (2 * self.txn + 64);
        (1_048_576..=134_217_728).contains(&self.segment) && least <= self.segment
    }
}
