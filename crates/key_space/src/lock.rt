// Locks, requests for them, and the answers.
ghost use Rattle.std.specs.Prelude.{◌≡◌, ◌<◌, ◌≤◌, ◌^◌, length, min, All};
ghost use Rattle.std.specs.List.{list_any};
ghost use Rattle.std.specs.Option.{option_map_or};
ghost use Rattle.key_space.specs.Locks.{IsOfKeys, covers_ask, in_the_way};
ghost use Rattle.key_space.specs.Locks.{least_owner, own_count, verdict_of};

use crate::Range;

/// What a lock holds: a range of keys of a table.
#[derive(Clone, Copy, Debug, Default, PartialEq, Eq)]
pub struct LockName {
    pub table: u16,
    pub range: Range,
}

/// Shared goes with Shared alone.
#[derive(Clone, Copy, Debug, PartialEq, Eq)]
pub enum Mode {
    Shared,
    Exclusive,
}

/// A lock that a session holds or asks for, with the age of its transaction: the lower the number, the older.
#[derive(Clone, Copy, Debug, PartialEq, Eq)]
pub struct Held {
    pub who: u16,
    pub age: u64,
    pub name: LockName,
    pub mode: Mode,
}

impl Held {
    ghost use Rattle.std.specs.Prelude.{◌≡◌};
    ghost use Rattle.key_space.specs.Locks.{IsOfKeys, conflicts, covers_ask};

    /// Whether its session has no need of a lock that it asks for: this one holds each key of it, in the
    /// same mode or Exclusive.
    pub fn covers(&self, ask: &Held) -> bool
        requires mine { IsOfKeys self.now }
        requires other { IsOfKeys ask.now }
        ensures { result ≡ covers_ask ask.now self.now }
    {
        self.who == ask.who
            && self.name.table == ask.name.table
            && self.name.range.contains(&ask.name.range)
            && (self.mode == Mode::Exclusive || ask.mode != Mode::Exclusive)
    }

    /// Whether it is in the way of a lock that another session asks for: the two share a key, and one is
    /// Exclusive.
    pub fn conflicts(&self, ask: &Held) -> bool
        requires mine { IsOfKeys self.now }
        requires other { IsOfKeys ask.now }
        ensures { result ≡ conflicts ask.now self.now }
    {
        self.who != ask.who
            && self.name.table == ask.name.table
            && self.name.range.overlaps(&ask.name.range)
            && (self.mode == Mode::Exclusive || ask.mode == Mode::Exclusive)
    }
}

/// The answer to a request for a lock.
#[derive(Clone, Copy, Debug, PartialEq, Eq)]
pub enum Verdict {
    /// The lock is held.
    Granted,
    /// A younger holder, or one of the same age, is in the way: ask again.
    Wait { holder: u16 },
    /// An older holder is in the way: undo, and begin again with the same age.
    Die { holder: u16 },
    /// The transaction holds as many locks as it may.
    Full { held: u32, limit: u32 },
}

/// The most locks that a transaction may hold.
pub const MAX_LOCKS: usize = 1024;

/// The answer to a request where these locks are held, by the first of these that applies: an own lock covers
/// it; a lock of an older transaction is in its way; a lock of
/// another is; the asker holds 1,024 locks; else it is granted.
pub fn answer_to(held: &[Held], ask: &Held) -> Verdict
    requires few { length held.now < 2 ^ 32 }
    requires ranges { All IsOfKeys held.now }
    requires range { IsOfKeys ask.now }
    ensures { result ≡ verdict_of held.now ask.now }
{
    if is_covered(held, ask) {
        return Verdict::Granted;
    }
    if let Some(holder) = least_owner(held, ask, true) {
        return Verdict::Die { holder };
    }
    if let Some(holder) = least_owner(held, ask, false) {
        return Verdict::Wait { holder };
    }
    let own = own_count(held, ask);
    if own < MAX_LOCKS {
        return Verdict::Granted;
    }
    Verdict::Full {
        held: own as u32,
        limit: MAX_LOCKS as u32,
    }
}

fn is_covered(held: &[Held], ask: &Held) -> bool
    requires ranges { All IsOfKeys held.now }
    requires range { IsOfKeys ask.now }
    ensures { result ≡ list_any (covers_ask ask.now) held.now }
{
    for h in held {
        if h.covers(ask) {
            return true;
        }
    }
    false
}

/// The least session number of the locks in the way, of those of older transactions alone or of all.
fn least_owner(held: &[Held], ask: &Held, older: bool) -> Option<u16>
    requires ranges { All IsOfKeys held.now }
    requires range { IsOfKeys ask.now }
    ensures { result ≡ least_owner (in_the_way older ask.now) held.now }
{
    let mut least = None;
    for h in held {
        if h.conflicts(ask) && (!older || h.age < ask.age) {
            least = Some(least_of(least, h.who));
        }
    }
    least
}

fn least_of(least: Option<u16>, who: u16) -> u16
    ensures { result ≡ option_map_or (λ other. min other who) least who }
{
    least.map_or(who, |other| other.min(who))
}

/// How many locks the asker holds.
fn own_count(held: &[Held], ask: &Held) -> usize
    ensures value { result ≡ own_count ask.now held.now }
    ensures bound { result ≤ length held.now }
{
    held.iter().filter(|h| h.who == ask.who).count()
}
