ghost use Rattle.std.specs.Prelude.{◌≡◌};

use crate::trees::{key, put, take};
use olfit_tree::{Index, Look, Reader, Writer};
use std::thread;

/// How many keys are added, and then dropped.
const KEYS: u64 = 10_000;

/// How many keys are there all the while, between those that come and go.
const KEPT: u64 = 250;

/// The key of the add with this number.
fn added_key(c: u64) -> u64 {
    c % KEYS * 7_919 % 10_007 * 2
}

/// The key with this number that is there all the while.
fn kept_key(n: u64) -> u64 {
    n % KEPT * 80 + 1
}

/// Adds the keys that stay, each with its number, and answers how many were added.
fn keep_all(index: &Index, writer: &mut Writer) -> u64
    requires { writer.old.table ≡ index.now.table }
    ensures { writer.new.table ≡ index.now.table }
{
    let mut done = 0u64;
    for n in 0..KEPT {
        if put(index, writer, kept_key(n), n) {
            done = done.saturating_add(1);
        }
    }
    done
}

/// Adds each key, and answers how many were added.
fn add_all(index: &Index, writer: &mut Writer) -> u64
    requires { writer.old.table ≡ index.now.table }
    ensures { writer.new.table ≡ index.now.table }
{
    let mut done = 0u64;
    for c in 0..KEYS {
        if put(index, writer, added_key(c), c) {
            done = done.saturating_add(1);
        }
    }
    done
}

/// Drops each key, and answers how many had their values.
fn drop_all(index: &Index, writer: &mut Writer) -> u64
    requires { writer.old.table ≡ index.now.table }
    ensures { writer.new.table ≡ index.now.table }
{
    let mut done = 0u64;
    for c in 0..KEYS {
        if take(index, writer, added_key(c)) == Some(c) {
            done = done.saturating_add(1);
        }
    }
    done
}

/// Makes 20,000 changes: change c adds the c-th key, and change 10,000 + c drops it.
fn change_all(index: &Index, mut writer: Writer) -> (Writer, u64)
    requires { writer.table ≡ index.now.table }
    ensures { result.0.table ≡ index.now.table }
{
    let added = add_all(index, &mut writer);
    let dropped = drop_all(index, &mut writer);
    (writer, added.saturating_add(dropped))
}

/// What the answers of a reader were.
#[derive(Clone, Copy, Debug, Default, PartialEq, Eq)]
struct Tally {
    found: u64,
    absent: u64,
    again: u64,
    /// Of keys that are there all the while: found.
    kept: u64,
    wrong: u64,
    /// How many of the first changes the answers so far show to be made.
    seen: u64,
}

impl Tally {
    /// Counts an answer on the key of change `c`.
    fn count(&mut self, c: u64, look: Look) {
        match look {
            Look::Found(looked) => {
                self.found = self.found.saturating_add(1);
                if looked.value != Some(c) || self.seen > c.saturating_add(KEYS) {
                    self.wrong = self.wrong.saturating_add(1);
                }
                self.seen = self.seen.max(c.saturating_add(1));
            }
            Look::Absent(looked) => {
                self.absent = self.absent.saturating_add(1);
                if looked.value.is_some() {
                    self.wrong = self.wrong.saturating_add(1);
                }
                if self.seen > c {
                    self.seen = self.seen.max(c.saturating_add(KEYS).saturating_add(1));
                }
            }
            Look::Again {
                node,
                first,
                second,
            } => {
                self.again = self.again.saturating_add(1);
                if node >= 4096 || (first % 2 == 0 && first == second) {
                    self.wrong = self.wrong.saturating_add(1);
                }
            }
        }
    }
}

impl Tally {
    /// Counts an answer on the key that stays with this number.
    fn count_kept(&mut self, n: u64, look: Look) {
        match look {
            Look::Found(looked) => {
                self.kept = self.kept.saturating_add(1);
                if looked.value != Some(n) {
                    self.wrong = self.wrong.saturating_add(1);
                }
            }
            Look::Absent(_) => self.wrong = self.wrong.saturating_add(1),
            Look::Again { .. } => self.again = self.again.saturating_add(1),
        }
    }
}

/// Looks keys up 20,000 times, and as often one that is there all the while, and answers what came.
fn look_all(index: &Index, mut reader: Reader) -> Tally
    requires { reader.table ≡ index.now.table }
{
    let mut tally = Tally::default();
    for n in 0..20_000u64 {
        let c = n * 31 % KEYS;
        tally.count(c, reader.try_get(index, key(u128::from(added_key(c)))));
        let kept = reader.try_get(index, key(u128::from(kept_key(n))));
        tally.count_kept(n % KEPT, kept);
    }
    tally
}

#[test]
fn readers_beside_the_writer(rt: HostRuntime) {
    let alloc = rt.alloc();
    let Ok((index, mut writer)) = Index::empty(alloc, 0, 4096) else {
        panic!(rt; "memory");
    };
    let kept = keep_all(&index, &mut writer);
    let Ok(one) = writer.reader(&index) else {
        panic!(rt; "memory");
    };
    let Ok(two) = writer.reader(&index) else {
        panic!(rt; "memory");
    };
    let ((writer, done), (a, b)) = thread::join(
        &rt,
        || change_all(&index, writer),
        ||
            requires { (one.table ≡ index.table) × (two.table ≡ index.table) }
        { thread::join(&rt, || look_all(&index, one), || look_all(&index, two)) },
    );
    assert!(rt; kept == KEPT && done == 2 * KEYS && a.wrong == 0 && b.wrong == 0);
    assert!(rt; a.kept > 0 && b.kept > 0);
    let Ok(all) = index.finish(alloc, writer, Vec::new(alloc)) else {
        panic!(rt; "memory");
    };
    assert!(rt; all.len() as u64 == KEPT);
}
