// A reader beside a writer that has latched a node, or has split one and not yet told the level above. A call
// of `olfit_tree` ends with all nodes unlatched and in their places, so the writer is made here from the layers
// below it; the look-ups are those that a `Reader` makes.
ghost use Rattle.std.specs.Prelude.{◌≡◌, ◌<◌, ◌≤◌, [], IfOk, length};
ghost use Rattle.olfit_change.specs.States.{IsReady, IsBetweenCalls};
ghost use Rattle.olfit_walk.specs.Looks.{CanLook};

use atomic_table::Play;
use base_types::OutOfMemory;
use key_space::{Key, Range};
use olfit_change::{link_above, nodes_needed, put, put_leaf, value_of};
use olfit_nodes::Link;
use olfit_rule::{Hand, Memory, View, Words, meet, opened, own_node, reader};
use olfit_walk::{Look, Looked, Part, try_chunk, try_get};
use std::alloc::Global;

/// The nodes of the index.
const NODES: usize = 8;

/// An index with no key, and its writer.
fn open(alloc: Global) -> Result<(Memory, Hand), OutOfMemory>
    ensures works { IfOk result (λ made. IsBetweenCalls made.0.shared.table_id 8 1 made.1) }
    ensures none { IfOk result (λ made. made.1.me.0.seen.log ≡ []) }
{
    let words = vec![in alloc; 0u64; NODES * 64 + 1]?;
    let (memory, writer) = opened(alloc, &words)?;
    Ok((memory, writer))
}

/// Adds the keys from 1 to `keys`, each with ten times itself, and returns how many there was room for. Nodes
/// from `used` on are free.
fn fill(shared: &Words, me: &mut Hand, used: &mut usize, keys: u64) -> u64
    requires works { IsBetweenCalls shared.now.table_id 8 used.old me.old }
    requires none { me.old.me.0.seen.log ≡ [] }
    ensures works { IsBetweenCalls shared.now.table_id 8 used.new me.new }
    ensures count { (length me.new.me.0.seen.log ≡ result) × (result ≤ 1_000) }
{
    for done in 0..keys.min(1_000) {
        let number = u128::from(done + 1);
        if value_of(shared, me, NODES, number).is_some()
            || nodes_needed(shared, me, NODES, number) > NODES - *used
        {
            return done;
        }
        put(shared, me, NODES, used, number, (done + 1) * 10);
    }
    keys.min(1_000)
}

/// The writer stores a word of a node that is latched then.
struct Latching;

impl Play<u64, View> for Latching {
    ghost use Rattle.olfit_rule.specs.Rule.{wrote};

    ghost then = { wrote };
}

/// Latches a node, and returns its version.
fn latch(shared: &Words, me: &mut Hand, node: usize) -> u64
    requires ready { IsReady shared.now.table_id 8 me.old }
    requires node { node < 8 }
{
    let version = own_node(shared, me, node)[0] + 1;
    shared.store::<Latching>(me, node * 64, version);
    version
}

/// An index with the keys from 1 to `keys`, of which node `node` is latched, with the odd version `version`:
/// the leaf of the keys from `from` to `upto`, or a root above them.
#[derive(Clone, Copy, Debug)]
struct Case {
    keys: u64,
    node: usize,
    version: u64,
    from: u64,
    upto: u64,
}

impl Case {
    fn is_latched(&self, number: u64) -> bool {
        self.from <= number && number <= self.upto
    }

    /// Whether a look-up answers as it has to.
    fn is_look(&self, number: u64, look: Look) -> bool {
        let key = Key {
            number: u128::from(number),
        };
        let wanted = if self.is_latched(number) {
            Look::Again {
                node: self.node,
                first: self.version,
                second: self.version,
            }
        } else {
            Look::Found(Looked {
                key,
                value: Some(number.saturating_mul(10)),
                known: self.keys,
            })
        };
        look == wanted
    }

    /// Whether the piece of one key does.
    fn is_part(&self, number: u64, part: Part) -> bool {
        match part {
            Part::Chunk(piece) => {
                !self.is_latched(number)
                    && piece.entries.len() == 1
                    && piece.entries[0].1 == number.saturating_mul(10)
            }
            Part::Again {
                node,
                first,
                second,
            } => {
                self.is_latched(number)
                    && node == self.node
                    && first == self.version
                    && second == self.version
            }
        }
    }

    /// Whether all look-ups of a reader do.
    fn all_do(&self, shared: &Words, me: &mut Hand) -> bool
        requires seat { CanLook shared.now.table_id 8 me.old }
        requires known { self.now.keys ≡ length me.old.me.0.told }
        ensures seat { CanLook shared.now.table_id 8 me.new }
        ensures known { self.now.keys ≡ length me.new.me.0.told }
    {
        for below in 0..self.keys {
            let number = below + 1;
            let key = Key {
                number: u128::from(number),
            };
            let look = try_get(shared, me, NODES, key, self.keys);
            let range = Range { lo: key, hi: key };
            let part = try_chunk(shared, me, NODES, range, self.keys);
            if !self.is_look(number, look) || !self.is_part(number, part) {
                return false;
            }
        }
        true
    }
}

/// Whether a reader answers as it has to while the writer's node is latched.
fn answers(alloc: Global, case: Case) -> Result<bool, OutOfMemory> {
    let (memory, mut writer) = open(alloc)?;
    let shared = &memory.shared;
    let mut used = 1;
    if fill(shared, &mut writer, &mut used, case.keys) != case.keys || case.node >= NODES {
        return Ok(false);
    }
    let mut reading = reader(shared, &mut writer);
    meet(shared, &mut writer, &mut reading);
    let version = latch(shared, &mut writer, case.node);
    Ok(version == case.version && case.all_do(shared, &mut reading))
}

/// A version is twice the number of changes of its node, which is changed for each entry that is put in, where
/// it is made and where it is cut; and one more while the node is latched.
#[test]
fn a_reader_answers_while_a_node_is_latched(rt: HostRuntime) {
    for (keys, node, version, from, upto) in [
        (1, 0, 3, 1, 1),
        (17, 0, 35, 1, 8),
        (17, 1, 3, 9, 17),
        (17, 2, 3, 1, 17),
        (25, 0, 35, 1, 8),
        (25, 1, 19, 9, 16),
        (25, 3, 3, 17, 25),
        (25, 2, 5, 1, 25),
        (25, 4, 1, 0, 0),
    ] {
        let case = Case {
            keys,
            node,
            version,
            from,
            upto,
        };
        let answers = answers(rt.alloc(), case);
        assert!(rt; answers == Ok(true), "{case:?}");
    }
}

/// Whether a reader finds all keys while the leaf of the next one is split, no node above it is told of the new
/// leaf, and only the link of the old one leads to it; and again once the level above is told.
fn finds_by_the_link(alloc: Global, keys: u64, wanted: Link) -> Result<bool, OutOfMemory> {
    let (memory, mut writer) = open(alloc)?;
    let shared = &memory.shared;
    let mut used = 1;
    if fill(shared, &mut writer, &mut used, keys) != keys {
        return Ok(false);
    }
    let mut reading = reader(shared, &mut writer);
    meet(shared, &mut writer, &mut reading);
    let key = Key {
        number: u128::from(keys + 1),
    };
    if value_of(shared, &mut writer, NODES, key.number).is_some()
        || nodes_needed(shared, &mut writer, NODES, key.number) > NODES - used
    {
        return Ok(false);
    }
    let all = Case {
        keys,
        node: 0,
        version: 0,
        from: 0,
        upto: 0,
    };
    let added = Look::Found(Looked {
        key,
        value: Some((keys + 1) * 10),
        known: keys,
    });
    match put_leaf(
        shared,
        &mut writer,
        NODES,
        &mut used,
        key.number,
        (keys + 1) * 10,
    ) {
        Some(link) => {
            let found = all.all_do(shared, &mut reading);
            let look = try_get(shared, &mut reading, NODES, key, keys);
            link_above(shared, &mut writer, NODES, &mut used, key.number, link);
            let again = all.all_do(shared, &mut reading);
            Ok(link == wanted && found && look == added && again)
        }
        None => Ok(false),
    }
}

/// The 17th key splits the leaf that is the root, and the 25th a leaf below a root.
#[test]
fn a_reader_finds_a_key_by_the_link_before_the_level_above_is_told(rt: HostRuntime) {
    for (keys, key, node) in [(16, 9, 1), (24, 17, 3)] {
        let found = finds_by_the_link(rt.alloc(), keys, Link { key, node });
        assert!(rt; found == Ok(true), "{keys}");
    }
}
