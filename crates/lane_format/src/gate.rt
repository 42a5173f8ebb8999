ghost use Rattle.std.specs.Prelude.{◌≡◌, ◌+◌, ◌≤◌, ◌^◌, ◌<◌, ℕ, List, length, min, take};
ghost use Rattle.std.specs.Int.{w32, from_le_bytes, to_le_bytes};
ghost use Rattle.lane_format.specs.Batches.{stands};
ghost use Rattle.lane_format.specs.declared.gate.AtGate.TheVariants.{Body};

use crate::{BATCH_HEAD, OPEN};

/// What stands at a gate of a lane's file.
#[derive(Clone, Copy, Debug, PartialEq, Eq)]
pub enum AtGate {
    /// The gate isn't open, or the file ends before it.
    End,
    /// The gate is open, and a body of so many bytes stands five bytes behind it.
    Body { len: u32 },
    /// The gate is open, and no batch stands there: its length is 0, or it reaches past the file's end.
    Broken,
}

/// What stands at a gate from which on the file has `left` bytes. `front` is the first five of them, or all
/// where there are fewer.
pub fn at_gate(front: &[u8], left: u64) -> AtGate
    requires { length front.now ≡ min left 5 }
    ensures stands { (rest : List ℕ) → length rest ≡ left → front.now ≡ take 5 rest → stands rest result }
    ensures inside { (len : ℕ) → result ≡ Body len → (1 ≤ len) × (5 + len ≤ left) }
{
    if left == 0 || front[0] != OPEN {
        return AtGate::End;
    }
    if left < BATCH_HEAD {
        return AtGate::Broken;
    }
    let len = number_in(&front[1..5]);
    if len == 0 || left - BATCH_HEAD < u64::from(len) {
        return AtGate::Broken;
    }
    AtGate::Body { len }
}

/// The number that these four bytes stand for.
fn number_in(bytes: &[u8]) -> u32
    requires { length bytes.now ≡ 4 }
    ensures value { result ≡ from_le_bytes w32 bytes.now }
    ensures bytes { to_le_bytes w32 result ≡ bytes.now }
{
    u32::from_le_bytes([bytes[0], bytes[1], bytes[2], bytes[3]])
}
