ghost use Rattle.std.specs.Prelude.{◌≡◌, ◌↔◌, ◌≤◌, ℕ, List, length, take, IsTrue};
ghost use Rattle.lane_format.specs.LaneRead.{IsOfFile, head_reads};
ghost use Rattle.lane_format.specs.declared.head.Head.TheVariants.{Open};

use crate::{HEAD, OPEN};

/// What the head of a lane's file says.
#[derive(Clone, Copy, Debug, PartialEq, Eq)]
pub enum Head {
    /// The file's gate isn't open.
    NotOpen,
    /// The file is open and of this lane, and has this generation.
    Open { generation: u64 },
    /// The file is open, and at this place its head isn't that of this lane's file: 0 where it is shorter
    /// than a head, 1 where the generation is 0 or one of the other file, 9 where it is another lane.
    Damaged { at: u64 },
}

/// What the head says of a file of a lane, that of odd generations or that of even ones. `front` is the
/// file's first 11 bytes, or all of a file that is shorter.
pub fn read_head(front: &[u8], odd: bool, lane: u16) -> Head
    ensures head { (bytes : List ℕ) → front.now ≡ take 11 bytes → head_reads odd lane bytes result }
    ensures long { (generation : ℕ) → result ≡ Open generation → 11 ≤ length front.now }
{
    if front.is_empty() || front[0] != OPEN {
        return Head::NotOpen;
    }
    if front.len() < HEAD {
        return Head::Damaged { at: 0 };
    }
    let mut generation = [0; 8];
    generation.copy_from_slice(&front[1..9]);
    let generation = u64::from_le_bytes(generation);
    if !is_of_file(odd, generation) {
        return Head::Damaged { at: 1 };
    }
    let mut number = [0; 2];
    number.copy_from_slice(&front[9..11]);
    if u16::from_le_bytes(number) != lane {
        return Head::Damaged { at: 9 };
    }
    Head::Open { generation }
}

fn is_of_file(odd: bool, generation: u64) -> bool
    ensures { IsTrue result ↔ IsOfFile odd generation }
{
    generation > 0 && (generation % 2 == 1) == odd
}
