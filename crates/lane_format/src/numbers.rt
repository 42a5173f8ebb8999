// The numbers of a lane file.

/// The byte that opens a gate.
pub const OPEN: u8 = 1;

/// The byte that shuts a gate.
pub const CLOSED: u8 = 0;

/// How many bytes the head of a file has: its gate, the generation and the lane.
pub const HEAD: usize = 11;

/// Where the gate of a lane with no batch lies, behind the file's gate, the generation and the lane.
pub const FIRST_GATE: u64 = 11;

/// How many bytes stand before a body: its gate and its length.
pub const BATCH_HEAD: u64 = 5;
