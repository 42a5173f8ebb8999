//! What look-ups return.
use arrayvec::ArrayVec;
use key_space::Key;

/// What a look-up of a key found.
#[derive(Clone, Copy, Debug, PartialEq, Eq)]
pub struct Looked {
    /// The key that was looked up.
    pub key: Key,
    /// Its value. None: the key is absent.
    pub value: Option<u64>,
    /// How many of the writer's changes the reader surely knew.
    pub known: u64,
}

/// How a try to look up a key ends.
#[derive(Clone, Copy, Debug, PartialEq, Eq)]
pub enum Look {
    /// The key is there.
    Found(Looked),
    /// It is absent.
    Absent(Looked),
    /// The node was latched (then `first` is odd, and `second`
    /// the same), or its version changed from `first` to
    /// `second` while it was read.
    Again {
        /// The node.
        node: usize,
        /// The version loaded first.
        first: u64,
        /// The version loaded last.
        second: u64,
    },
}

/// All entries with keys from `from` to `upto`, both among them.
#[derive(Drop)]
pub struct Piece {
    /// The first key of the range that was asked for.
    pub from: Key,
    /// The last key of which the piece tells: at least `from`, and at most the last key of the range.
    pub upto: Key,
    /// The entries, by rising keys.
    pub entries: ArrayVec<(Key, u64), 16>,
    /// How many of the writer's changes the reader surely knew.
    pub known: u64,
}

/// How a try to read a piece of a range ends.
#[derive(Drop)]
pub enum Part {
    /// A piece that begins with the range.
    Chunk(Piece),
    /// As in [`Look`].
    Again {
        /// The node.
        node: usize,
        /// The version loaded first.
        first: u64,
        /// The version loaded last.
        second: u64,
    },
}
