// What a block is answered.
use plain_model::Reply;
use row_types::Items;

/// What a block is answered at the end, by an engine that tries it as often as it takes.
#[derive(Debug, Drop)]
pub enum Answer {
    /// The replies to its statements and its end, in order. What it committed is on the disk.
    Said(Items<Reply>),
    /// The disk failed. What the log file holds has to be read anew.
    Stopped,
    /// Memory ran out. The block has done nothing.
    OutOfMemory,
}
