// What a try of a block comes to.
use plain_model::Reply;

/// What a try of a block comes to.
#[derive(Drop)]
pub enum Tried {
    /// The replies to its statements and its end, in order.
    Said(Vec<Reply>),
    /// A device failed. Nothing is called from then on.
    Stopped,
    /// Memory ran out. The block is undone.
    OutOfMemory,
    /// A transaction of session `holder` is in the way, which is older. The block is undone, and is to be
    /// tried again with `age`.
    Died { holder: u16, age: u64 },
}
