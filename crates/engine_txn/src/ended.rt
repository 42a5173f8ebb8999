// How a transaction was ended.
ghost use Rattle.std.specs.Prelude.{◌≡◌};

use plain_model::{Refusal, Reply};

/// How a transaction was ended, by COMMIT or by an undo.
#[derive(Drop)]
pub(crate) enum Ended {
    Done,
    /// As many turns as there may be were made, so it is undone.
    Spent { limit: u64 },
}

impl Ended {
    ghost use Rattle.engine_txn.specs.Steps.{reply_at};

    /// The reply to a block's end, `done` where that was done.
    pub(crate) fn reply(self, done: Reply) -> Reply
        ensures { result ≡ reply_at self done }
    {
        match self {
            Ended::Done => done,
            Ended::Spent { limit } => Reply::Refused(Refusal::Spent { limit }),
        }
    }
}
