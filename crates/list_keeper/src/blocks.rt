// The calls on transactions, each of which is told.
use crate::ListKeeper;
use call_log::Note;
use engine_txn::BlockCalls;
use plain_model::Stop;

impl BlockCalls for ListKeeper {
    fn begin(&mut self, age: Option<u64>) -> Result<u64, Stop> {
        let answer = self.state.begin();
        self.log = self.log.then(&Note::Begin(age, &answer));
        answer
    }

    fn commit(&mut self) -> Result<(), Stop> {
        let answer = self.state.commit();
        self.log = self.log.then(&Note::Commit(&answer));
        answer
    }

    fn undo(&mut self) -> Result<(), Stop> {
        if !self.state.running {
            return Ok(());
        }
        self.state.undo();
        let answer = Ok(());
        self.log = self.log.then(&Note::Undo(&answer));
        answer
    }

    /// A keeper in memory makes no checkpoint.
    fn checkpoint(&mut self) -> Result<u64, Stop> {
        let answer = self.state.refuse_checkpoint();
        self.log = self.log.then(&Note::Checkpoint(&answer));
        answer
    }
}
