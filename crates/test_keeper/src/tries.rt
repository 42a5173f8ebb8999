// Tries blocks over a keeper and over plain lists of rows, and prints what comes of them.
ghost use Rattle.std.specs.Prelude.{◌≡◌, false, IsTrue};
ghost use Rattle.plain_model.specs.Calls.{is_running};

use engine_txn::{BlockCalls, Tried, try_block};
use fake_keeper::{block, schema};
use io_edge::MemSink;
use list_keeper::ListKeeper;
use plain_model::{Reply, Tables, run_plain};
use reply_text::Printer;
use row_types::{Block, TryCopy};
use std::alloc::Global;
use std::test::Fail;

/// The replies to a block as they are printed.
fn printed(alloc: Global, replies: &[Reply]) -> Result<String, Fail> {
    let room = Vec::with_capacity(alloc, 200_000)?;
    let mut sink = MemSink::with_room(room, Vec::new(alloc));
    let mut printer = Printer::new();
    for reply in replies {
        printer.reply(&mut sink, reply);
    }
    printer.finish(&mut sink)?;
    let text = str::from_utf8(sink.bytes()).unwrap_or("no text");
    Ok(String::from_str(alloc, text)?)
}

/// Undoes the transaction, where one runs, and returns whether none does then.
pub fn is_idle(keeper: &mut ListKeeper) -> bool
    ensures defs { keeper.new.defs ≡ keeper.old.defs }
    ensures idle { IsTrue result → is_running keeper.new.calls ≡ false }
{
    keeper.undo().is_ok()
}

/// What a keeper gives to a block, as text.
pub fn tried(alloc: Global, keeper: &mut ListKeeper, block: &Block) -> Result<String, Fail> {
    if !is_idle(keeper) {
        return Err(Fail::from("a transaction runs"));
    }
    match try_block(alloc, keeper, block, None) {
        Tried::Said(replies) => printed(alloc, replies.as_slice()),
        Tried::Stopped | Tried::Died { .. } => Err(Fail::from("a block was stopped")),
        Tried::OutOfMemory => Err(Fail::from("memory ran out")),
    }
}

/// What the plain model gives to a block, as text, and the tables after it.
fn meant(alloc: Global, tables: &Tables, block: &Block) -> Result<(String, Tables), Fail> {
    let (replies, after) = run_plain(alloc, tables, block)?;
    Ok((printed(alloc, replies.as_slice())?, after))
}

/// A keeper without rows and plain lists of rows, of the same tables.
#[derive(Drop)]
pub struct Pair {
    keeper: ListKeeper,
    tables: Tables,
}

impl Pair {
    pub fn new(alloc: Global, creates: &str) -> Result<Pair, Fail> {
        let schema = schema(alloc, creates)?;
        let tables = Tables::new(alloc, schema.copy()?)?;
        let keeper = ListKeeper::new(alloc, schema)?;
        Ok(Pair { keeper, tables })
    }

    /// Tries a block over both, and what is wrong, as text.
    pub fn fault_of(&mut self, alloc: Global, texts: &str) -> Result<Option<String>, Fail> {
        let block = block(alloc, texts)?;
        let found = tried(alloc, &mut self.keeper, &block)?;
        let (wants, after) = meant(alloc, &self.tables, &block)?;
        self.tables = after;
        if found == wants {
            return Ok(None);
        }
        Ok(Some(format!(in alloc; "{texts}: {found}, wanted {wants}")?))
    }
}
