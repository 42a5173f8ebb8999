// A try of a block: a statement that stands alone, or BEGIN and what follows it.
ghost use Rattle.std.specs.Prelude.{◌≡◌, ◌+◌, ◌-◌, ◌≤◌, ◌∷◌, ◌++◌, [], drop, false, length, IfErr, IfOk};
ghost use Rattle.std.specs.Prelude.{IsTrue};
ghost use Rattle.std.specs.Prelude.{vec_capacity, vec_len};
ghost use Rattle.std.specs.List.{AllByRecursion};
ghost use Rattle.row_types.specs.Block.{Placed};
ghost use Rattle.row_types.specs.declared.block.Block.TheVariants.{Alone, Transaction as Behind};
ghost use Rattle.plain_model.specs.Blocks.{without_block};
ghost use Rattle.plain_model.specs.Calls.{is_running};
ghost use Rattle.engine_txn.specs.declared.read.Read.TheVariants.{Allowed};
ghost use Rattle.engine_txn.specs.BlockRuns.{TryGoes};
ghost use Rattle.engine_txn.specs.BlockSaid.{BlockSaid, ReplyWasGiven};
ghost use Rattle.engine_txn.specs.Progress.{ReadAs, RunsBegun, RunsInside, rest_of};
ghost use Rattle.engine_txn.specs.StatementRuns.{RunsBlock};
ghost use Rattle.engine_txn.specs.Steps.{Begins, EndsAs, Fails, FailsAs, GivesUp, Halts, RunsBehind};
ghost use Rattle.engine_txn.specs.Steps.{Says, UndoneAs};
ghost use Rattle.engine_txn.specs.Steps.{spent_reply, with_end};
ghost use Rattle.engine_txn.specs.Transactions.{CommitsLast, DiedBy, EndsByFault, HasBegun, IsOneTry};
ghost use Rattle.engine_txn.specs.Transactions.{Uncommitted};
ghost use Rattle.engine_txn.specs.Tries.{IfDied, IfSaid, IfStopped, HasEnded, IsKept, Tries};

use crate::begun::Begun;
use crate::ended::Ended;
use crate::read::Read;
use crate::statement::{answer, read, run_statement};
use crate::{BlockCalls, Tried};
use plain_model::{Refusal, Reply, Stop};
use row_types::{Block, BlockEnd, PlacedText, Transaction};
use sql_parse::Statement;
use std::alloc::Global;

/// Begins a transaction of this age, or of its own.
fn begin<B: BlockCalls>(calls: &mut B, age: Option<u64>) -> Result<Begun, Stop>
    requires idle { is_running (B.calls calls.old) ≡ false }
    ensures schema { B.defs calls.new ≡ B.defs calls.old }
    ensures calls { Begins age (B.calls calls.old) result (B.calls calls.new) }
{
    match calls.begin(age) {
        Ok(number) => Ok(Begun::Running {
            age: age.unwrap_or(number),
        }),
        Err(Stop::Spent { limit }) => Ok(Begun::Refused(Refusal::Spent { limit })),
        Err(Stop::Refused(resource)) => Ok(Begun::Refused(Refusal::Resource(resource))),
        Err(stop) => Err(stop),
    }
}

/// Ends the transaction.
fn end<B: BlockCalls>(calls: &mut B, end: BlockEnd) -> Result<Ended, Stop>
    requires running { IsTrue (is_running (B.calls calls.old)) }
    ensures schema { B.defs calls.new ≡ B.defs calls.old }
    ensures calls { EndsAs end (B.calls calls.old) result (B.calls calls.new) }
{
    let ended = match end {
        BlockEnd::Commit => calls.commit(),
        BlockEnd::Rollback => calls.undo(),
        BlockEnd::CutOff => calls.undo(),
    };
    match ended {
        Ok(()) => Ok(Ended::Done),
        Err(Stop::Spent { limit }) => Ok(Ended::Spent { limit }),
        Err(stop) => Err(stop),
    }
}

/// The reply to a statement at which something is spent, or the stop where it is another.
fn spent_reply(stop: Stop) -> Result<Reply, Stop>
    ensures { result ≡ spent_reply stop }
{
    match stop {
        Stop::Spent { limit } => Ok(Reply::Refused(Refusal::Spent { limit })),
        _ => Err(stop),
    }
}

/// What a try comes to that failed before its transaction.
fn failed(stop: Stop) -> Tried
    requires fails { Fails stop }
    ensures { FailsAs stop result }
{
    match stop {
        Stop::Fault { .. } => Tried::Stopped,
        _ => Tried::OutOfMemory,
    }
}

/// What a try comes to whose transaction, of this age, is undone after a stop.
fn undone(stop: Stop, age: u64) -> Tried
    ensures { UndoneAs age stop result }
{
    match stop {
        Stop::Die { holder } => Tried::Died { holder, age },
        _ => Tried::OutOfMemory,
    }
}

/// Undoes the transaction after a stop, and returns what the try comes to. `age` is the transaction's.
fn give_up<B: BlockCalls>(calls: &mut B, stop: Stop, age: u64) -> Tried
    requires halts { Halts stop }
    requires running { RunsBehind stop (B.calls calls.old) }
    ensures schema { B.defs calls.new ≡ B.defs calls.old }
    ensures calls { GivesUp age (B.calls calls.old) stop result (B.calls calls.new) }
{
    if let Stop::Fault { .. } = stop {
        return Tried::Stopped;
    }
    match calls.undo() {
        Ok(()) => undone(stop, age),
        Err(Stop::Fault { .. }) => Tried::Stopped,
        Err(Stop::OutOfMemory) => Tried::OutOfMemory,
        Err(_) => undone(stop, age),
    }
}

/// Runs a statement that stands alone, in the transaction that has just begun, and commits it.
fn run_alone<B: BlockCalls>(
    alloc: Global,
    calls: &mut B,
    statement: Statement,
) -> Result<Reply, Stop>
    requires running { IsTrue (is_running (B.calls calls.old)) }
    requires begun { HasBegun (B.calls calls.old) }
    ensures schema { B.defs calls.new ≡ B.defs calls.old }
    ensures runs { (text : Placed) → ReadAs false text (Allowed statement)
        → RunsBegun (B.defs calls.old) (Alone text) (B.calls calls.old) (λ reply. reply ∷ []) result
        (B.calls calls.new) }
{
    match run_statement(alloc, calls, statement) {
        Ok(reply) => Ok(end(calls, BlockEnd::Commit)?.reply(reply)),
        Err(stop) => spent_reply(stop),
    }
}

/// What a try comes to that has one reply.
fn said(replies: Vec<Reply>, reply: Reply) -> Tried
    requires none { replies.items ≡ [] }
    requires room { 1 ≤ vec_capacity replies }
    ensures { Says result (reply ∷ []) }
{
    let mut replies = replies;
    replies.push_reserved(reply);
    Tried::Said(replies)
}

/// Tries a statement that stands alone.
fn try_alone<B: BlockCalls>(
    alloc: Global,
    calls: &mut B,
    text: &PlacedText,
    age: Option<u64>,
) -> Tried
    requires idle { is_running (B.calls calls.old) ≡ false }
    ensures schema { B.defs calls.new ≡ B.defs calls.old }
    ensures tries { Tries (B.defs calls.old) age (Alone text.now)
        (B.calls calls.old) result (B.calls calls.new) }
{
    // The reply's memory is found first: once a commit is answered, nothing may go wrong.
    let Ok(replies) = Vec::with_capacity(alloc, 1) else {
        return Tried::OutOfMemory;
    };
    match read(alloc, false, text) {
        Ok(Read::Refused(refusal)) => said(replies, Reply::Refused(refusal)),
        Ok(Read::Allowed(statement)) => match begin(calls, age) {
            Ok(Begun::Refused(refusal)) => said(replies, Reply::Refused(refusal)),
            Ok(Begun::Running { age }) => match run_alone(alloc, calls, statement) {
                Ok(reply) => said(replies, reply),
                Err(stop) => give_up(calls, stop, age),
            },
            Err(stop) => failed(stop),
        },
        Err(stop) => failed(stop),
    }
}

/// Runs the statements behind BEGIN, up to the last or to one that is spent, and adds the replies. `false`:
/// one was spent.
fn run_inside<B: BlockCalls>(
    alloc: Global,
    calls: &mut B,
    t: &Transaction,
    replies: &mut Vec<Reply>,
) -> Result<bool, Stop>
    requires running { IsTrue (is_running (B.calls calls.old)) }
    requires begun { HasBegun (B.calls calls.old) }
    requires first { replies.old.items ≡ Reply.Done ∷ [] }
    requires room { vec_len replies.old + length t.now.statements ≤ vec_capacity replies.old }
    ensures schema { B.defs calls.new ≡ B.defs calls.old }
    ensures runs { RunsInside (B.defs calls.old) t.now (B.calls calls.old) replies.new.items result
        (B.calls calls.new) }
    ensures few { vec_len replies.new ≤ length t.now.statements + 1 }
    ensures room { vec_capacity replies.new ≡ vec_capacity replies.old }
{
    for text in t.statements.as_slice() {
        match answer(alloc, calls, text) {
            Ok(reply) => replies.push_reserved(reply),
            Err(stop) => {
                replies.push_reserved(spent_reply(stop)?);
                return Ok(false);
            }
        }
    }
    Ok(true)
}

/// Adds the reply to a block's end, which a cut-off one hasn't.
fn add_end(end: BlockEnd, reply: Reply, replies: &mut Vec<Reply>)
    requires room { vec_len replies.old + 1 ≤ vec_capacity replies.old }
    ensures { replies.new.items ≡ with_end end replies.old.items reply }
{
    match end {
        BlockEnd::Commit => replies.push_reserved(reply),
        BlockEnd::Rollback => replies.push_reserved(reply),
        BlockEnd::CutOff => (),
    }
}

/// Adds NO BLOCK for each statement that is still without a reply, and for the end.
fn add_no_block(t: &Transaction, replies: &mut Vec<Reply>)
    requires some { 1 ≤ vec_len replies.old }
    requires few { vec_len replies.old ≤ length t.now.statements + 1 }
    requires room { length t.now.statements + 2 ≤ vec_capacity replies.old }
    ensures { replies.new.items
        ≡ replies.old.items ++ without_block (rest_of t.now replies.old.items) t.now.end }
{
    for _ in replies.len() - 1..t.statements.len() {
        replies.push_reserved(Reply::Refused(Refusal::NoBlock));
    }
    add_end(t.end, Reply::Refused(Refusal::NoBlock), replies);
}

/// Runs what follows a BEGIN that was done, up to the end of the block, and adds the replies.
fn run_begun<B: BlockCalls>(
    alloc: Global,
    calls: &mut B,
    t: &Transaction,
    replies: &mut Vec<Reply>,
) -> Result<(), Stop>
    requires running { IsTrue (is_running (B.calls calls.old)) }
    requires begun { HasBegun (B.calls calls.old) }
    requires none { replies.old.items ≡ [] }
    requires room { length t.now.statements + 2 ≤ vec_capacity replies.old }
    ensures schema { B.defs calls.new ≡ B.defs calls.old }
    ensures runs { RunsBegun (B.defs calls.old) (Behind t.now) (B.calls calls.old) (λ done. replies.new.items)
        result (B.calls calls.new) }
{
    replies.push_reserved(Reply::Done);
    if !run_inside(alloc, calls, t, replies)? {
        add_no_block(t, replies);
        return Ok(());
    }
    let reply = end(calls, t.end)?.reply(Reply::Done);
    add_end(t.end, reply, replies);
    Ok(())
}

/// Tries BEGIN and what follows it.
fn try_transaction<B: BlockCalls>(
    alloc: Global,
    calls: &mut B,
    t: &Transaction,
    age: Option<u64>,
) -> Tried
    requires idle { is_running (B.calls calls.old) ≡ false }
    ensures schema { B.defs calls.new ≡ B.defs calls.old }
    ensures tries { Tries (B.defs calls.old) age (Behind t.now)
        (B.calls calls.old) result (B.calls calls.new) }
{
    // The memory of all replies is found first: once a commit is answered, nothing may go wrong.
    let Ok(mut replies) = Vec::with_capacity(alloc, t.statements.as_slice().len() + 2) else {
        return Tried::OutOfMemory;
    };
    match begin(calls, age) {
        Ok(Begun::Refused(refusal)) => {
            replies.push_reserved(Reply::Refused(refusal));
            add_no_block(t, &mut replies);
            Tried::Said(replies)
        }
        Ok(Begun::Running { age }) => match run_begun(alloc, calls, t, &mut replies) {
            Ok(()) => Tried::Said(replies),
            Err(stop) => give_up(calls, stop, age),
        },
        Err(stop) => failed(stop),
    }
}

/// Tries a block in at most one transaction, where none runs.
///
/// A statement that stands alone has a transaction of its own, which begins once it was read and is allowed
/// where it stands; that of BEGIN begins with it. Where the begin is refused, since the log is full or
/// something is spent, the block has the replies of that and changes nothing. `age` is that of an earlier
/// try of the same block which died. After a fault of a device nothing more is called; out of memory and
/// an older transaction in the way undo the block.
pub fn try_block<B: BlockCalls>(
    alloc: Global,
    calls: &mut B,
    block: &Block,
    age: Option<u64>,
) -> Tried
    requires idle { is_running (B.calls calls.old) ≡ false }
    ensures schema { B.defs calls.new ≡ B.defs calls.old }
    // The way that it goes: whether a transaction is begun, each reply with the calls that it comes from, and
    // how the transaction ends.
    ensures goes { TryGoes (B.defs calls.old) age block.now (B.calls calls.old) result (B.calls calls.new) }
    // At most one transaction, whose begin comes directly after the calls before.
    ensures began { IsOneTry age (B.calls calls.old) (B.calls calls.new) }
    // At most one commit, and nothing is called behind it.
    ensures commits { CommitsLast (B.calls calls.old) (B.calls calls.new) }
    // Replies and effect.
    ensures said { IfSaid result (λ replies. BlockSaid (B.defs calls.old) age block.now replies
        (B.calls calls.old) (B.calls calls.new)) }
    // What is said to be lacking or spent is what a call gave.
    ensures causes { IfSaid result (λ replies.
        AllByRecursion (ReplyWasGiven (B.calls calls.old) (B.calls calls.new)) replies) }
    // Locks, and rows put and taken away, statement by statement, whatever the try comes to.
    ensures calls { RunsBlock (B.defs calls.old) block.now (B.calls calls.old) (B.calls calls.new) }
    // After a fault of a device nothing more is called.
    ensures stopped { IfStopped result (EndsByFault (B.calls calls.old) (B.calls calls.new)) }
    ensures died { IfDied result (λ holder age. DiedBy holder age (B.calls calls.old) (B.calls calls.new)) }
    // No transaction runs any longer, but where a device failed or memory ran out for the undo too.
    ensures ended { HasEnded result (B.calls calls.new) }
    // A try that died or ran out of memory has committed nothing.
    ensures kept { IsKept result (Uncommitted (B.calls calls.old) (B.calls calls.new)) }
{
    match block {
        Block::Alone(text) => try_alone(alloc, calls, text, age),
        Block::Transaction(t) => try_transaction(alloc, calls, t, age),
    }
}
