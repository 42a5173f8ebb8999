// Each stop of each call, at the first and at a later row: what the try comes to, which calls were made, and
// what then stands.
use disk_core::FileName;
use fake_keeper::{Keeper, Kind, Switch, calls_text, kept_text, schema, tried};
use plain_model::{Resource, Stop};
use std::alloc::Global;
use std::test::Fail;

const KV: &str = "CREATE TABLE kv (id INT PRIMARY KEY, n INT)";

const INSERT: &str = "INSERT INTO kv VALUES (5, 50), (6, 60)";

const TWO: &str = "BEGIN; INSERT INTO kv VALUES (5, 50); INSERT INTO kv VALUES (6, 60); \
    SELECT id FROM kv WHERE id = 6; COMMIT";

const DIE: Stop = Stop::Die { holder: 3 };

const LOCKS: Stop = Stop::Refused(Resource::Locks {
    held: 1024,
    limit: 1024,
});

/// A stop by its name, and what a try that it ends comes to.
fn stop_named(name: &str) -> Option<(Stop, &'static str)> {
    let file = FileName::AreaA;
    let log = Resource::LogFull { bytes: 9, limit: 8 };
    let pages = Resource::Pages { used: 1, limit: 1 };
    let nodes = Resource::Nodes { used: 2, limit: 2 };
    let txn = Resource::Txn { used: 3, limit: 4 };
    Some(match name {
        "fault" => (Stop::Fault { file }, "stopped"),
        "spent" => (Stop::Spent { limit: 7 }, "Spent { limit: 7 }"),
        "die" => (DIE, "died 3 2"),
        "memory" => (Stop::OutOfMemory, "out of memory"),
        "locks" => (LOCKS, "Resource(Locks { held: 1024, limit: 1024 })"),
        "log" => (
            Stop::Refused(log),
            "Resource(LogFull { bytes: 9, limit: 8 })",
        ),
        "pages" => (
            Stop::Refused(pages),
            "Resource(Pages { used: 1, limit: 1 })",
        ),
        "nodes" => (
            Stop::Refused(nodes),
            "Resource(Nodes { used: 2, limit: 2 })",
        ),
        "txn" => (Stop::Refused(txn), "Resource(Txn { used: 3, limit: 4 })"),
        _ => return None,
    })
}

/// A kind of call by its word.
fn kind_named(word: &str) -> Option<Kind> {
    Some(match word {
        "begin" => Kind::Begin,
        "lock" => Kind::Lock,
        "mark" => Kind::Mark,
        "get" => Kind::Get,
        "chunk" => Kind::Chunk,
        "put" => Kind::Put,
        "del" => Kind::Del,
        "undo_to" => Kind::UndoTo,
        "commit" => Kind::Commit,
        "undo" => Kind::Undo,
        _ => return None,
    })
}

/// Rows by their name, as the text of a keeper. `all` are the three at the start.
fn rows_named(name: &str) -> Option<&'static str> {
    Some(match name {
        "all" => "0: 1, 10 / 0: 2, 20 / 0: 3, 30 / ",
        "all, 5" => "0: 1, 10 / 0: 2, 20 / 0: 3, 30 / 0: 5, 50 / ",
        "all, 6" => "0: 1, 10 / 0: 2, 20 / 0: 3, 30 / 0: 6, 60 / ",
        "all, 5, 6" => "0: 1, 10 / 0: 2, 20 / 0: 3, 30 / 0: 5, 50 / 0: 6, 60 / ",
        "1, 2 changed, 3" => "0: 1, 10 / 0: 2, 21 / 0: 3, 30 / ",
        "1, 2 changed, 3 changed" => "0: 1, 10 / 0: 2, 21 / 0: 3, 31 / ",
        "1, 3" => "0: 1, 10 / 0: 3, 30 / ",
        "1" => "0: 1, 10 / ",
        "2, 3" => "0: 2, 20 / 0: 3, 30 / ",
        _ => return None,
    })
}

/// The stop of a call, as the word of its kind, how many of the kind come before it, and the stop's name; and
/// what a try that it ends comes to.
fn switch_of(call: &str) -> Option<(Switch, &'static str)> {
    let (word, rest) = call.split_once(" ")?;
    let (left, name) = rest.split_once(" ")?;
    let kind = kind_named(word)?;
    let left = left.parse().ok()?;
    let (stop, end) = stop_named(name)?;
    Some((Switch { kind, left, stop }, end))
}

/// A case's stop, and what has to come of it: the replies, the rows and the calls.
///
/// The text of a case has these parts, and `; ` between them: the call that is stopped and its stop; the
/// replies, where there are others, among which `_` is what the stop comes to; the rows; the calls.
fn case_of(alloc: Global, text: &str) -> Result<Option<(Switch, String)>, Fail> {
    let Some((call, rest)) = text.split_once("; ") else {
        return Ok(None);
    };
    let Some((switch, end)) = switch_of(call) else {
        return Ok(None);
    };
    let Some((rest, calls)) = rest.rsplit_once("; ") else {
        return Ok(None);
    };
    let (replies, name) = rest.split_once("; ").unwrap_or(("_", rest));
    let Some(rows) = rows_named(name) else {
        return Ok(None);
    };
    let wanted = match replies.split_once("_") {
        Some((before, after)) => format!(in alloc; "{before}{end}{after}; {rows}; {calls}")?,
        None => format!(in alloc; "{replies}; {rows}; {calls}")?,
    };
    Ok(Some((switch, wanted)))
}

/// Three rows, which are read one by one.
fn three_rows(alloc: Global) -> Result<Keeper, Fail> {
    let mut keeper = Keeper::new(alloc, schema(alloc, KV)?, 1);
    let texts = "INSERT INTO kv VALUES (3, 30), (1, 10), (2, 20)";
    let found = tried(alloc, &mut keeper, texts, None)?;
    if found.as_str() != "ok 3" {
        return Err(Fail::from("the rows aren't inserted"));
    }
    Ok(keeper)
}

/// What is wrong with a case of a block, as text.
fn fault_of(alloc: Global, texts: &str, case: &str) -> Result<Option<String>, Fail> {
    let Some((switch, wanted)) = case_of(alloc, case)? else {
        return Ok(Some(format!(in alloc; "no case: {case}")?));
    };
    let mut keeper = three_rows(alloc)?;
    keeper.switch(Some(switch));
    let found = tried(alloc, &mut keeper, texts, None)?;
    let kept = kept_text(alloc, &keeper)?;
    let made = calls_text(alloc, &keeper)?;
    let all = format!(in alloc; "{found}; {kept}; {made}")?;
    let is_stopped = found.as_str() == "stopped" && switch.kind != Kind::Begin;
    if all.as_str() == wanted.as_str() && keeper.is_running() == is_stopped {
        return Ok(None);
    }
    Ok(Some(format!(in alloc; "{case}: {all}")?))
}

/// The first case that isn't as it has to be.
fn first_wrong(alloc: Global, texts: &str, cases: &[&str]) -> Result<Option<String>, Fail> {
    for case in cases {
        if let Some(fault) = fault_of(alloc, texts, case)? {
            return Ok(Some(fault));
        }
    }
    Ok(None)
}

#[test]
fn an_insert_is_stopped(rt: HostRuntime) -> Result<(), Fail> {
    let cases = [
        "begin 0 log; all; begin",
        "begin 0 spent; all; begin",
        "begin 0 fault; all; begin",
        "begin 0 memory; all; begin",
        "lock 0 locks; all; begin lock commit",
        "lock 0 die; all; begin lock undo",
        "lock 0 spent; all; begin lock",
        "lock 0 fault; all; begin lock",
        "lock 0 memory; all; begin lock undo",
        "mark 0 spent; all; begin lock mark",
        "mark 0 fault; all; begin lock mark",
        "mark 0 memory; all; begin lock mark undo",
        "get 0 spent; all; begin lock mark get",
        "get 0 fault; all; begin lock mark get",
        "get 0 memory; all; begin lock mark get undo",
        "get 1 spent; all; begin lock mark get put get",
        "get 1 fault; all, 5; begin lock mark get put get",
        "get 1 memory; all; begin lock mark get put get undo",
        "put 0 pages; all; begin lock mark get put undo_to commit",
        "put 0 nodes; all; begin lock mark get put undo_to commit",
        "put 0 txn; all; begin lock mark get put undo_to commit",
        "put 0 spent; all; begin lock mark get put",
        "put 0 fault; all; begin lock mark get put",
        "put 0 memory; all; begin lock mark get put undo",
        "put 1 pages; all; begin lock mark get put get put undo_to commit",
        "put 1 nodes; all; begin lock mark get put get put undo_to commit",
        "put 1 txn; all; begin lock mark get put get put undo_to commit",
        "put 1 spent; all; begin lock mark get put get put",
        "put 1 fault; all, 5; begin lock mark get put get put",
        "put 1 memory; all; begin lock mark get put get put undo",
        "commit 0 spent; all; begin lock mark get put get put commit",
        "commit 0 fault; all, 5, 6; begin lock mark get put get put commit",
        "commit 0 memory; all; begin lock mark get put get put commit undo",
        "del 0 fault; ok 2; all, 5, 6; begin lock mark get put get put commit",
    ];
    let wrong = first_wrong(rt.alloc(), INSERT, &cases)?;
    assert!(rt; wrong.is_none(), "{wrong:?}");
    Ok(())
}

#[test]
fn a_refused_insert_is_stopped(rt: HostRuntime) -> Result<(), Fail> {
    let cases = [
        "undo_to 0 spent; all; begin lock mark get put get undo_to",
        "undo_to 0 fault; all, 5; begin lock mark get put get undo_to",
        "undo_to 0 memory; all; begin lock mark get put get undo_to undo",
        "undo_to 1 fault; DUPLICATE 2; all; begin lock mark get put get undo_to commit",
        "commit 0 spent; all; begin lock mark get put get undo_to commit",
        "commit 0 fault; all; begin lock mark get put get undo_to commit",
        "commit 0 memory; all; begin lock mark get put get undo_to commit undo",
    ];
    let wrong = first_wrong(rt.alloc(), "INSERT INTO kv VALUES (5, 50), (2, 0)", &cases)?;
    assert!(rt; wrong.is_none(), "{wrong:?}");
    Ok(())
}

#[test]
fn an_update_is_stopped(rt: HostRuntime) -> Result<(), Fail> {
    let cases = [
        "lock 0 locks; all; begin lock commit",
        "lock 0 die; all; begin lock undo",
        "lock 0 spent; all; begin lock",
        "lock 0 fault; all; begin lock",
        "lock 0 memory; all; begin lock undo",
        "mark 0 spent; all; begin lock mark",
        "chunk 0 spent; all; begin lock mark chunk",
        "chunk 1 spent; all; begin lock mark chunk put chunk",
        "chunk 2 spent; all; begin lock mark chunk put chunk put chunk",
        "mark 0 fault; all; begin lock mark",
        "chunk 0 fault; all; begin lock mark chunk",
        "chunk 1 fault; 1, 2 changed, 3; begin lock mark chunk put chunk",
        "chunk 2 fault; 1, 2 changed, 3 changed; begin lock mark chunk put chunk put chunk",
        "mark 0 memory; all; begin lock mark undo",
        "chunk 0 memory; all; begin lock mark chunk undo",
        "chunk 1 memory; all; begin lock mark chunk put chunk undo",
        "chunk 2 memory; all; begin lock mark chunk put chunk put chunk undo",
        "put 0 pages; all; begin lock mark chunk put undo_to commit",
        "put 1 pages; all; begin lock mark chunk put chunk put undo_to commit",
        "put 0 nodes; all; begin lock mark chunk put undo_to commit",
        "put 1 nodes; all; begin lock mark chunk put chunk put undo_to commit",
        "put 0 txn; all; begin lock mark chunk put undo_to commit",
        "put 1 txn; all; begin lock mark chunk put chunk put undo_to commit",
        "put 0 spent; all; begin lock mark chunk put",
        "put 1 spent; all; begin lock mark chunk put chunk put",
        "put 0 fault; all; begin lock mark chunk put",
        "put 1 fault; 1, 2 changed, 3; begin lock mark chunk put chunk put",
        "put 0 memory; all; begin lock mark chunk put undo",
        "put 1 memory; all; begin lock mark chunk put chunk put undo",
        "commit 0 spent; all; begin lock mark chunk put chunk put chunk commit",
        "commit 0 fault; 1, 2 changed, 3 changed; \
         begin lock mark chunk put chunk put chunk commit",
        "commit 0 memory; all; begin lock mark chunk put chunk put chunk commit undo",
    ];
    let wrong = first_wrong(rt.alloc(), "UPDATE kv SET n = n + 1 WHERE id >= 2", &cases)?;
    assert!(rt; wrong.is_none(), "{wrong:?}");
    Ok(())
}

#[test]
fn a_delete_is_stopped(rt: HostRuntime) -> Result<(), Fail> {
    let cases = [
        "lock 0 locks; all; begin lock commit",
        "lock 0 die; all; begin lock undo",
        "lock 0 spent; all; begin lock",
        "lock 0 fault; all; begin lock",
        "lock 0 memory; all; begin lock undo",
        "mark 0 spent; all; begin lock mark",
        "chunk 0 spent; all; begin lock mark chunk",
        "chunk 1 spent; all; begin lock mark chunk del chunk",
        "chunk 2 spent; all; begin lock mark chunk del chunk del chunk",
        "mark 0 fault; all; begin lock mark",
        "chunk 0 fault; all; begin lock mark chunk",
        "chunk 1 fault; 1, 3; begin lock mark chunk del chunk",
        "chunk 2 fault; 1; begin lock mark chunk del chunk del chunk",
        "mark 0 memory; all; begin lock mark undo",
        "chunk 0 memory; all; begin lock mark chunk undo",
        "chunk 1 memory; all; begin lock mark chunk del chunk undo",
        "chunk 2 memory; all; begin lock mark chunk del chunk del chunk undo",
        "del 0 txn; all; begin lock mark chunk del undo_to commit",
        "del 1 txn; all; begin lock mark chunk del chunk del undo_to commit",
        "del 0 spent; all; begin lock mark chunk del",
        "del 1 spent; all; begin lock mark chunk del chunk del",
        "del 0 fault; all; begin lock mark chunk del",
        "del 1 fault; 1, 3; begin lock mark chunk del chunk del",
        "del 0 memory; all; begin lock mark chunk del undo",
        "del 1 memory; all; begin lock mark chunk del chunk del undo",
        "commit 0 spent; all; begin lock mark chunk del chunk del chunk commit",
        "commit 0 fault; 1; begin lock mark chunk del chunk del chunk commit",
        "commit 0 memory; all; begin lock mark chunk del chunk del chunk commit undo",
    ];
    let wrong = first_wrong(rt.alloc(), "DELETE FROM kv WHERE id >= 2", &cases)?;
    assert!(rt; wrong.is_none(), "{wrong:?}");
    Ok(())
}

#[test]
fn a_select_of_rows_or_of_totals_is_stopped(rt: HostRuntime) -> Result<(), Fail> {
    let cases = [
        "lock 0 locks; all; begin lock commit",
        "lock 0 die; all; begin lock undo",
        "lock 0 spent; all; begin lock",
        "lock 0 fault; all; begin lock",
        "lock 0 memory; all; begin lock undo",
        "chunk 0 spent; all; begin lock chunk",
        "chunk 2 spent; all; begin lock chunk chunk chunk",
        "commit 0 spent; all; begin lock chunk chunk chunk chunk commit",
        "chunk 0 fault; all; begin lock chunk",
        "chunk 2 fault; all; begin lock chunk chunk chunk",
        "commit 0 fault; all; begin lock chunk chunk chunk chunk commit",
        "chunk 0 memory; all; begin lock chunk undo",
        "chunk 2 memory; all; begin lock chunk chunk chunk undo",
        "commit 0 memory; all; begin lock chunk chunk chunk chunk commit undo",
    ];
    for texts in ["SELECT id FROM kv", "SELECT COUNT(*) FROM kv"] {
        let wrong = first_wrong(rt.alloc(), texts, &cases)?;
        assert!(rt; wrong.is_none(), "{texts}: {wrong:?}");
    }
    Ok(())
}

#[test]
fn a_block_is_stopped(rt: HostRuntime) -> Result<(), Fail> {
    let cases = [
        "begin 0 log; _ / NoBlock / NoBlock / NoBlock / NoBlock; all; begin",
        "begin 0 spent; _ / NoBlock / NoBlock / NoBlock / NoBlock; all; begin",
        "begin 0 fault; all; begin",
        "begin 0 memory; all; begin",
        "lock 1 locks; ok / ok 1 / _ / rows 0 / ok; all, 5; \
         begin lock mark get put lock lock chunk commit",
        "lock 1 die; all; begin lock mark get put lock undo",
        "lock 2 die; all; begin lock mark get put lock mark get put lock undo",
        "lock 1 spent; ok / ok 1 / _ / NoBlock / NoBlock; all; begin lock mark get put lock",
        "lock 0 spent; ok / _ / NoBlock / NoBlock / NoBlock; all; begin lock",
        "lock 2 spent; ok / ok 1 / ok 1 / _ / NoBlock; all; \
         begin lock mark get put lock mark get put lock",
        "put 1 pages; ok / ok 1 / _ / rows 0 / ok; all, 5; \
         begin lock mark get put lock mark get put undo_to lock chunk commit",
        "put 0 txn; ok / _ / ok 1 / 6 / rows 1 / ok; all, 6; \
         begin lock mark get put undo_to lock mark get put lock chunk commit",
        "put 1 fault; all, 5; begin lock mark get put lock mark get put",
        "put 1 memory; all; begin lock mark get put lock mark get put undo",
        "put 1 spent; ok / ok 1 / _ / NoBlock / NoBlock; all; \
         begin lock mark get put lock mark get put",
        "commit 0 spent; ok / ok 1 / ok 1 / 6 / rows 1 / _; all; \
         begin lock mark get put lock mark get put lock chunk commit",
        "commit 0 fault; all, 5, 6; begin lock mark get put lock mark get put lock chunk commit",
        "commit 0 memory; all; begin lock mark get put lock mark get put lock chunk commit undo",
    ];
    let wrong = first_wrong(rt.alloc(), TWO, &cases)?;
    assert!(rt; wrong.is_none(), "{wrong:?}");
    Ok(())
}

#[test]
fn a_rollback_is_stopped(rt: HostRuntime) -> Result<(), Fail> {
    let cases = [
        "undo 0 spent; ok / ok 1 / _; all; begin lock mark get put undo",
        "undo 0 fault; all, 5; begin lock mark get put undo",
        "undo 0 memory; all; begin lock mark get put undo undo",
        "undo 1 fault; ok / ok 1 / ok; all; begin lock mark get put undo",
    ];
    let wrong = first_wrong(
        rt.alloc(),
        "BEGIN; INSERT INTO kv VALUES (5, 50); ROLLBACK",
        &cases,
    )?;
    assert!(rt; wrong.is_none(), "{wrong:?}");
    Ok(())
}

#[test]
fn a_block_that_is_cut_off_is_stopped(rt: HostRuntime) -> Result<(), Fail> {
    let cases = [
        "undo 0 spent; ok / ok 1; all; begin lock mark chunk del undo",
        "undo 0 fault; 2, 3; begin lock mark chunk del undo",
        "undo 0 memory; all; begin lock mark chunk del undo undo",
        "undo 1 fault; ok / ok 1; all; begin lock mark chunk del undo",
    ];
    let wrong = first_wrong(rt.alloc(), "BEGIN; DELETE FROM kv WHERE id = 1", &cases)?;
    assert!(rt; wrong.is_none(), "{wrong:?}");
    Ok(())
}

/// Tries the block of two rows once for each age and stop of its lock, and returns the first try that comes
/// to something else than is wanted.
fn wrong_age(
    alloc: Global,
    cases: &[(Option<u64>, Option<Stop>, &str)],
) -> Result<Option<String>, Fail> {
    let mut keeper = three_rows(alloc)?;
    for (age, stop, wanted) in cases {
        keeper.switch(stop.map(|stop| Switch {
            kind: Kind::Lock,
            left: 0,
            stop,
        }));
        let found = tried(alloc, &mut keeper, INSERT, *age)?;
        if found.as_str() != *wanted {
            return Ok(Some(found));
        }
    }
    Ok(None)
}

#[test]
fn a_block_that_died_keeps_its_age(rt: HostRuntime) -> Result<(), Fail> {
    let cases = [
        (None, Some(DIE), "died 3 2"),
        (Some(2), Some(DIE), "died 3 2"),
        (
            Some(2),
            Some(LOCKS),
            "Resource(Locks { held: 1024, limit: 1024 })",
        ),
        (None, Some(DIE), "died 3 5"),
        (Some(5), None, "ok 2"),
    ];
    let wrong = wrong_age(rt.alloc(), &cases)?;
    assert!(rt; wrong.is_none(), "{wrong:?}");
    Ok(())
}
