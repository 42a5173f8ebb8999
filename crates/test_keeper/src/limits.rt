// Where a transaction or the log file has no room, with the numbers of the refusal; and that there is memory
// for many rows.
ghost use Rattle.std.specs.Prelude.{◌≡◌, ◌+◌, ◌≤◌, false, IsTrue};
ghost use Rattle.plain_model.specs.Calls.{is_running};
ghost use Rattle.call_log.specs.History.{log_bytes, log_limit, log_room};

use crate::tries::{is_idle, tried};
use engine_txn::BlockCalls;
use fake_keeper::{block, schema};
use list_keeper::ListKeeper;
use op_log::read_body;
use plain_model::RowCalls;
use std::alloc::Global;
use std::test::Fail;

/// Tries blocks one after the other, and returns what is first wrong.
fn first_wrong(
    alloc: Global,
    keeper: &mut ListKeeper,
    blocks: &[(&str, &str)],
) -> Result<Option<String>, Fail> {
    for (texts, wants) in blocks {
        let found = tried(alloc, keeper, &block(alloc, texts)?)?;
        if found.as_str() != *wants {
            return Ok(Some(format!(in alloc; "{texts}: {found}")?));
        }
    }
    Ok(None)
}

const WIDE: &str = "CREATE TABLE wide (id INT PRIMARY KEY, t TEXT(4000)); \
    CREATE TABLE last (id INT PRIMARY KEY, t TEXT(134))";

#[test]
fn a_transaction_has_65536_bytes(rt: HostRuntime) -> Result<(), Fail> {
    let alloc = rt.alloc();
    // A row takes 4,014 bytes, so 16 of them 64,224. A row that is taken away takes 11 more.
    let eight = "INSERT INTO wide VALUES (1, ''), (2, ''), (3, ''), (4, ''), (5, ''), (6, ''), \
        (7, ''), (8, '')";
    let nine =
        "INSERT INTO wide VALUES (11, ''), (12, ''), (13, ''), (14, ''), (15, ''), (16, ''), \
        (17, ''), (18, ''), (19, '')";
    let full = format!(in alloc;
        "BEGIN; {eight}; {nine}; UPDATE wide SET t = 'a'; \
        UPDATE wide SET t = 'b' WHERE id < 8; DELETE FROM wide WHERE id > 2; \
        INSERT INTO wide VALUES (3, ''); COMMIT"
    )?;
    let full_shown =
        "ok\nok 8\nrefused TXN FULL 64224 65536\nok 8\nrefused TXN FULL 64224 65536\nok 6\n\
        refused TXN FULL 64290 65536\nok\n";
    let blocks = [
        (full.as_str(), full_shown),
        (
            "SELECT id, t FROM wide ORDER BY id",
            "1, 'a'\n2, 'a'\nrows 2\n",
        ),
        (nine, "ok 9\n"),
        ("UPDATE wide SET t = '' WHERE id > 0", "ok 11\n"),
    ];
    let mut keeper = ListKeeper::new(alloc, schema(alloc, WIDE)?)?;
    let wrong = first_wrong(alloc, &mut keeper, &blocks)?;
    assert!(rt; wrong.is_none(), "{wrong:?}");
    Ok(())
}

/// The body of a batch that sets so many rows of the first table of `WIDE`, each with the empty text.
fn body_of(alloc: Global, rows: u64) -> Result<Vec<u8>, Fail> {
    let mut body = Vec::new(alloc);
    for id in 1..rows.saturating_add(1) {
        body.extend_from_slice(&[1, 0, 0, 1])?;
        body.extend_from_slice(&id.to_le_bytes())?;
        body.resize(body.len().saturating_add(4002), 0)?;
    }
    Ok(body)
}

/// Whether a transaction can begin: the log file has 262,272 bytes free then.
fn has_room(keeper: &mut ListKeeper) -> bool
    ensures defs { keeper.new.defs ≡ keeper.old.defs }
    ensures idle { IsTrue result → is_running keeper.new.calls ≡ false }
    ensures room { IsTrue result
        → log_bytes keeper.new.defs keeper.new.calls + log_room ≤ log_limit }
{
    if !is_idle(keeper) || keeper.begin(None).is_err() {
        return false;
    }
    keeper.has_room();
    keeper.undo().is_ok()
}

/// A keeper with one batch of the log more.
fn loaded(alloc: Global, keeper: ListKeeper, body: &[u8]) -> Result<ListKeeper, Fail> {
    let mut keeper = keeper;
    let front = read_body(alloc, keeper.schema(), body)?;
    if front.end == 0 || front.end > 262_000 || !has_room(&mut keeper) {
        return Err(Fail::from("a batch can't be loaded"));
    }
    match keeper.load(front.changes, front.end) {
        Ok(keeper) => Ok(keeper),
        Err(_) => Err(Fail::from("a batch isn't loaded")),
    }
}

/// A keeper whose log file has 66,794,252 bytes in use.
fn nearly_full(alloc: Global) -> Result<ListKeeper, Fail> {
    let body = body_of(alloc, 65)?;
    let mut keeper = ListKeeper::new(alloc, schema(alloc, WIDE)?)?;
    for _ in 0..256u64 {
        keeper = loaded(alloc, keeper, &body)?;
    }
    Ok(keeper)
}

#[test]
fn a_transaction_begins_where_262272_bytes_of_the_log_are_free(
    rt: HostRuntime,
) -> Result<(), Fail> {
    let blocks = [
        ("UPDATE wide SET t = 'a' WHERE id <= 13", "ok 13\n"),
        // From here on 66,846,592 bytes are in use.
        ("INSERT INTO last VALUES (1, '')", "ok 1\n"),
        ("SELECT COUNT(*) FROM wide", "65\nrows 1\n"),
        (
            "BEGIN; DELETE FROM wide WHERE id < 9; ROLLBACK",
            "ok\nok 8\nok\n",
        ),
        ("INSERT INTO last VALUES (1, '')", "refused DUPLICATE 1\n"),
        // It takes 16 bytes.
        ("DELETE FROM last", "ok 1\n"),
        (
            "SELECT COUNT(*) FROM wide",
            "refused LOG FULL 66846608 67108864\n",
        ),
        (
            "BEGIN; SELECT COUNT(*) FROM wide; COMMIT",
            "refused LOG FULL 66846608 67108864\nrefused NO BLOCK\nrefused NO BLOCK\n",
        ),
        ("SELEC", "refused SYNTAX 0\n"),
    ];
    let mut keeper = nearly_full(rt.alloc())?;
    let wrong = first_wrong(rt.alloc(), &mut keeper, &blocks)?;
    assert!(rt; wrong.is_none(), "{wrong:?}");
    Ok(())
}

/// An INSERT of 2,500 rows, whose keys begin here and fall.
fn insert(alloc: Global, first: i64) -> Result<String, Fail> {
    let mut text = format!(in alloc; "INSERT INTO kv VALUES ({first}, 1)")?;
    for i in 1..2500i64 {
        let id = first.wrapping_sub(i);
        text.push_str(format!(in alloc; ", ({id}, 1)")?.as_str())?;
    }
    Ok(text)
}

/// A keeper of four times 2,500 rows with the keys 1 to 10,000.
fn with_many_rows(alloc: Global) -> Result<ListKeeper, Fail> {
    let kv = schema(alloc, "CREATE TABLE kv (id INT PRIMARY KEY, n INT)")?;
    let mut keeper = ListKeeper::new(alloc, kv)?;
    for first in [2500, 10_000, 7500, 5000] {
        let texts = insert(alloc, first)?;
        let wrong = first_wrong(alloc, &mut keeper, &[(texts.as_str(), "ok 2500\n")])?;
        if wrong.is_some() {
            return Err(Fail::from("rows aren't inserted"));
        }
    }
    Ok(keeper)
}

#[test]
fn ten_thousand_rows_are_changed(rt: HostRuntime) -> Result<(), Fail> {
    let blocks = [
        (
            "SELECT COUNT(*), SUM(n), SUM(id) FROM kv",
            "10000, 10000, 50005000\nrows 1\n",
        ),
        ("UPDATE kv SET n = 2 WHERE id <= 3276", "ok 3276\n"),
        (
            "UPDATE kv SET n = 3 WHERE id > 7000 AND id < 10000",
            "ok 2999\n",
        ),
        (
            "UPDATE kv SET n = 9 WHERE id < 3278",
            "refused TXN FULL 65520 65536\n",
        ),
        ("SELECT COUNT(*), SUM(n) FROM kv", "10000, 19274\nrows 1\n"),
        (
            "BEGIN; DELETE FROM kv WHERE id > 5000; ROLLBACK",
            "ok\nok 5000\nok\n",
        ),
        (
            "BEGIN; DELETE FROM kv WHERE id > 5000; DELETE FROM kv WHERE id > 4000",
            "ok\nok 5000\nrefused TXN FULL 65527 65536\n",
        ),
        ("DELETE FROM kv WHERE id > 5000", "ok 5000\n"),
        ("DELETE FROM kv WHERE id > 2", "ok 4998\n"),
        ("SELECT * FROM kv", "1, 2\n2, 2\nrows 2\n"),
    ];
    let mut keeper = with_many_rows(rt.alloc())?;
    let wrong = first_wrong(rt.alloc(), &mut keeper, &blocks)?;
    assert!(rt; wrong.is_none(), "{wrong:?}");
    Ok(())
}
