// Which calls statements make, and a large table in pieces.
use fake_keeper::{Keeper, Kind, calls_text, schema, tried};
use std::alloc::Global;
use std::test::Fail;

const KV: &str = "CREATE TABLE kv (id INT PRIMARY KEY, n INT)";

/// The first statement that has another reply or other calls than are wanted, over four rows in pieces of
/// one.
fn first_wrong(alloc: Global, cases: &[(&str, &str, &str)]) -> Result<Option<String>, Fail> {
    let mut keeper = Keeper::new(alloc, schema(alloc, KV)?, 1);
    for (texts, wanted, calls) in cases {
        keeper.switch(None);
        let found = tried(alloc, &mut keeper, texts, None)?;
        let made = calls_text(alloc, &keeper)?;
        if found.as_str() != *wanted || made.as_str() != *calls {
            return Ok(Some(format!(in alloc; "{texts}: {found}; {made}")?));
        }
    }
    Ok(None)
}

#[test]
fn statements_read_what_they_need(rt: HostRuntime) -> Result<(), Fail> {
    let cases = [
        (
            "INSERT INTO kv VALUES (1, 10), (2, 20), (3, 30), (4, 40)",
            "ok 4",
            "begin lock mark get put get put get put get put commit",
        ),
        (
            "SELECT id FROM kv LIMIT 2",
            "1 / 2 / rows 2",
            "begin lock chunk chunk commit",
        ),
        (
            "SELECT id FROM kv WHERE n >= 30 LIMIT 1",
            "3 / rows 1",
            "begin lock chunk chunk chunk commit",
        ),
        (
            "SELECT id FROM kv LIMIT 5",
            "1 / 2 / 3 / 4 / rows 4",
            "begin lock chunk chunk chunk chunk chunk commit",
        ),
        (
            "SELECT id FROM kv WHERE id <= 4 ORDER BY id DESC LIMIT 1",
            "4 / rows 1",
            "begin lock chunk commit",
        ),
        (
            "SELECT id FROM kv WHERE id <= 4 ORDER BY id DESC LIMIT 2",
            "4 / 3 / rows 2",
            "begin lock chunk chunk chunk chunk commit",
        ),
        (
            "SELECT id FROM kv ORDER BY id DESC LIMIT 0",
            "rows 0",
            "begin lock commit",
        ),
        (
            "SELECT n FROM kv WHERE id = 3",
            "30 / rows 1",
            "begin lock chunk commit",
        ),
        (
            "SELECT n FROM kv WHERE id > 1 AND id <= 3 ORDER BY id DESC",
            "30 / 20 / rows 2",
            "begin lock chunk chunk commit",
        ),
        (
            "UPDATE kv SET n = n + 10 WHERE id >= 2 AND n <= 30",
            "ok 2",
            "begin lock mark chunk put chunk put chunk chunk commit",
        ),
        (
            "UPDATE kv SET n = n WHERE id = 9",
            "ok 0",
            "begin lock mark chunk commit",
        ),
        (
            "SELECT COUNT(*), SUM(n) FROM kv",
            "4, 120 / rows 1",
            "begin lock chunk chunk chunk chunk chunk commit",
        ),
        (
            "INSERT INTO kv VALUES (7, 1), (3, 1), (8, 1)",
            "DUPLICATE 3",
            "begin lock mark get put get undo_to commit",
        ),
        ("SELECT id FROM kw", "NoTable", "begin commit"),
        ("COMMIT", "NoBlock", ""),
        ("SELEC * FROM kv", "Syntax { at: 0 }", ""),
        ("BEGIN; ROLLBACK", "ok / ok", "begin undo"),
        (
            "BEGIN; DELETE FROM kv WHERE id <= 1; COMMIT",
            "ok / ok 1 / ok",
            "begin lock mark chunk del commit",
        ),
        (
            "SELECT id FROM kv LIMIT 1",
            "2 / rows 1",
            "begin lock chunk commit",
        ),
    ];
    let wrong = first_wrong(rt.alloc(), &cases)?;
    assert!(rt; wrong.is_none(), "{wrong:?}");
    Ok(())
}

/// An INSERT of a hundred rows from a key on, each with its key as its number.
fn hundred_rows(alloc: Global, first: i64) -> Result<String, Fail> {
    let mut text = String::from_str(alloc, "INSERT INTO kv VALUES ")?;
    for i in 0..100 {
        if i > 0 {
            text.push_str(", ")?;
        }
        let id = first.saturating_add(i);
        text.push_str(format!(in alloc; "({id}, {id})")?.as_str())?;
    }
    Ok(text)
}

/// A keeper with ten thousand rows, from key 0 on.
fn ten_thousand_rows(alloc: Global) -> Result<Keeper, Fail> {
    let mut keeper = Keeper::new(alloc, schema(alloc, KV)?, 100);
    for i in 0..100_i64 {
        let text = hundred_rows(alloc, i.saturating_mul(100))?;
        let found = tried(alloc, &mut keeper, text.as_str(), None)?;
        if found.as_str() != "ok 100" {
            return Err(Fail::from("the rows aren't inserted"));
        }
    }
    Ok(keeper)
}

/// How many calls of a kind there were.
fn count_of(keeper: &Keeper, kind: Kind) -> usize {
    keeper.made().iter().filter(|made| **made == kind).count()
}

/// Whether there were so many reads of pieces, rows set and rows taken away.
fn has_made(keeper: &Keeper, chunks: usize, puts: usize, dels: usize) -> bool {
    count_of(keeper, Kind::Chunk) == chunks
        && count_of(keeper, Kind::Put) == puts
        && count_of(keeper, Kind::Del) == dels
}

#[test]
fn ten_thousand_rows_are_changed_in_pieces(rt: HostRuntime) -> Result<(), Fail> {
    let alloc = rt.alloc();
    let mut keeper = ten_thousand_rows(alloc)?;
    let cases = [
        (
            "SELECT COUNT(*), SUM(n) FROM kv",
            "10000, 49995000 / rows 1",
            101,
            0,
            0,
        ),
        ("UPDATE kv SET n = n + 1", "ok 10000", 101, 10_000, 0),
        (
            "SELECT COUNT(*), SUM(n) FROM kv",
            "10000, 50005000 / rows 1",
            101,
            0,
            0,
        ),
        (
            "SELECT n FROM kv WHERE id >= 5000 LIMIT 1",
            "5001 / rows 1",
            1,
            0,
            0,
        ),
        (
            "UPDATE kv SET n = 9223372036854770808 + id",
            "Range",
            51,
            5_000,
            0,
        ),
        ("DELETE FROM kv WHERE n > 100", "ok 9900", 101, 0, 9_900),
        (
            "SELECT COUNT(*), SUM(n) FROM kv",
            "100, 5050 / rows 1",
            2,
            0,
            0,
        ),
    ];
    for (texts, wanted, chunks, puts, dels) in cases {
        keeper.switch(None);
        let found = tried(alloc, &mut keeper, texts, None)?;
        assert!(rt; found.as_str() == wanted, "{texts}: {found}");
        assert!(rt; has_made(&keeper, chunks, puts, dels), "{texts}");
    }
    Ok(())
}
