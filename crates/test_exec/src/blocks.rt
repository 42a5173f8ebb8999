// Blocks over the keeper, with the replies that have to come, those of the plain model, and the rows after
// each.
use fake_keeper::{Keeper, calls_text, kept_text, plain, schema, tables_text, tried};
use plain_model::Tables;
use row_types::TryCopy;
use std::alloc::Global;
use std::test::Fail;

/// What is wrong with a try of a block, as text, and the tables of the plain model after it.
fn fault_of(
    alloc: Global,
    keeper: &mut Keeper,
    tables: &Tables,
    texts: &str,
    wanted: &str,
) -> Result<(Option<String>, Tables), Fail> {
    let found = tried(alloc, keeper, texts, None)?;
    let (meant, after) = plain(alloc, tables, texts)?;
    let kept = kept_text(alloc, keeper)?;
    let rows = tables_text(alloc, &after)?;
    if found.as_str() != wanted || meant.as_str() != wanted || kept.as_str() != rows.as_str() {
        let fault = format!(in alloc; "{texts}: {found} ({meant}), {kept} ({rows})")?;
        return Ok((Some(fault), after));
    }
    Ok((None, after))
}

/// Tries blocks one after the other, and returns the first that isn't as it has to be.
fn first_wrong(
    alloc: Global,
    creates: &str,
    piece: usize,
    blocks: &[(&str, &str)],
) -> Result<Option<String>, Fail> {
    let schema = schema(alloc, creates)?;
    let mut now = Tables::new(alloc, schema.copy()?)?;
    let mut keeper = Keeper::new(alloc, schema, piece);
    for (texts, wanted) in blocks {
        let (fault, after) = fault_of(alloc, &mut keeper, &now, texts, wanted)?;
        if let Some(fault) = fault {
            return Ok(Some(fault));
        }
        now = after;
    }
    Ok(None)
}

/// The same with pieces of one row, of two and of a hundred.
fn wrong_in_pieces(
    alloc: Global,
    creates: &str,
    blocks: &[(&str, &str)],
) -> Result<Option<String>, Fail> {
    for piece in [1, 2, 100] {
        if let Some(fault) = first_wrong(alloc, creates, piece, blocks)? {
            return Ok(Some(fault));
        }
    }
    Ok(None)
}

const KV: &str = "CREATE TABLE kv (id INT PRIMARY KEY, n INT)";

#[test]
fn rows_are_inserted_and_shown(rt: HostRuntime) -> Result<(), Fail> {
    let blocks = [
        ("INSERT INTO kv VALUES (1, 10)", "ok 1"),
        ("SELECT * FROM kv", "1, 10 / rows 1"),
        ("INSERT INTO kv VALUES (1, 99)", "DUPLICATE 1"),
        ("SELECT * FROM kv", "1, 10 / rows 1"),
        (
            "INSERT INTO kv VALUES (5, 0), (6, 0), (1, 0)",
            "DUPLICATE 1",
        ),
        ("SELECT COUNT(*) FROM kv", "1 / rows 1"),
        (
            "INSERT INTO kv VALUES (5, 0), (-6, 0), (5, 1)",
            "DUPLICATE 5",
        ),
        ("INSERT INTO kv VALUES (5, 0), (-6, 3), (2, 1)", "ok 3"),
        ("SELECT id FROM kv", "-6 / 1 / 2 / 5 / rows 4"),
        (
            "SELECT n, id, n FROM kv WHERE id >= 1 ORDER BY id DESC LIMIT 2",
            "0, 5, 0 / 1, 2, 1 / rows 2",
        ),
        (
            "SELECT id FROM kv ORDER BY id LIMIT 3",
            "-6 / 1 / 2 / rows 3",
        ),
        ("SELECT id FROM kv LIMIT 0", "rows 0"),
        (
            "SELECT COUNT(*), SUM(n), SUM(id) FROM kv WHERE n > 0",
            "3, 14, -3 / rows 1",
        ),
        (
            "SELECT COUNT(*), SUM(n) FROM kv WHERE id > 9",
            "0, 0 / rows 1",
        ),
        ("DELETE FROM kv WHERE id < 2 AND n <> 10", "ok 1"),
        ("DELETE FROM kv WHERE id = 9", "ok 0"),
        ("SELECT id FROM kv WHERE n <= 1", "2 / 5 / rows 2"),
        ("DELETE FROM kv", "ok 3"),
        ("SELECT * FROM kv", "rows 0"),
    ];
    let wrong = wrong_in_pieces(rt.alloc(), KV, &blocks)?;
    assert!(rt; wrong.is_none(), "{wrong:?}");
    Ok(())
}

#[test]
fn numbers_stay_in_their_range(rt: HostRuntime) -> Result<(), Fail> {
    let blocks = [
        (
            "INSERT INTO kv VALUES (1, 5), (2, 9223372036854775807)",
            "ok 2",
        ),
        ("UPDATE kv SET n = n + 1", "Range"),
        ("SELECT * FROM kv", "1, 5 / 2, 9223372036854775807 / rows 2"),
        ("UPDATE kv SET n = n + 1 - 1 WHERE id = 2", "Range"),
        ("UPDATE kv SET n = n - 1 + 1 WHERE id = 2", "ok 1"),
        ("UPDATE kv SET n = -9223372036854775808 - id", "Range"),
        ("UPDATE kv SET n = 0 - id - id WHERE id < 2", "ok 1"),
        (
            "SELECT SUM(n), COUNT(*) FROM kv",
            "9223372036854775805, 2 / rows 1",
        ),
        (
            "INSERT INTO kv VALUES (0, 9223372036854775807), (9, -9223372036854775808)",
            "ok 2",
        ),
        ("SELECT SUM(n) FROM kv", "9223372036854775804 / rows 1"),
        ("SELECT SUM(n) FROM kv WHERE id < 9", "Range"),
        (
            "SELECT COUNT(*), SUM(n) FROM kv WHERE id = 0",
            "1, 9223372036854775807 / rows 1",
        ),
    ];
    let wrong = wrong_in_pieces(rt.alloc(), KV, &blocks)?;
    assert!(rt; wrong.is_none(), "{wrong:?}");
    Ok(())
}

#[test]
fn texts_have_a_limit_in_bytes(rt: HostRuntime) -> Result<(), Fail> {
    let creates = "CREATE TABLE b (id INT PRIMARY KEY, t TEXT(3))";
    let blocks = [
        ("INSERT INTO b VALUES (1, 'abc')", "ok 1"),
        (
            "INSERT INTO b VALUES (2, 'abcd')",
            "Length { given: 4, limit: 3 }",
        ),
        (
            "INSERT INTO b VALUES (2, 'éé')",
            "Length { given: 4, limit: 3 }",
        ),
        ("INSERT INTO b VALUES (2, 'é')", "ok 1"),
        ("SELECT t FROM b WHERE t > 'abc'", "é / rows 1"),
        (
            "SELECT id FROM b WHERE t >= 'abc' AND t < 'abd'",
            "1 / rows 1",
        ),
        ("SELECT id FROM b WHERE t = 'ab'", "rows 0"),
        ("UPDATE b SET t = 'x' WHERE t <> 'é'", "ok 1"),
        ("SELECT * FROM b", "1, x / 2, é / rows 2"),
    ];
    let wrong = wrong_in_pieces(rt.alloc(), creates, &blocks)?;
    assert!(rt; wrong.is_none(), "{wrong:?}");
    Ok(())
}

#[test]
fn blocks_begin_and_end(rt: HostRuntime) -> Result<(), Fail> {
    let blocks = [
        ("INSERT INTO kv VALUES (1, 10)", "ok 1"),
        ("COMMIT", "NoBlock"),
        ("ROLLBACK", "NoBlock"),
        (
            "BEGIN; BEGIN; INSERT INTO kv VALUES (3, 1); ROLLBACK",
            "ok / InBlock / ok 1 / ok",
        ),
        ("SELECT COUNT(*) FROM kv", "1 / rows 1"),
        ("BEGIN; DELETE FROM kv", "ok / ok 1"),
        ("SELECT * FROM kv", "1, 10 / rows 1"),
        ("BEGIN", "ok"),
        ("BEGIN; COMMIT", "ok / ok"),
        (
            "BEGIN; INSERT INTO kv VALUES (2, 1); INSERT INTO kv VALUES (1, 1); SELEC; SELECT COUNT(*) FROM kv; COMMIT",
            "ok / ok 1 / DUPLICATE 1 / Syntax { at: 0 } / 2 / rows 1 / ok",
        ),
        ("SELECT * FROM kv", "1, 10 / 2, 1 / rows 2"),
        ("CREATE TABLE a (id INT PRIMARY KEY)", "OnlyFirst"),
        (
            "BEGIN; CREATE TABLE a (id INT); UPDATE kw SET n = 1; COMMIT",
            "ok / OnlyFirst / NoTable / ok",
        ),
        ("SELECT * FROM kv WHRE", "Syntax { at: 17 }"),
    ];
    let wrong = wrong_in_pieces(rt.alloc(), KV, &blocks)?;
    assert!(rt; wrong.is_none(), "{wrong:?}");
    Ok(())
}

#[test]
fn a_table_of_three_columns(rt: HostRuntime) -> Result<(), Fail> {
    let creates =
        "CREATE TABLE a (id INT PRIMARY KEY); CREATE TABLE item (id INT PRIMARY KEY, name VARCHAR(20), left_over INT)";
    let blocks = [
        (
            "INSERT INTO item VALUES (7, 'it''s tea', 12), (3, 'salt', -1)",
            "ok 2",
        ),
        (
            "SELECT name, left_over FROM item WHERE left_over > 0 ORDER BY id DESC",
            "it's tea, 12 / rows 1",
        ),
        (
            "UPDATE item SET left_over = left_over - 5, name = 'tea' WHERE id >= 4",
            "ok 1",
        ),
        ("select * from item limit 1", "3, salt, -1 / rows 1"),
        ("SELECT COUNT(*), SUM(left_over) FROM item", "2, 6 / rows 1"),
        (
            "UPDATE item SET left_over = left_over + id, name = name",
            "ok 2",
        ),
        ("SELECT * FROM item", "3, salt, 2 / 7, tea, 14 / rows 2"),
        ("SELECT * FROM a", "rows 0"),
        (
            "UPDATE item SET left_over = id + id + left_over WHERE left_over > 2",
            "ok 1",
        ),
        ("SELECT left_over FROM item WHERE id = 7", "28 / rows 1"),
    ];
    let wrong = wrong_in_pieces(rt.alloc(), creates, &blocks)?;
    assert!(rt; wrong.is_none(), "{wrong:?}");
    Ok(())
}

#[test]
fn refused_statements_are_undone(rt: HostRuntime) -> Result<(), Fail> {
    let blocks = [
        (
            "INSERT INTO kv VALUES (1, 1), (2, 2), (3, 9223372036854775806), (4, 4)",
            "ok 4",
        ),
        (
            "BEGIN; UPDATE kv SET n = n + 1; UPDATE kv SET n = n + 1; SELECT n FROM kv WHERE id <> 3; COMMIT",
            "ok / ok 4 / Range / 2 / 3 / 5 / rows 3 / ok",
        ),
        (
            "BEGIN; DELETE FROM kv WHERE id = 2; INSERT INTO kv VALUES (2, 7), (5, 1), (4, 0); \
                INSERT INTO kv VALUES (2, 8); COMMIT",
            "ok / ok 1 / DUPLICATE 4 / ok 1 / ok",
        ),
        (
            "BEGIN; UPDATE kv SET n = n - 1; DELETE FROM kv WHERE n = 1; INSERT INTO kv VALUES (9, 9), (9, 8); ROLLBACK",
            "ok / ok 4 / ok 1 / DUPLICATE 9 / ok",
        ),
        (
            "BEGIN; UPDATE kv SET n = 2 WHERE n <> 2; UPDATE kv SET n = n + n; SELECT SUM(n) FROM kv; COMMIT",
            "ok / ok 3 / ok 4 / 16 / rows 1 / ok",
        ),
        (
            "SELECT * FROM kv ORDER BY id DESC",
            "4, 4 / 3, 4 / 2, 4 / 1, 4 / rows 4",
        ),
        ("SELEC * FROM kv", "Syntax { at: 0 }"),
    ];
    let wrong = wrong_in_pieces(rt.alloc(), KV, &blocks)?;
    assert!(rt; wrong.is_none(), "{wrong:?}");
    Ok(())
}

#[test]
fn statements_about_no_key_find_nothing(rt: HostRuntime) -> Result<(), Fail> {
    let blocks = [
        ("INSERT INTO kv VALUES (1, 10), (2, 20)", "ok 2"),
        ("SELECT * FROM kv WHERE id = 1 AND id = 2", "rows 0"),
        (
            "SELECT COUNT(*) FROM kv WHERE id = 1 AND id = 2",
            "0 / rows 1",
        ),
        (
            "SELECT SUM(n), SUM(id), COUNT(*) FROM kv WHERE id > 3 AND id < 2",
            "0, 0, 0 / rows 1",
        ),
        ("UPDATE kv SET n = 0 WHERE id = 1 AND id = 2", "ok 0"),
        ("DELETE FROM kv WHERE id = 1 AND id = 2", "ok 0"),
        (
            "BEGIN; UPDATE kv SET n = 0 WHERE id < 1 AND id > 1; DELETE FROM kv WHERE id > 3 AND id < 2; COMMIT",
            "ok / ok 0 / ok 0 / ok",
        ),
        ("SELECT n FROM kv", "10 / 20 / rows 2"),
    ];
    let wrong = wrong_in_pieces(rt.alloc(), KV, &blocks)?;
    assert!(rt; wrong.is_none(), "{wrong:?}");
    Ok(())
}

#[test]
fn rows_and_statements_of_many_columns(rt: HostRuntime) -> Result<(), Fail> {
    let creates =
        "CREATE TABLE wide (id INT PRIMARY KEY, a INT, b INT, c INT, d INT, e INT, f INT, g INT, h INT, i INT)";
    let blocks = [
        (
            "INSERT INTO wide VALUES (1, 2, 3, 4, 5, 6, 7, 8, 9, 10)",
            "ok 1",
        ),
        (
            "SELECT * FROM wide",
            "1, 2, 3, 4, 5, 6, 7, 8, 9, 10 / rows 1",
        ),
        (
            "UPDATE wide SET a = b, b = a, c = 40, d = 50, e = 60, f = 70, g = 80, h = 90, i = i + 90",
            "ok 1",
        ),
        (
            "SELECT * FROM wide ORDER BY id DESC LIMIT 1",
            "1, 3, 2, 40, 50, 60, 70, 80, 90, 100 / rows 1",
        ),
        (
            "SELECT SUM(a), SUM(b), SUM(c), SUM(d), SUM(e), SUM(f), SUM(g), SUM(h), SUM(i) FROM wide",
            "3, 2, 40, 50, 60, 70, 80, 90, 100 / rows 1",
        ),
    ];
    let wrong = wrong_in_pieces(rt.alloc(), creates, &blocks)?;
    assert!(rt; wrong.is_none(), "{wrong:?}");
    Ok(())
}

#[test]
fn a_block_of_four_statements_that_is_cut_off_is_undone(rt: HostRuntime) -> Result<(), Fail> {
    let blocks = [
        ("INSERT INTO kv VALUES (1, 10), (2, 20)", "ok 2"),
        (
            "BEGIN; INSERT INTO kv VALUES (3, 30); UPDATE kv SET n = n + 1; DELETE FROM kv WHERE id = 1",
            "ok / ok 1 / ok 3 / ok 1",
        ),
        ("SELECT n FROM kv", "10 / 20 / rows 2"),
    ];
    let wrong = wrong_in_pieces(rt.alloc(), KV, &blocks)?;
    assert!(rt; wrong.is_none(), "{wrong:?}");
    Ok(())
}

/// A statement with a text of so many bytes in it.
fn with_text(alloc: Global, front: &str, bytes: usize, end: &str) -> Result<String, Fail> {
    let mut text = String::from_str(alloc, front)?;
    for _ in 0..bytes {
        text.push_str("x")?;
    }
    text.push_str(end)?;
    Ok(text)
}

#[test]
fn long_texts_are_set_or_refused(rt: HostRuntime) -> Result<(), Fail> {
    let alloc = rt.alloc();
    let creates = "CREATE TABLE b (id INT PRIMARY KEY, t TEXT(200))";
    let added = with_text(alloc, "INSERT INTO b VALUES (2, '", 200, "')")?;
    let set = with_text(alloc, "UPDATE b SET t = '", 200, "' WHERE id = 1")?;
    let found = with_text(alloc, "SELECT id FROM b WHERE t = '", 200, "'")?;
    let too_long = with_text(alloc, "INSERT INTO b VALUES (3, '", 400, "')")?;
    let set_too_long = with_text(alloc, "UPDATE b SET t = '", 400, "' WHERE id = 1")?;
    let unread = with_text(alloc, "SELEC * FROM b WHERE t = '", 400, "'")?;
    let refused = "Length { given: 400, limit: 200 }";
    let blocks = [
        ("INSERT INTO b VALUES (1, 'a')", "ok 1"),
        (added.as_str(), "ok 1"),
        (set.as_str(), "ok 1"),
        (found.as_str(), "1 / 2 / rows 2"),
        (too_long.as_str(), refused),
        (set_too_long.as_str(), refused),
        (unread.as_str(), "Syntax { at: 0 }"),
        ("SELECT COUNT(*) FROM b", "2 / rows 1"),
    ];
    let wrong = wrong_in_pieces(alloc, creates, &blocks)?;
    assert!(rt; wrong.is_none(), "{wrong:?}");
    Ok(())
}
