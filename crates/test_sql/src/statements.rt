// What no clause says: that with ample memory each statement is read, and the places of faults in numbers.
use sql_parse::{ParseFault, Statement, parse};
use std::alloc::Global;
use std::test::Fail;

fn is_read(alloc: Global, text: &str) -> bool {
    text.len() <= 200 && parse(alloc, text, 7).is_ok()
}

fn fault_of(alloc: Global, text: &str) -> Option<ParseFault> {
    if text.len() > 100 {
        return None;
    }
    parse(alloc, text, 7).err()
}

#[test]
fn each_alternative_is_read(rt: HostRuntime) -> Result<(), Fail> {
    let texts = [
        "CREATE TABLE kv (id INT PRIMARY KEY, n bigint, t TEXT(4093), u VARCHAR(1), i Integer)",
        "create table t (a INT, b INT PRIMARY KEY, c INT PRIMARY KEY)",
        "INSERT INTO kv VALUES (1, -2, 'it''s', ''), (-9223372036854775808, 9223372036854775807, 'a', -0)",
        "SELECT * FROM kv",
        "SELECT id, n FROM kv WHERE id = 1 AND n <> 2 AND n != 3 AND n < 4 AND n <= 5 AND n > 6 AND t >= 'x' \
            ORDER BY id DESC LIMIT 3",
        "select id from kv order by id asc",
        "SELECT * FROM kv ORDER BY id LIMIT 0",
        "SELECT * FROM kv WHERE id=1AND n=2 LIMIT 9223372036854775807",
        "SELECT COUNT(*), SUM(n) FROM kv WHERE id = -1",
        "SELECT COUNT ( * ) FROM kv",
        "UPDATE kv SET n = n + 1 - 2, t = 'x' WHERE id = 1",
        "UPDATE kv SET n = n - -9223372036854775808 + m",
        "UPDATE kv SET n = -1, m = k",
        "DELETE FROM kv",
        "DELETE FROM kv WHERE id = 0007",
        "BEGIN",
        "Commit",
        "ROLLBACK",
        "-- a comment\n BEGIN -- and another",
        "INSERT INTO kv VALUES (1, 'ASC')",
        "CREATE TABLE kv (id INT PRIMARY KEY, n INT)",
        "\nINSERT INTO kv VALUES (1, 10)",
        "\nSELECT * FROM kv",
        "INSERT INTO kv VALUES (1, 99)",
        "INSERT INTO kv VALUES (5, 0), (6, 0), (1, 0)",
        "SELECT COUNT(*) FROM kv",
        "INSERT INTO kv VALUES (1, 5), (2, 9223372036854775807)",
        " UPDATE kv SET n = n + 1",
        "CREATE TABLE kt (id INT PRIMARY KEY, t TEXT(3))",
        "INSERT INTO kt VALUES (1, 'abc')",
        "INSERT INTO kt VALUES (2, 'abcd')",
        "INSERT INTO kt VALUES (3, '\u{e9}\u{e9}')",
        "INSERT INTO kt VALUES (4, '\u{e9}')",
        "-- stock\r\nCREATE TABLE item (id INT PRIMARY KEY, name VARCHAR(20), left_over INT)",
        "\r\nINSERT INTO item VALUES (7, 'it''s tea', 12), (3, 'salt', -1)",
        "SELECT name, left_over FROM item WHERE left_over > 0 ORDER BY id DESC",
        "\r\nUPDATE item SET left_over = left_over - 5, name = 'tea' WHERE id >= 4",
        "\r\nselect * from item limit 1",
        "\r\nSELECT COUNT(*), SUM(left_over) FROM item",
    ];
    for text in texts {
        assert!(rt; is_read(rt.alloc(), text), "{text}");
    }
    Ok(())
}

/// The statement that a text is, as `Debug` shows it: all that was read.
pub(crate) fn shown(alloc: Global, text: &str) -> Result<String, Fail> {
    if text.len() > 1 << 30 {
        return Err(Fail::from("too long"));
    }
    let Ok(statement) = parse(alloc, text, 7) else {
        return Err(Fail::from("not read"));
    };
    Ok(format!(in alloc; "{statement:?}")?)
}

#[test]
fn a_statement_has_its_parts_in_order(rt: HostRuntime) -> Result<(), Fail> {
    let rows = [
        (
            "create table t (a INT, b TEXT(3) primary key, c bigint PRIMARY KEY)",
            "Create(TableDef { name: Name { text: \"t\" }, \
                columns: Items { items: [Column { name: Name { text: \"a\" }, kind: Int }, \
                Column { name: Name { text: \"b\" }, kind: Text(3) }, \
                Column { name: Name { text: \"c\" }, kind: Int }] }, keys: Items { items: [1, 2] } })",
        ),
        (
            "INSERT INTO t VALUES (-9223372036854775808, 'it''s'), (007)",
            "Insert(Insert { table: Name { text: \"t\" }, \
                rows: Items { items: [Items { items: [Int(-9223372036854775808), Text(Text { text: \"it's\" })] }, \
                Items { items: [Int(7)] }] } })",
        ),
        (
            "SELECT b, a FROM t WHERE a != 1 AND b <= '' ORDER BY c DESC LIMIT 2",
            "Select(Select { shown: Columns(Items { items: [Name { text: \"b\" }, Name { text: \"a\" }] }), \
                table: Name { text: \"t\" }, conditions: Items { items: [\
                Condition { column: Name { text: \"a\" }, comparison: NotEqual, value: Int(1) }, \
                Condition { column: Name { text: \"b\" }, comparison: LessEqual, value: Text(Text { text: \"\" }) }] }, \
                order: Some(Order { column: Name { text: \"c\" }, is_falling: true }), limit: Some(2) })",
        ),
        (
            "SELECT SUM(n), COUNT(*) FROM t",
            "Totals(Totals { totals: Items { items: [Sum(Name { text: \"n\" }), Count] }, \
                table: Name { text: \"t\" }, conditions: Items { items: [] } })",
        ),
        (
            "UPDATE t SET n = m - -1 + k, b = 'x'",
            "Update(Update { table: Name { text: \"t\" }, \
                changes: Items { items: [\
                Change { column: Name { text: \"n\" }, first: Column(Name { text: \"m\" }), further: Items { items: [\
                Step { is_minus: true, term: Value(Int(-1)) }, \
                Step { is_minus: false, term: Column(Name { text: \"k\" }) }] } }, \
                Change { column: Name { text: \"b\" }, first: Value(Text(Text { text: \"x\" })), \
                further: Items { items: [] } }] }, conditions: Items { items: [] } })",
        ),
        (
            "DELETE FROM t WHERE n > 5",
            "Delete(Delete { table: Name { text: \"t\" }, \
                conditions: Items { items: [\
                Condition { column: Name { text: \"n\" }, comparison: Greater, value: Int(5) }] } })",
        ),
        ("commit", "Commit"),
    ];
    for (text, wanted) in rows {
        let found = shown(rt.alloc(), text)?;
        assert_eq!(rt; found.as_str(), wanted);
    }
    Ok(())
}

#[test]
fn each_fault_has_its_place(rt: HostRuntime) -> Result<(), Fail> {
    let rows = [
        ("", 7),
        ("  ", 9),
        ("SELEC * FROM kv", 7),
        ("SELECT * FORM kv", 16),
        ("SELECT * FROM kv kv", 24),
        ("SELECT FROM kv", 14),
        ("SELECT id FROMkv", 17),
        ("SELECT id, ", 18),
        ("SELECT id, FROM kv", 18),
        ("SELECT * FROM ", 21),
        ("SELECT * FROM kv WHERE", 29),
        ("SELECT * FROM kv WHERE id", 32),
        ("SELECT * FROM kv WHERE id =", 34),
        ("SELECT * FROM kv WHERE id = x", 35),
        ("SELECT * FROM kv WHERE id 1", 33),
        ("SELECT * FROM kv WHERE id = 1 AND", 40),
        ("SELECT * FROM kv WHERE id = 1 OR n = 2", 37),
        ("SELECT * FROM kv LIMIT 1 ORDER BY id", 32),
        ("SELECT * FROM kv ORDER id", 30),
        ("SELECT * FROM kv ORDER BY id DESC ASC", 41),
        ("SELECT * FROM kv LIMIT -1", 30),
        ("SELECT * FROM kv LIMIT 9223372036854775808", 30),
        ("SELECT * FROM kv LIMIT", 29),
        ("SELECT *, id FROM kv", 15),
        ("SELECT * , FROM kv", 16),
        ("SELECT COUNT(id) FROM kv", 20),
        ("SELECT COUNT", 19),
        ("SELECT SUM(*) FROM kv", 18),
        ("SELECT COUNT(*), id FROM kv", 24),
        ("SELECT COUNT(*) FROM kv ORDER BY id", 31),
        ("SELECT SUM(n, m) FROM kv", 19),
        ("VALUES", 7),
        ("INSERT kv", 14),
        ("INSERT INTO VALUES (1)", 19),
        ("INSERT INTO kv (1)", 22),
        ("INSERT INTO kv VALUES", 28),
        ("INSERT INTO kv VALUES ()", 30),
        ("INSERT INTO kv VALUES (1 2)", 32),
        ("INSERT INTO kv VALUES (1", 31),
        ("INSERT INTO kv VALUES (1), ", 34),
        ("INSERT INTO kv VALUES (1a)", 31),
        ("INSERT INTO kv VALUES (9223372036854775808)", 30),
        ("INSERT INTO kv VALUES (-9223372036854775809)", 30),
        ("INSERT INTO kv VALUES (- 'a')", 32),
        ("INSERT INTO kv VALUES (-", 31),
        ("INSERT INTO kv VALUES (1, 99999999999999999999)", 33),
        ("INSERT INTO kv VALUES (1), (2, '\t')", 38),
        ("UPDATE kv n = 1", 17),
        ("UPDATE kv SET n 1", 23),
        ("UPDATE kv SET n =", 24),
        ("UPDATE kv SET n = n +", 28),
        ("UPDATE kv SET n = n - 9223372036854775808", 29),
        ("UPDATE kv SET n = n + * 2", 29),
        ("UPDATE kv SET n = 1,", 27),
        ("UPDATE kv SET n = 1 LIMIT 1", 27),
        ("DELETE kv", 14),
        ("DELETE FROM kv id = 1", 22),
        ("DELETE FROM where", 19),
        ("CREATE kv (id INT)", 14),
        ("CREATE TABLE int (id INT)", 20),
        ("CREATE TABLE kv id INT", 23),
        ("CREATE TABLE kv ()", 24),
        ("CREATE TABLE kv (id NUMBER)", 27),
        ("CREATE TABLE kv (t TEXT(0))", 31),
        ("CREATE TABLE kv (t TEXT(4094))", 31),
        ("CREATE TABLE kv (t TEXT )", 31),
        ("CREATE TABLE kv (id INT PRIMARY)", 38),
        ("CREATE TABLE kv (id INT KEY)", 31),
        ("CREATE TABLE kv (id INT,", 31),
        ("CREATE TABLE kv (id INT) ;", 32),
        ("CHECKPOINT", 7),
        ("BEGIN BEGIN", 13),
        ("BEGIN ?", 13),
        ("COMMIT 'a", 14),
        ("SELECT * FROM abcdefghijklmnopqrstuvwxyz0123456", 21),
        ("SELECT * FORM abcdefghijklmnopqrstuvwxyz0123456", 16),
        ("INSERT INTO kv VALUES (1) \u{e9}", 33),
        ("SELECT * FROM kv WHERE id !1 = 2", 33),
        ("UPDATE kv SET n = n a", 27),
        ("-- BEGIN", 15),
        ("?", 7),
        (" ; BEGIN", 8),
        ("'a", 7),
        ("BEGIN !", 13),
        ("SELECT id, ? FROM kv", 18),
        ("INSERT INTO kv VALUES ('\u{7f}', 1)", 30),
        ("INSERT INTO kv VALUES (1), (2, 'a''", 38),
        ("abcdefghijklmnopqrstuvwxyz0123456", 7),
        ("BEGIN abcdefghijklmnopqrstuvwxyz0123456", 13),
        ("UPDATE kv SET abcdefghijklmnopqrstuvwxyz0123456 = 1", 21),
        ("9223372036854775808", 7),
        ("BEGIN 99999999999999999999", 13),
        ("UPDATE kv SET n = -9223372036854775809 WHERE id = 1", 25),
        ("UPDATE kv SET n = n + -9223372036854775809", 29),
        ("UPDATE kv SET n = n - -9223372036854775809", 29),
        ("SELECT * FROM kv WHERE id = -18446744073709551616", 35),
        ("CREATE TABLE kv (t TEXT(99999999999999999999))", 31),
        ("CREATE TABLE kv (a INT, t VARCHAR(4094), b INT)", 41),
        ("CREATE TABLE kv (t TEXT(-1))", 31),
        ("CREATE TABLE kv (id INT PRIMARY KEY PRIMARY KEY)", 43),
        ("ROLLBACK 1", 16),
    ];
    for (text, at) in rows {
        assert_eq!(rt;
            fault_of(rt.alloc(), text),
            Some(ParseFault::Syntax { at }),
            "{text}"
        );
    }
    Ok(())
}

#[test]
fn a_row_of_200_000_values_is_read(rt: HostRuntime) -> Result<(), Fail> {
    let mut text = String::from_str(rt.alloc(), "INSERT INTO kv VALUES (0")?;
    for _ in 1..200_000 {
        text.push_str(", 0")?;
    }
    text.push_str(")")?;
    let Ok(Statement::Insert(insert)) = parse(rt.alloc(), text.as_str(), 0) else {
        return Err(Fail::from("not read"));
    };
    assert_eq!(rt; insert.rows.len(), 1);
    let row = insert.rows.as_slice().get(0).ok_or("no row")?;
    assert_eq!(rt; row.len(), 200_000);
    Ok(())
}
