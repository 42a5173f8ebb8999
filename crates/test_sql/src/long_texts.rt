// With ample memory each list is read whole, however long it
// is, and so are long literals and texts of several MB.
use crate::statements::shown;
use sql_lex::lex;
use std::alloc::Global;
use std::test::Fail;

/// A text in which one part stands so many times.
fn repeated(
    alloc: Global,
    front: &str,
    part: &str,
    count: u32,
    back: &str,
) -> Result<String, Fail> {
    let mut text = String::from_str(alloc, front)?;
    for _ in 0..count {
        text.push_str(part)?;
    }
    text.push_str(back)?;
    Ok(text)
}

/// Whether the text with its part so many times is read as what is to be shown, with its part as many times.
fn is_read_whole(
    alloc: Global,
    text: [&str; 3],
    wanted: [&str; 3],
    count: u32,
) -> Result<bool, Fail> {
    let text = repeated(alloc, text[0], text[1], count, text[2])?;
    let wanted = repeated(alloc, wanted[0], wanted[1], count, wanted[2])?;
    let found = shown(alloc, text.as_str())?;
    Ok(found.as_str() == wanted.as_str())
}

#[test]
fn long_lists_are_read_whole(rt: HostRuntime) -> Result<(), Fail> {
    let rows = [
        (
            ["CREATE TABLE t (a INT", ", b TEXT(3)", ")"],
            [
                "Create(TableDef { name: Name { text: \"t\" }, \
                    columns: Items { items: [Column { name: Name { text: \"a\" }, kind: Int }",
                ", Column { name: Name { text: \"b\" }, kind: Text(3) }",
                "] }, keys: Items { items: [] } })",
            ],
        ),
        (
            ["INSERT INTO t VALUES (0", ", 'a''b'", ")"],
            [
                "Insert(Insert { table: Name { text: \"t\" }, rows: Items { items: [Items { items: [Int(0)",
                ", Text(Text { text: \"a'b\" })",
                "] }] } })",
            ],
        ),
        (
            ["INSERT INTO t VALUES (0)", ", (-1, 'x')", ""],
            [
                "Insert(Insert { table: Name { text: \"t\" }, rows: Items { items: [Items { items: [Int(0)] }",
                ", Items { items: [Int(-1), Text(Text { text: \"x\" })] }",
                "] } })",
            ],
        ),
        (
            ["SELECT a", ", b", " FROM t"],
            [
                "Select(Select { shown: Columns(Items { items: [Name { text: \"a\" }",
                ", Name { text: \"b\" }",
                "] }), table: Name { text: \"t\" }, conditions: Items { items: [] }, order: None, limit: None })",
            ],
        ),
        (
            ["SELECT COUNT(*)", ", SUM(n)", " FROM t"],
            [
                "Totals(Totals { totals: Items { items: [Count",
                ", Sum(Name { text: \"n\" })",
                "] }, table: Name { text: \"t\" }, conditions: Items { items: [] } })",
            ],
        ),
        (
            ["DELETE FROM t WHERE a = 1", " AND b < -2", ""],
            [
                "Delete(Delete { table: Name { text: \"t\" }, \
                    conditions: Items { items: [\
                    Condition { column: Name { text: \"a\" }, comparison: Equal, value: Int(1) }",
                ", Condition { column: Name { text: \"b\" }, comparison: Less, value: Int(-2) }",
                "] } })",
            ],
        ),
        (
            ["UPDATE t SET a = 1", ", b = 'x'", ""],
            [
                "Update(Update { table: Name { text: \"t\" }, \
                    changes: Items { items: [Change { column: Name { text: \"a\" }, first: Value(Int(1)), \
                    further: Items { items: [] } }",
                ", Change { column: Name { text: \"b\" }, first: Value(Text(Text { text: \"x\" })), \
                    further: Items { items: [] } }",
                "] }, conditions: Items { items: [] } })",
            ],
        ),
        (
            ["UPDATE t SET a = 1 - 2", " + b", ""],
            [
                "Update(Update { table: Name { text: \"t\" }, \
                    changes: Items { items: [Change { column: Name { text: \"a\" }, first: Value(Int(1)), \
                    further: Items { items: [Step { is_minus: true, term: Value(Int(2)) }",
                ", Step { is_minus: false, term: Column(Name { text: \"b\" }) }",
                "] } }] }, conditions: Items { items: [] } })",
            ],
        ),
    ];
    for (text, wanted) in rows {
        for count in [0, 1, 100, 3_000] {
            assert!(rt;
                is_read_whole(rt.alloc(), text, wanted, count)?,
                "{}",
                text[0]
            );
        }
    }
    Ok(())
}

#[test]
fn marks_from_the_255th_column_on_are_255(rt: HostRuntime) -> Result<(), Fail> {
    let alloc = rt.alloc();
    let front = repeated(alloc, "CREATE TABLE t (a INT", ", a INT", 254, "")?;
    let columns = repeated(
        alloc,
        "Create(TableDef { name: Name { text: \"t\" }, columns: Items { items: [Column { name: Name { text: \"a\" }, kind: Int }",
        ", Column { name: Name { text: \"a\" }, kind: Int }",
        3_255,
        "] }, keys: Items { items: [255",
    )?;
    let text = repeated(alloc, front.as_str(), ", a INT PRIMARY KEY", 3_001, ")")?;
    let wanted = repeated(alloc, columns.as_str(), ", 255", 3_000, "] } })")?;
    let found = shown(alloc, text.as_str())?;
    assert!(rt; found.as_str() == wanted.as_str());
    Ok(())
}

#[test]
fn long_literals_are_read_whole(rt: HostRuntime) -> Result<(), Fail> {
    for count in [0, 409, 410, 1_000, 400_000] {
        let is_whole = is_read_whole(
            rt.alloc(),
            ["INSERT INTO t VALUES ('", "''bcdefghi", "')"],
            [
                "Insert(Insert { table: Name { text: \"t\" }, rows: Items { items: [Items { items: [Text(Text { text: \"",
                "'bcdefghi",
                "\" })] }] } })",
            ],
            count,
        )?;
        assert!(rt; is_whole, "{count}");
    }
    Ok(())
}

/// How many tokens a text is.
fn tokens_of(alloc: Global, text: &str) -> Option<usize> {
    if text.len() > 1 << 30 {
        return None;
    }
    Some(lex(alloc, text, 0).ok()?.len())
}

#[test]
fn a_text_of_100_000_tokens_is_read(rt: HostRuntime) -> Result<(), Fail> {
    let text = repeated(rt.alloc(), "", "a, -- b\n", 50_000, "")?;
    assert_eq!(rt; tokens_of(rt.alloc(), text.as_str()), Some(100_000));
    Ok(())
}
