// Statements that are refused by name, kind or count, most of them where a later test would refuse them too.
use row_types::Schema;
use sql_check::{CheckFault, Plan, check};
use sql_parse::{Statement, parse};
use std::alloc::Global;
use std::test::Fail;

/// The statement of a short text.
fn statement(alloc: Global, text: &str) -> Result<Statement, Fail> {
    if text.len() > 1000 {
        return Err(Fail::from("the text is too long"));
    }
    match parse(alloc, text, 0) {
        Ok(statement) => Ok(statement),
        Err(_) => Err(Fail::from("the text is no statement")),
    }
}

/// The schema that some CREATE statements make.
fn schema(alloc: Global) -> Result<Schema, Fail> {
    let mut schema = Schema::empty(alloc);
    for text in [
        "CREATE TABLE kv (id INT PRIMARY KEY, n INT, t TEXT(3))",
        "CREATE TABLE w (a TEXT(5), b TEXT(3), k INT PRIMARY KEY, c INT)",
    ] {
        match statement(alloc, text)? {
            Statement::Create(table) => match schema.add(table) {
                Ok(()) => {}
                Err(_) => return Err(Fail::from("a table is refused")),
            },
            _ => return Err(Fail::from("no table is defined")),
        }
    }
    Ok(schema)
}

/// The plan of a text, or why it doesn't fit.
fn checked(alloc: Global, schema: &Schema, text: &str) -> Result<Result<Plan, CheckFault>, Fail> {
    match check(alloc, schema, statement(alloc, text)?) {
        Err(CheckFault::OutOfMemory) => Err(Fail::from("out of memory")),
        answer => Ok(answer),
    }
}

/// Whether each text is refused with this fault.
fn all_are_refused(alloc: Global, texts: &[&str], fault: CheckFault) -> Result<bool, Fail> {
    let schema = schema(alloc)?;
    for text in texts {
        match checked(alloc, &schema, text)? {
            Err(found) => {
                if found != fault {
                    return Ok(false);
                }
            }
            Ok(_) => return Ok(false),
        }
    }
    Ok(true)
}

/// Whether each text has a plan.
fn all_fit(alloc: Global, texts: &[&str]) -> Result<bool, Fail> {
    let schema = schema(alloc)?;
    for text in texts {
        if checked(alloc, &schema, text)?.is_err() {
            return Ok(false);
        }
    }
    Ok(true)
}

#[test]
fn tables_that_are_not_there(rt: HostRuntime) -> Result<(), Fail> {
    let texts = [
        "INSERT INTO kw VALUES (1)",
        "SELECT m FROM kw",
        "SELECT * FROM KV",
        "SELECT SUM(t) FROM kw WHERE t = 1",
        "SELECT COUNT(*) FROM kw",
        "UPDATE kw SET id = 1, id = 2",
        "DELETE FROM kw WHERE m = 1",
        "SELECT * FROM kw ORDER BY n",
    ];
    assert!(rt; all_are_refused(rt.alloc(), &texts, CheckFault::NoTable)?);
    Ok(())
}

#[test]
fn rows_of_another_length(rt: HostRuntime) -> Result<(), Fail> {
    let alloc = rt.alloc();
    let few = [
        "INSERT INTO kv VALUES ('a', 'abcd')",
        "INSERT INTO kv VALUES (1, 1, ''), (1, 'x')",
    ];
    let given = 2;
    assert!(rt; all_are_refused(alloc, &few, CheckFault::Count { given, wanted: 3 })?);
    let many = [
        "INSERT INTO kv VALUES ('a', 1, 'abcd', 5)",
        "INSERT INTO kv VALUES (1, 1, '', 1), ('a')",
    ];
    let given = 4;
    assert!(rt; all_are_refused(alloc, &many, CheckFault::Count { given, wanted: 3 })?);
    let one = [
        "INSERT INTO w VALUES ('abcdef')",
        "INSERT INTO w VALUES (1), (1, 2)",
    ];
    let given = 1;
    assert!(rt; all_are_refused(alloc, &one, CheckFault::Count { given, wanted: 4 })?);
    Ok(())
}

#[test]
fn values_of_the_other_kind(rt: HostRuntime) -> Result<(), Fail> {
    let texts = [
        "INSERT INTO kv VALUES ('a', 1, 'abcd')",
        "INSERT INTO kv VALUES (1, 'abcd', 'abcd')",
        "INSERT INTO kv VALUES (1, 1, 1), (2)",
        "INSERT INTO kv VALUES (1, 1, 'a'), (2, 2, 2), (3)",
        "SELECT SUM(t), SUM(m) FROM kv",
        "SELECT COUNT(*), SUM(t) FROM kv WHERE m = 1",
        "SELECT SUM(a) FROM w WHERE a = 1",
        "SELECT * FROM kv WHERE t = 1 AND m = 1",
        "SELECT * FROM kv WHERE id = 'a' ORDER BY n",
        "SELECT COUNT(*) FROM kv WHERE n >= 'a' AND t = 0",
        "DELETE FROM kv WHERE t <> -1 AND m = 1",
        "UPDATE kv SET n = 1 WHERE t < 1 AND id < 'a'",
        "UPDATE kv SET n = 'a', n = 2",
        "UPDATE kv SET n = t, id = 1",
        "UPDATE kv SET n = 1 + 'a' + m",
        "UPDATE kv SET n = n - t, m = 1",
        "UPDATE kv SET t = 1 WHERE m = 1",
        "UPDATE kv SET t = n, m = 2",
        "UPDATE kv SET t = 'a' + m",
        "UPDATE kv SET t = t + 'abcd'",
        "UPDATE kv SET t = 'abcd' - 1",
        "UPDATE kv SET t = 'a' + 'b' WHERE m = 1",
        "UPDATE w SET b = a + b",
        "UPDATE w SET a = 'abcdef' + 'a'",
    ];
    assert!(rt; all_are_refused(rt.alloc(), &texts, CheckFault::Kind)?);
    Ok(())
}

#[test]
fn texts_that_are_too_long(rt: HostRuntime) -> Result<(), Fail> {
    let alloc = rt.alloc();
    let four = [
        "INSERT INTO kv VALUES (1, 1, 'abcd')",
        "INSERT INTO kv VALUES (1, 1, 'éé'), (1)",
        "UPDATE kv SET t = 'abcd', m = 1",
        "UPDATE kv SET n = 1, t = 'éé' WHERE m = 1",
        "UPDATE w SET b = 'it''s' WHERE b = 1",
    ];
    let given = 4;
    assert!(rt; all_are_refused(alloc, &four, CheckFault::Length { given, limit: 3 })?);
    let from_column = ["UPDATE w SET b = a", "UPDATE w SET c = 1, b = a, k = 2"];
    let given = 5;
    assert!(rt; all_are_refused(alloc, &from_column, CheckFault::Length { given, limit: 3 })?);
    let six = [
        "INSERT INTO w VALUES ('abcdef', 'abcd', 'a', 1)",
        "UPDATE w SET a = 'abcdef', a = ''",
    ];
    let given = 6;
    assert!(rt; all_are_refused(alloc, &six, CheckFault::Length { given, limit: 5 })?);
    Ok(())
}

#[test]
fn columns_that_are_not_there(rt: HostRuntime) -> Result<(), Fail> {
    let texts = [
        "SELECT m FROM kv WHERE t = 1",
        "SELECT id, m FROM kv ORDER BY n",
        "SELECT ID FROM kv",
        "SELECT SUM(m), SUM(t) FROM kv",
        "SELECT COUNT(*), SUM(m) FROM kv WHERE t = 1",
        "SELECT * FROM kv WHERE m = 1 AND t = 1 ORDER BY n",
        "SELECT * FROM kv WHERE id = 1 AND m = 1 ORDER BY m",
        "SELECT * FROM kv ORDER BY m LIMIT 1",
        "UPDATE kv SET m = 'a', m = 1",
        "UPDATE kv SET m = x, id = 1",
        "UPDATE kv SET n = m + 'a'",
        "UPDATE kv SET n = n + m WHERE t = 1",
        "UPDATE kv SET t = m + 'abcd'",
        "UPDATE kv SET n = 1 WHERE m = 1 AND t = 1",
        "DELETE FROM kv WHERE m = 'a' AND t = 1",
    ];
    assert!(rt; all_are_refused(rt.alloc(), &texts, CheckFault::NoColumn)?);
    Ok(())
}

#[test]
fn assignments_and_orders(rt: HostRuntime) -> Result<(), Fail> {
    let alloc = rt.alloc();
    let keys = [
        "UPDATE kv SET id = 'a' WHERE m = 1",
        "UPDATE kv SET id = m",
        "UPDATE kv SET n = 1, id = 2, n = 3",
        "UPDATE kv SET id = 1, id = 2",
        "UPDATE w SET k = 'abc'",
    ];
    assert!(rt; all_are_refused(alloc, &keys, CheckFault::KeyFixed)?);
    let twice = [
        "UPDATE kv SET n = 1, n = 'a'",
        "UPDATE kv SET n = 1, t = 'a', n = m",
        "UPDATE kv SET t = 'a', t = 'abcd' WHERE m = 1",
        "UPDATE w SET a = 'a', b = 'b', c = 1, a = 1",
    ];
    assert!(rt; all_are_refused(alloc, &twice, CheckFault::Twice)?);
    let orders = [
        "SELECT * FROM kv ORDER BY n",
        "SELECT t FROM kv WHERE n = 1 ORDER BY t DESC LIMIT 1",
        "SELECT * FROM w ORDER BY c",
    ];
    assert!(rt; all_are_refused(alloc, &orders, CheckFault::Order)?);
    Ok(())
}

#[test]
fn statements_that_fit(rt: HostRuntime) -> Result<(), Fail> {
    let texts = [
        "INSERT INTO kv VALUES (1, 1, 'abc'), (1, -9223372036854775808, '')",
        "INSERT INTO w VALUES ('abcde', 'é', 1, 2)",
        "SELECT * FROM kv",
        "SELECT t, t, id FROM kv WHERE id <> 1 AND t > 'abcdef' ORDER BY id DESC LIMIT 0",
        "SELECT a FROM w ORDER BY k ASC",
        "SELECT COUNT(*), SUM(id), SUM(n), COUNT(*) FROM kv WHERE t = ''",
        "UPDATE kv SET n = n + id - -1, t = 'abc' WHERE id >= 1 AND id < 1",
        "UPDATE w SET a = b, b = b",
        "UPDATE w SET c = k",
        "DELETE FROM kv",
        "DELETE FROM w WHERE k = 1 AND k = 2",
        "CREATE TABLE kv (t TEXT(3))",
        "BEGIN",
        "COMMIT",
        "ROLLBACK",
    ];
    assert!(rt; all_fit(rt.alloc(), &texts)?);
    Ok(())
}

/// The range of a plan, as whole numbers. `None`: it is empty.
fn range(plan: &Plan) -> Option<(i64, i64)> {
    let range = match plan {
        Plan::Insert(plan) => plan.range?,
        Plan::Select(plan) => plan.range?,
        Plan::Totals(plan) => plan.range?,
        Plan::Update(plan) => plan.range?,
        Plan::Delete(plan) => plan.range?,
        Plan::Create => return None,
        Plan::Begin => return None,
        Plan::Commit => return None,
        Plan::Rollback => return None,
    };
    Some((range.lo.to_int()?, range.hi.to_int()?))
}

#[test]
fn ranges_of_conditions_on_the_key(rt: HostRuntime) -> Result<(), Fail> {
    let alloc = rt.alloc();
    let schema = schema(alloc)?;
    for (text, wanted) in [
        ("SELECT * FROM kv", Some((i64::MIN, i64::MAX))),
        ("SELECT * FROM kv WHERE id = 5", Some((5, 5))),
        ("SELECT * FROM kv WHERE id < 5", Some((i64::MIN, 4))),
        (
            "SELECT * FROM kv WHERE id <= 5 AND n = 9",
            Some((i64::MIN, 5)),
        ),
        ("DELETE FROM kv WHERE id > 5", Some((6, i64::MAX))),
        (
            "DELETE FROM kv WHERE id >= 5 AND id <> 7",
            Some((5, i64::MAX)),
        ),
        ("UPDATE kv SET n = 1 WHERE id > 1 AND id < 5", Some((2, 4))),
        (
            "SELECT COUNT(*) FROM kv WHERE id >= 3 AND id > 1 AND id <= 9",
            Some((3, 9)),
        ),
        ("SELECT * FROM kv WHERE id < -9223372036854775808", None),
        ("SELECT * FROM kv WHERE id > 9223372036854775807", None),
        ("SELECT * FROM kv WHERE id = 1 AND id = 2", None),
        ("SELECT * FROM w WHERE k > 1 AND k < 2", None),
        (
            "INSERT INTO kv VALUES (7, 1, ''), (-3, 1, ''), (5, 1, '')",
            Some((-3, 7)),
        ),
    ] {
        match checked(alloc, &schema, text)? {
            Ok(plan) => assert_eq!(rt; range(&plan), wanted, "{text}"),
            Err(_) => return Err(Fail::from("a statement doesn't fit")),
        }
    }
    Ok(())
}
