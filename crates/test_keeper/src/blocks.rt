// Blocks over the keeper: the same replies as over plain lists of rows, and the same rows after each.
use crate::tries::Pair;
use std::alloc::Global;
use std::test::Fail;

const TWO: &str = "CREATE TABLE kv (id INT PRIMARY KEY, n INT); \
    CREATE TABLE item (name TEXT(9), id INT PRIMARY KEY)";

/// Tries blocks one after the other, with a look at both tables behind each, and returns what is first wrong.
fn first_wrong(alloc: Global, blocks: &[&str]) -> Result<Option<String>, Fail> {
    let mut pair = Pair::new(alloc, TWO)?;
    for texts in blocks {
        for texts in [*texts, "SELECT * FROM kv", "SELECT * FROM item"] {
            let fault = pair.fault_of(alloc, texts)?;
            if fault.is_some() {
                return Ok(fault);
            }
        }
    }
    Ok(None)
}

/// Blocks that are undone in each way, whole and in part.
const BLOCKS: [&[&str]; 5] = [
    // A statement that is refused at a later row takes back those before.
    &[
        "INSERT INTO kv VALUES (3, 30), (1, 10), (2, 20)",
        "INSERT INTO kv VALUES (4, 40), (5, 50), (1, 0), (6, 60)",
        "INSERT INTO kv VALUES (4, 9223372036854775807)",
        "UPDATE kv SET n = n + 1",
        "UPDATE kv SET n = n + 1 WHERE id < 4",
    ],
    // In a transaction it takes back its own changes alone.
    &[
        "BEGIN; INSERT INTO kv VALUES (1, 1), (2, 2); INSERT INTO kv VALUES (3, 3), (2, 5); COMMIT",
        "BEGIN; DELETE FROM kv WHERE id = 1; INSERT INTO kv VALUES (1, 7), (2, 7); \
            INSERT INTO kv VALUES (1, 8); UPDATE kv SET n = n + n; COMMIT",
        "BEGIN; UPDATE kv SET n = 9223372036854775807 WHERE id = 2; UPDATE kv SET n = n + 1; \
            DELETE FROM kv WHERE n < 100; COMMIT",
    ],
    // A transaction that is rolled back or cut off takes back all, and the next one begins anew.
    &[
        "INSERT INTO kv VALUES (1, 1), (2, 2), (3, 3)",
        "BEGIN; DELETE FROM kv; INSERT INTO kv VALUES (1, 7), (9, 9); UPDATE kv SET n = 0; ROLLBACK",
        "BEGIN; UPDATE kv SET n = 5; INSERT INTO item VALUES ('salt', 1)",
        "BEGIN; DELETE FROM kv WHERE id = 2; DELETE FROM kv WHERE id = 2; \
            INSERT INTO kv VALUES (2, 0); COMMIT",
        "BEGIN; ROLLBACK",
    ],
    // One key is put, changed, taken away and put again in one transaction.
    &[
        "BEGIN; INSERT INTO kv VALUES (5, 1); UPDATE kv SET n = 2; DELETE FROM kv; \
            INSERT INTO kv VALUES (5, 3); UPDATE kv SET n = n + 1; COMMIT",
        "BEGIN; DELETE FROM kv; INSERT INTO kv VALUES (5, 6), (5, 7); SELECT * FROM kv; COMMIT",
        "BEGIN; INSERT INTO kv VALUES (-9223372036854775808, 1), (9223372036854775807, 2), (0, 0); \
            DELETE FROM kv WHERE id = 0; SELECT * FROM kv ORDER BY id DESC; ROLLBACK",
    ],
    // Two tables, texts, and statements that aren't.
    &[
        "INSERT INTO item VALUES ('it''s tea', -7), ('', 3), ('salt', 0)",
        "BEGIN; INSERT INTO kv VALUES (3, 3); DELETE FROM item WHERE name = ''; SELECT * FROM none; \
            INSERT INTO item VALUES ('ninebytes', 3), ('tenbytes..', 4); SELEC; COMMIT",
        "BEGIN; BEGIN; UPDATE item SET name = 'x' WHERE id >= 0; COMMIT",
        "COMMIT",
        "SELECT COUNT(*), SUM(id) FROM item WHERE name <> 'x'",
    ],
];

#[test]
fn blocks_give_what_the_plain_model_says(rt: HostRuntime) -> Result<(), Fail> {
    for blocks in BLOCKS {
        let wrong = first_wrong(rt.alloc(), blocks)?;
        assert!(rt; wrong.is_none(), "{wrong:?}");
    }
    Ok(())
}
