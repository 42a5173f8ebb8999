// Long blocks and long statements: there is memory for them, and the replies are those of the plain model.
use crate::tries::Pair;
use std::alloc::Global;
use std::test::Fail;

/// A front, a hundred times a piece, and an end.
fn repeated(alloc: Global, front: &str, piece: &str, end: &str) -> Result<String, Fail> {
    let mut text = String::from_str(alloc, front)?;
    for _ in 0..100 {
        text.push_str(piece)?;
    }
    text.push_str(end)?;
    Ok(text)
}

#[test]
fn long_blocks_and_statements_are_run(rt: HostRuntime) -> Result<(), Fail> {
    let alloc = rt.alloc();
    let mut pair = Pair::new(alloc, "CREATE TABLE kv (id INT PRIMARY KEY, n INT)")?;
    for (front, piece, end) in [
        ("INSERT INTO kv VALUES (1, 10), (2, 20)", "", ""),
        ("BEGIN", "; UPDATE kv SET n = n + 1", "; COMMIT"),
        ("UPDATE kv SET n = n", " + 1", ""),
        ("SELECT id", ", n", " FROM kv"),
        ("SELECT COUNT(*)", ", SUM(n)", " FROM kv"),
        ("DELETE FROM kv WHERE id = 2", " AND n <> 3", ""),
        ("SELECT * FROM kv", "", ""),
    ] {
        let texts = repeated(alloc, front, piece, end)?;
        let fault = pair.fault_of(alloc, texts.as_str())?;
        assert!(rt; fault.is_none(), "{fault:?}");
    }
    Ok(())
}
