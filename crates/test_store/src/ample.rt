// What no clause says: that there is memory for every kind of input, and for large ones.
use crate::program::{Ran, disk, run, run_as, sink, words};
use io_edge::MemSource;
use std::alloc::{AllocError, Global};
use std::test::Fail;

/// Scripts, with the status of their run and what it prints.
const KINDS: [(&str, u8, &str); 10] = [
    ("", 0, ""),
    ("setup\n", 0, "setup\n"),
    ("session 1\n", 0, "session 1\n"),
    ("SELECT * FROM kv;\n", 7, "fault SCRIPT 0\n"),
    ("session 2\nSELECT * FROM kv;\n", 7, "fault SCRIPT 0\n"),
    (
        "setup\nCREATE TABLE a (id INT PRIMARY KEY, id INT);\n\
            CREATE TABLE b (id INT PRIMARY KEY, t TEXT(4093));\n\
            CREATE TABLE c (id INT PRIMARY KEY, t TEXT(85));\nINSERT INTO c VALUES (1, 'a');\n",
        0,
        "setup\nrefused SAME NAME 1\nrefused TOO WIDE 4104\nok\nok 1\n",
    ),
    ("session 1\nSELECT 'a;\n", 7, "fault SCRIPT 20\n"),
    (
        "session 1\nSELECT * FROM kv;\nCREATE TABLE kv (id INT PRIMARY KEY);\nSELEC;\n",
        0,
        "session 1\nrefused NO TABLE\nrefused ONLY FIRST\nrefused SYNTAX 66\n",
    ),
    (
        "setup\nCREATE TABLE kv (id INT PRIMARY KEY, n INT);\nCREATE TABLE kv (id INT PRIMARY KEY);\n\
            CREATE TABLE a (n INT);\nCREATE;\nINSERT INTO kv VALUES (1, 2);\n\
            CREATE TABLE b (id INT PRIMARY KEY);\n",
        0,
        "setup\nok\nrefused TABLE EXISTS\nrefused NO KEY\nrefused SYNTAX 119\nok 1\nrefused ONLY FIRST\n",
    ),
    (
        "setup\nCREATE TABLE t (id INT PRIMARY KEY, t TEXT(9));\n\
            INSERT INTO t VALUES (2, 'it''s'), (-1, 'tea');\n\
            session 1\nSELECT t FROM t WHERE t > 'a' ORDER BY id DESC LIMIT 1;\nUPDATE t SET t = 'x';\n\
            session 2\nSELECT SUM(id), COUNT(*) FROM t WHERE t = 'x';\n\
            DELETE FROM t WHERE id = 2;\nSELECT * FROM t;\n",
        0,
        "setup\nok\nok 2\nsession 1\n'it''s'\nrows 1\nok 2\nsession 2\n1, 2\nrows 1\nok 1\n-1, 'x'\nrows 1\n",
    ),
];

#[test]
fn each_kind_of_input_is_answered(rt: HostRuntime) -> Result<(), Fail> {
    for (script, status, shown) in KINDS {
        let ran = run(rt.alloc(), disk(rt.alloc(), b"", 4000)?, script)?;
        let text = str::from_utf8(ran.sink.bytes()).unwrap_or("no text");
        assert_eq!(rt; text, shown, "{script}");
        assert_eq!(rt; ran.status, status, "{script}");
    }
    Ok(())
}

/// A text that has a piece many times, in which `#` stands for the piece's number from 1 on.
#[derive(Clone, Copy)]
struct Repeated {
    head: &'static str,
    count: u64,
    piece: &'static str,
    tail: &'static str,
}

impl Repeated {
    fn new(head: &'static str, count: u64, piece: &'static str, tail: &'static str) -> Repeated {
        Repeated {
            head,
            count,
            piece,
            tail,
        }
    }

    fn text(&self, alloc: Global) -> Result<String, AllocError> {
        let mut text = String::from_str(alloc, self.head)?;
        for i in 1..self.count.saturating_add(1) {
            add_numbered(alloc, &mut text, self.piece, i)?;
        }
        text.push_str(self.tail)?;
        Ok(text)
    }
}

/// Adds a piece with its number.
fn add_numbered(
    alloc: Global,
    text: &mut String,
    piece: &str,
    number: u64,
) -> Result<(), AllocError> {
    for (i, part) in piece.split("#").enumerate() {
        if i > 0 {
            text.push_str(format!(in alloc; "{number}")?.as_str())?;
        }
        text.push_str(part)?;
    }
    Ok(())
}

/// Runs a script over a log file of these bytes, with room for much.
fn run_large(alloc: Global, file: &[u8], script: &str) -> Result<Ran, Fail> {
    let source = MemSource::new(script.as_bytes().to_vec(alloc)?, Vec::new(alloc));
    let words = words(alloc, &["run", "folder"])?;
    let sink = sink(alloc, 4_000_000, &[])?;
    run_as(alloc, &words, source, sink, disk(alloc, file, 12_000_000)?)
}

/// A large script, and what it prints.
#[derive(Clone, Copy)]
struct Large {
    script: Repeated,
    shown: Repeated,
}

const HEAD: &str = "setup\nCREATE TABLE kv (id INT PRIMARY KEY, n INT);\nsession 1\n";

const HEAD_SHOWN: &str = "setup\nok\nsession 1\n";

/// Many sections, blocks, rows in a statement and in a reply, statements in a transaction, and blocks that
/// are refused or undone.
fn large_scripts() -> [Large; 4] {
    [
        Large {
            script: Repeated::new(
                "setup\nCREATE TABLE kv (id INT PRIMARY KEY, n INT);\n",
                16,
                "session #\nINSERT INTO kv VALUES (#, 0);\n",
                "SELECT COUNT(*), SUM(id) FROM kv;\n",
            ),
            shown: Repeated::new("setup\nok\n", 16, "session #\nok 1\n", "16, 136\nrows 1\n"),
        },
        Large {
            script: Repeated::new(
                HEAD,
                300,
                "INSERT INTO kv VALUES (#, #);\nUPDATE kv SET n = n - 1 WHERE id = #;\n\
                    COMMIT;\nBEGIN;\nDELETE FROM kv;\nROLLBACK;\n",
                "SELECT COUNT(*), SUM(n) FROM kv;\n",
            ),
            shown: Repeated::new(
                HEAD_SHOWN,
                300,
                "ok 1\nok 1\nrefused NO BLOCK\nok\nok #\nok\n",
                "300, 44850\nrows 1\n",
            ),
        },
        Large {
            script: Repeated::new(
                "setup\nCREATE TABLE kv (id INT PRIMARY KEY, n INT);\nsession 1\n\
                    INSERT INTO kv VALUES (0, 0)",
                300,
                ", (#, 7)",
                ";\nDELETE FROM kv WHERE id = 0;\nSELECT * FROM kv;\n",
            ),
            shown: Repeated::new(
                "setup\nok\nsession 1\nok 301\nok 1\n",
                300,
                "#, 7\n",
                "rows 300\n",
            ),
        },
        Large {
            script: Repeated::new(
                "setup\nCREATE TABLE kv (id INT PRIMARY KEY, n INT);\nsession 1\nBEGIN;\n",
                300,
                "INSERT INTO kv VALUES (#, 0);\nSELECT n FROM kv WHERE id = #;\n",
                "COMMIT;\n",
            ),
            shown: Repeated::new(
                "setup\nok\nsession 1\nok\n",
                300,
                "ok 1\n0\nrows 1\n",
                "ok\n",
            ),
        },
    ]
}

/// What is wrong with the run of a large script.
fn fault_of(alloc: Global, large: Large) -> Result<Option<String>, Fail> {
    let script = large.script.text(alloc)?;
    let ran = run_large(alloc, b"", script.as_str())?;
    if ran.status != 0 {
        return Ok(Some(format!(in alloc; "the status is {}", ran.status)?));
    }
    let wanted = large.shown.text(alloc)?;
    if ran.sink.bytes() != wanted.as_bytes() {
        return Ok(Some(format!(in alloc; "other replies")?));
    }
    Ok(None)
}

#[test]
fn large_scripts_are_answered(rt: HostRuntime) -> Result<(), Fail> {
    for large in large_scripts() {
        let fault = fault_of(rt.alloc(), large)?;
        assert!(rt; fault.is_none(), "{fault:?}: {}", large.script.piece);
    }
    Ok(())
}

/// A script of many inserts of 2,500 rows each, whose keys are 0 and those after it.
fn inserts(alloc: Global, count: u64) -> Result<String, Fail> {
    let mut script = String::from_str(alloc, HEAD)?;
    for block in 0..count {
        let first = block.saturating_mul(2500);
        script.push_str(format!(in alloc; "INSERT INTO kv VALUES ({first}, 1)")?.as_str())?;
        for i in 1..2500u64 {
            let id = first.saturating_add(i);
            script.push_str(format!(in alloc; ", ({id}, 1)")?.as_str())?;
        }
        script.push_str(";\n")?;
    }
    Ok(script)
}

/// What a later run reads over the file that so many inserts of 2,500 rows have left.
fn read_later(alloc: Global, count: u64) -> Result<String, Fail> {
    let script = inserts(alloc, count)?;
    let ran = run_large(alloc, b"", script.as_str())?;
    if ran.status != 0 {
        return Ok(format!(in alloc; "the status is {}", ran.status)?);
    }
    let look = format!(in alloc;
        "{HEAD}SELECT COUNT(*), SUM(id), SUM(n) FROM kv;\nSELECT * FROM kv LIMIT 1;\n"
    )?;
    let later = run_large(alloc, ran.disk.bytes(), look.as_str())?;
    let text = str::from_utf8(later.sink.bytes()).unwrap_or("no text");
    Ok(String::from_str(alloc, text)?)
}

#[test]
fn a_long_log_is_opened(rt: HostRuntime) -> Result<(), Fail> {
    let found = read_later(rt.alloc(), 4)?;
    let wants = "10000, 49995000, 10000\nrows 1\n0, 1\nrows 1\n";
    assert!(rt; found.as_str().ends_with(wants), "{found}");
    Ok(())
}
