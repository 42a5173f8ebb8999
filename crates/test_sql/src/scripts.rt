// What no clause says: that with ample memory each script is
// read, also a great one, and the places of faults in numbers.
use row_types::{Block, BlockEnd, PlacedText};
use script::{MAX_SCRIPT, OutOfMemory, Script, ScriptFault, Section, split};
use std::alloc::Global;
use std::test::Fail;

fn show_statement(into: &mut String, statement: &PlacedText) -> Result<(), OutOfMemory> {
    let place = format!(in *into.allocator(); "{} ", statement.base())?;
    into.push_str(place.as_str())?;
    into.push_str(statement.text().as_str())?;
    Ok(())
}

fn show_block(into: &mut String, block: &Block) -> Result<(), OutOfMemory> {
    match block {
        Block::Alone(statement) => {
            into.push_str(" [")?;
            show_statement(into, statement)?;
            into.push_str("]")?;
        }
        Block::Transaction(transaction) => {
            into.push_str(" {")?;
            for statement in transaction.statements.as_slice() {
                show_statement(into, statement)?;
                into.push_str("; ")?;
            }
            into.push_str(match transaction.end {
                BlockEnd::Commit => "commit}",
                BlockEnd::Rollback => "rollback}",
                BlockEnd::CutOff => "cut off}",
            })?;
        }
    }
    Ok(())
}

fn show_section(into: &mut String, section: &Section) -> Result<(), OutOfMemory> {
    for block in section.blocks.as_slice() {
        show_block(into, block)?;
    }
    Ok(())
}

fn show_script(into: &mut String, script: &Script) -> Result<(), OutOfMemory> {
    if let Some(setup) = &script.setup {
        into.push_str("setup")?;
        show_section(into, setup)?;
    }
    for session in script.sessions.as_slice() {
        into.push_str("/session")?;
        show_section(into, session)?;
    }
    Ok(())
}

// What is read of a text: its sections with their blocks, or the place of its fault.
pub(crate) fn shown(alloc: Global, text: &[u8]) -> Result<String, OutOfMemory> {
    let mut into = String::new(alloc);
    match split(alloc, text) {
        Ok(script) => show_script(&mut into, &script)?,
        Err(ScriptFault::BadScript { at }) => {
            into = format!(in alloc; "bad {at}")?;
        }
        Err(ScriptFault::OutOfMemory) => return Err(OutOfMemory),
    }
    Ok(into)
}

#[test]
fn scripts_are_read(rt: HostRuntime) -> Result<(), Fail> {
    let rows = [
        // Headers, blanks and line ends.
        ("", ""),
        (" \t\r\n\n", ""),
        ("session 1", "/session"),
        ("session 1\n", "/session"),
        ("setup", "setup"),
        ("setup \t\r\n", "setup"),
        ("\n \r\nsetup\r\nsession 1\t \r\n", "setup/session"),
        (
            "setup\nsession 1\nsession 2\nsession 3",
            "setup/session/session/session",
        ),
        ("session 1\nA;", "/session [10 A]"),
        ("session 1\nA;\n", "/session [10 A]"),
        ("session 1\r\nA;\r\nB;\r\n", "/session [11 A] [13 \r\nB]"),
        ("session 1\nA;B;C;", "/session [10 A] [12 B] [14 C]"),
        (
            "setup\nA;\nsession 1\nB;\nsession 2\nC;",
            "setup [6 A]/session [19 B]/session [32 C]",
        ),
        // What is no header.
        ("session 1\n session 2;", "/session [10  session 2]"),
        ("session 1\nsession 01;", "/session [10 session 01]"),
        ("session 1\nsession  2;", "/session [10 session  2]"),
        ("session 1\nsession 2x;", "/session [10 session 2x]"),
        ("session 1\nSession 2;", "/session [10 Session 2]"),
        ("session 1\nsession -2;", "/session [10 session -2]"),
        ("session 1\nsession;", "/session [10 session]"),
        ("session 1\nsetups;", "/session [10 setups]"),
        ("session 1\nx setup;", "/session [10 x setup]"),
        // A header is one wherever its line stands.
        ("session 1\n-- setup\nA;", "/session [10 -- setup\nA]"),
        (
            "session 1\n--\nsession 2\n-- session 3\nA;",
            "/session/session [23 -- session 3\nA]",
        ),
        // Statements that hold nothing are skipped.
        ("session 1\n;;\n;", "/session"),
        ("session 1\n-- a\n;A;-- b\n ;\t;", "/session [16 A]"),
        ("session 1\nA; -- the end", "/session [10 A]"),
        ("session 1\nA; -- the end\n\t", "/session [10 A]"),
        ("session 1\n-- ; '\nA;", "/session [10 -- ; '\nA]"),
        // Literals hide signs, comments hide quotes.
        ("session 1\nA ';' B;", "/session [10 A ';' B]"),
        ("session 1\nA '--' B;", "/session [10 A '--' B]"),
        (
            "session 1\nA 'it''s;' B;C;",
            "/session [10 A 'it''s;' B] [23 C]",
        ),
        ("session 1\nA '' B;", "/session [10 A '' B]"),
        ("session 1\nA - - 1;", "/session [10 A - - 1]"),
        ("session 1\nA -1;", "/session [10 A -1]"),
        ("session 1\nA --' ;\n;B;", "/session [10 A --' ;\n] [19 B]"),
        ("session 1\nA ---\n;", "/session [10 A ---\n]"),
        ("session 1\n'\u{e9}';", "/session [10 '\u{e9}']"),
        // Blocks.
        ("session 1\nBEGIN;COMMIT;", "/session {commit}"),
        (
            "session 1\nbegin;A;rollback;B;",
            "/session {16 A; rollback} [27 B]",
        ),
        ("session 1\nBEGIN;A;B;", "/session {16 A; 18 B; cut off}"),
        ("session 1\nBEGIN;", "/session {cut off}"),
        (
            "session 1\nCOMMIT;ROLLBACK;A;",
            "/session [10 COMMIT] [17 ROLLBACK] [26 A]",
        ),
        (
            "session 1\nBEGIN;BEGIN;COMMIT;COMMIT;",
            "/session {16 BEGIN; commit} [29 COMMIT]",
        ),
        (
            "session 1\n-- a\nBEGIN -- b\n;A;-- c\n CoMmIt -- d\n;B;",
            "/session {27 A; commit} [48 B]",
        ),
        (
            "session 1\nBEGIN x;COMMIT;",
            "/session [10 BEGIN x] [18 COMMIT]",
        ),
        (
            "session 1\nBEGIN;COMMIT x;ROLLBACK;",
            "/session {16 COMMIT x; rollback}",
        ),
        (
            "session 1\nBEGIN;'COMMIT';COMMIT;",
            "/session {16 'COMMIT'; commit}",
        ),
        (
            "session 1\nBEGINS;COMMITS;",
            "/session [10 BEGINS] [17 COMMITS]",
        ),
        (
            "session 1\nBEGIN;A;\nsession 2\nCOMMIT;",
            "/session {16 A; cut off}/session [29 COMMIT]",
        ),
        ("setup\nBEGIN;A;COMMIT;", "setup {12 A; commit}"),
        ("session 1\nBEGIN;;COMMIT;", "/session {commit}"),
    ];
    for (text, wants) in rows {
        let found = shown(rt.alloc(), text.as_bytes())?;
        assert_eq!(rt; found.as_str(), wants, "{text}");
    }
    Ok(())
}

#[test]
fn texts_are_refused_at_their_first_fault(rt: HostRuntime) -> Result<(), Fail> {
    let rows = [
        // Bytes before the first header.
        ("SELECT * FROM kv;", 0),
        (" \n\tx", 3),
        ("\n-- a comment\nsession 1\n", 1),
        ("session 01\n", 0),
        ("session 0x\n", 0),
        (";\nsession 1\nA;", 0),
        (" session 1\n", 1),
        ("\t\r\n \n;", 5),
        ("-- a comment", 0),
        // Headers out of order, or above 16.
        ("session 0\n", 0),
        ("session 2\n", 0),
        ("session 99999999999999999999999999\n", 0),
        ("session 1\nsetup\n", 10),
        ("setup\nsetup\n", 6),
        ("setup\nsession 2\n", 6),
        ("session 1\nsession 1\n", 10),
        ("session 1\nA;\nsession 3\n", 13),
        ("session 1\nsession 2\nsession 1\n", 20),
        ("session 1\nA;\nsetup\nB;", 13),
        ("session 1\nA;\nsetup", 13),
        // A line end inside a literal.
        ("session 1\n'\n';", 11),
        ("session 1\nA 'b\r\n';\n", 15),
        ("session 1\nA;\nB 'c''\nsession 2\nC 'd\n", 19),
        ("session 1\n-- '\n'a\nb';", 17),
        ("setup\n'\nsession 7\n", 7),
        ("session 1\nA;\nB 'c\nd';\nsession 2\nC;\n", 17),
        ("session 1\nA;\nsession 2\nB 'c\n", 27),
        // A section that ends inside a statement.
        ("session 1\nSELECT * FROM kv", 26),
        ("session 1\nA;B", 13),
        ("session 1\nA;B\n", 14),
        ("session 1\nA 'b", 14),
        ("session 1\nA;\nB -- ;\nsession 2\nC;", 20),
        ("setup\nCREATE TABLE t (\nsetup\n", 23),
        ("session 1\nA\nsession 9\n", 12),
        ("session 1\n'a'", 13),
        ("session 1\n-", 11),
        ("setup\nA\nsession 1\nB;\nsession 2\nC;\n", 8),
        ("setup\nA;\nsession 1\nB\nsession 2\nC;\n", 21),
        ("session 1\nA;\nsession 2\nB;\n'c'\n", 30),
        ("session 1\nA;\nsession 2\nB;\nsession 3\nC", 37),
        // The first of several.
        ("x\nsession 2\nA 'b\n", 0),
        ("session 1\nA\nsession 3\nB 'c\n", 12),
        ("session 1\nA 'b\nsession 3\n", 14),
    ];
    for (text, at) in rows {
        let found = split(rt.alloc(), text.as_bytes()).err();
        assert_eq!(rt; found, Some(ScriptFault::BadScript { at }), "{text}");
    }
    Ok(())
}

#[test]
fn what_is_no_text_is_refused_at_its_first_byte(rt: HostRuntime) -> Result<(), Fail> {
    let rows = [
        (b"\xff".as_slice(), 0),
        (b"session 1\n\xc3".as_slice(), 10),
        (b"x\n\x80".as_slice(), 2),
        (b"session 1\n'\xe2\x82';".as_slice(), 11),
        (b"session 1\n-- \xc0\nA;".as_slice(), 13),
        (b"session 1\nA;\xf0\x9f\x98".as_slice(), 12),
        (b"session 7\nA '\n\xed\xa0\x80".as_slice(), 14),
    ];
    for (bytes, at) in rows {
        let found = split(rt.alloc(), bytes).err();
        assert_eq!(rt; found, Some(ScriptFault::BadScript { at }));
    }
    Ok(())
}

// How many blocks a script's sessions have, or the place of its fault.
fn blocks_in(alloc: Global, bytes: &[u8]) -> Result<usize, ScriptFault> {
    let script = split(alloc, bytes)?;
    let mut count: usize = 0;
    for session in script.sessions.as_slice() {
        count = count.saturating_add(session.blocks.len());
    }
    Ok(count)
}

// The header of a session, and so many times a line behind it.
fn repeated(alloc: Global, line: &[u8], times: usize) -> Result<Vec<u8>, OutOfMemory> {
    let mut text = Vec::from_slice(alloc, b"session 1\n")?;
    for _ in 0..times {
        text.extend_from_slice(line)?;
    }
    Ok(text)
}

#[test]
fn long_scripts_are_read(rt: HostRuntime) -> Result<(), Fail> {
    let alloc = rt.alloc();
    let statements = repeated(alloc, b"INSERT INTO kv VALUES (1, 'a');\n", 400)?;
    assert_eq!(rt; blocks_in(alloc, &statements), Ok(400));
    Ok(())
}

#[test]
fn great_scripts_are_read(rt: HostRuntime) -> Result<(), Fail> {
    let alloc = rt.alloc();
    let statements = repeated(alloc, b"INSERT INTO kv VALUES (1, 'a');\n", 200_000)?;
    assert_eq!(rt; blocks_in(alloc, &statements), Ok(200_000));
    let open = repeated(alloc, b"BEGIN;\n", 200_000)?;
    assert_eq!(rt; blocks_in(alloc, &open), Ok(1));
    let lines = repeated(alloc, b"-- session 2\n", 200_000)?;
    assert_eq!(rt; blocks_in(alloc, &lines), Ok(0));
    Ok(())
}

// A script of so many bytes: blanks, and a statement at its very end.
fn blank_up_to_its_end(alloc: Global, len: usize) -> Result<Vec<u8>, OutOfMemory> {
    let mut text = Vec::from_slice(alloc, b"session 1\n")?;
    text.resize(len.saturating_sub(2), b' ')?;
    text.extend_from_slice(b"A;")?;
    Ok(text)
}

#[test]
fn the_greatest_script_is_read_whole(rt: HostRuntime) -> Result<(), Fail> {
    let alloc = rt.alloc();
    let mut greatest = blank_up_to_its_end(alloc, MAX_SCRIPT)?;
    assert_eq!(rt; greatest.len(), 67_108_864);
    assert_eq!(rt; blocks_in(alloc, &greatest), Ok(1));
    greatest.push(b'\n')?;
    let fault = ScriptFault::BadScript { at: 67_108_864 };
    assert_eq!(rt; blocks_in(alloc, &greatest), Err(fault));
    Ok(())
}

#[test]
fn sixteen_sessions_are_the_most(rt: HostRuntime) -> Result<(), Fail> {
    let alloc = rt.alloc();
    let mut text = String::new(alloc);
    for number in 1..17 {
        let header = format!(in alloc; "session {number}\nA;\n")?;
        text.push_str(header.as_str())?;
    }
    assert_eq!(rt; blocks_in(alloc, text.as_bytes()), Ok(16));
    let len = text.len();
    text.push_str("session 17\n")?;
    let fault = ScriptFault::BadScript { at: len as u64 };
    assert_eq!(rt; blocks_in(alloc, text.as_bytes()), Err(fault));
    Ok(())
}
