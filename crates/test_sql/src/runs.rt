// Scripts that are read, run over plain lists of rows, and
// answered in print: what no clause says of the whole way.
use crate::replies::roomy;
use crate::scripts::shown;
use io_edge::MemSink;
use plain_model::{Reply, Tables, run_plain};
use reply_text::Printer;
use row_types::{Block, Schema, TableDef};
use script::{Script, Section, split};
use sql_parse::{Statement, parse};
use std::alloc::Global;
use std::test::Fail;

// A script with a comment, and with a CR before each line end.
const STOCK: &str = "setup\r\n\
    -- stock\r\n\
    CREATE TABLE item (id INT PRIMARY KEY, name VARCHAR(20), left_over INT);\r\n\
    INSERT INTO item VALUES (7, 'it''s tea', 12), (3, 'salt', -1);\r\n\
    session 1\r\n\
    SELECT name, left_over FROM item WHERE left_over > 0 ORDER BY id DESC;\r\n\
    UPDATE item SET left_over = left_over - 5, name = 'tea' WHERE id >= 4;\r\n\
    select * from item limit 1;\r\n\
    SELECT COUNT(*), SUM(left_over) FROM item;\r\n";

// The table that a block defines, where it is a CREATE that stands alone.
fn defined(alloc: Global, block: &Block) -> Option<TableDef> {
    let Block::Alone(statement) = block else {
        return None;
    };
    let base = statement.base();
    match parse(alloc, statement.text().as_str(), base) {
        Ok(Statement::Create(table)) => Some(table),
        _ => None,
    }
}

// The tables that the setup begins with, each answered by `ok`, and how many blocks they are.
fn created(
    alloc: Global,
    blocks: &[Block],
    printer: &mut Printer,
    sink: &mut MemSink,
) -> Result<(Schema, usize), Fail> {
    let mut schema = Schema::empty(alloc);
    for (i, block) in blocks.iter().enumerate() {
        let Some(table) = defined(alloc, block) else {
            return Ok((schema, i));
        };
        if schema.add(table).is_err() {
            return Err(Fail::from("a table is refused"));
        }
        printer.reply(sink, &Reply::Done);
    }
    Ok((schema, blocks.len()))
}

// Prints the replies to a block, and gives the tables behind it.
fn run_block(
    alloc: Global,
    tables: Tables,
    block: &Block,
    printer: &mut Printer,
    sink: &mut MemSink,
) -> Result<Tables, Fail> {
    let (replies, after) = run_plain(alloc, &tables, block)?;
    for reply in replies.as_slice() {
        printer.reply(sink, reply);
    }
    Ok(after)
}

// The same for blocks, one after the other.
fn run_blocks(
    alloc: Global,
    tables: Tables,
    blocks: &[Block],
    printer: &mut Printer,
    sink: &mut MemSink,
) -> Result<Tables, Fail> {
    let mut tables = tables;
    for block in blocks {
        tables = run_block(alloc, tables, block, printer, sink)?;
    }
    Ok(tables)
}

// Prints the setup, and gives the tables behind it.
fn run_setup(
    alloc: Global,
    setup: &Option<Section>,
    printer: &mut Printer,
    sink: &mut MemSink,
) -> Result<Tables, Fail> {
    let Some(section) = setup else {
        return Ok(Tables::new(alloc, Schema::empty(alloc))?);
    };
    printer.header(sink, None);
    let blocks = section.blocks.as_slice();
    let (schema, count) = created(alloc, blocks, printer, sink)?;
    let tables = Tables::new(alloc, schema)?;
    run_blocks(
        alloc,
        tables,
        blocks.get(count..).unwrap_or(&[]),
        printer,
        sink,
    )
}

// Prints a script's sections, run one after the other.
fn run_script(
    alloc: Global,
    script: &Script,
    printer: &mut Printer,
    sink: &mut MemSink,
) -> Result<(), Fail> {
    let mut tables = run_setup(alloc, &script.setup, printer, sink)?;
    for (i, session) in script.sessions.as_slice().iter().enumerate() {
        printer.header(sink, Some((i as u64).saturating_add(1)));
        tables = run_blocks(alloc, tables, session.blocks.as_slice(), printer, sink)?;
    }
    Ok(())
}

// What is printed for a text that is a script.
fn printed(alloc: Global, text: &str) -> Result<MemSink, Fail> {
    let Ok(script) = split(alloc, text.as_bytes()) else {
        return Err(Fail::from("the text is no script"));
    };
    let mut sink = roomy(alloc)?;
    let mut printer = Printer::new();
    let run = run_script(alloc, &script, &mut printer, &mut sink);
    let finished = printer.finish(&mut sink);
    run?;
    finished?;
    Ok(sink)
}

#[test]
fn scripts_are_read_run_and_answered(rt: HostRuntime) -> Result<(), Fail> {
    let rows = [
        (
            STOCK,
            "setup\nok\nok 2\n\
            session 1\n'it''s tea', 12\nrows 1\nok 1\n3, 'salt', -1\nrows 1\n2, 6\nrows 1\n",
        ),
        (
            "session 1\nSELEC * FROM kv;",
            "session 1\nrefused SYNTAX 10\n",
        ),
        (
            "session 1\nBEGIN;\nCOMMIT;\nCOMMIT;\n",
            "session 1\nok\nok\nrefused NO BLOCK\n",
        ),
    ];
    for (text, wants) in rows {
        let sink = printed(rt.alloc(), text)?;
        assert_eq!(rt; sink.bytes(), wants.as_bytes(), "{text}");
    }
    Ok(())
}

#[test]
fn a_usual_script_has_these_statements(rt: HostRuntime) -> Result<(), Fail> {
    let found = shown(rt.alloc(), STOCK.as_bytes())?;
    let wants = "setup \
        [7 -- stock\r\nCREATE TABLE item (id INT PRIMARY KEY, name VARCHAR(20), left_over INT)] \
        [89 \r\nINSERT INTO item VALUES (7, 'it''s tea', 12), (3, 'salt', -1)]\
        /session \
        [166 SELECT name, left_over FROM item WHERE left_over > 0 ORDER BY id DESC] \
        [236 \r\nUPDATE item SET left_over = left_over - 5, name = 'tea' WHERE id >= 4] \
        [308 \r\nselect * from item limit 1] \
        [337 \r\nSELECT COUNT(*), SUM(left_over) FROM item]";
    assert_eq!(rt; found.as_str(), wants);
    Ok(())
}
