// Worked examples from outside, and that each call succeeds with ample memory.
use row_types::{
    BlockEnd, Items, Name, PlacedText, Row, Schema, SchemaFault, SlotFault, TableDef, Text,
    Transaction, TryCopy, Value, schema_texts_are_short,
};
use sql_parse::{Statement, parse};
use std::alloc::Global;
use std::test::Fail;

/// The definition that a CREATE TABLE has.
pub(crate) fn table(alloc: Global, text: &str) -> Result<TableDef, Fail> {
    if text.len() > 1000 {
        return Err(Fail::from("the text is too long"));
    }
    match parse(alloc, text, 0) {
        Ok(Statement::Create(table)) => Ok(table),
        _ => Err(Fail::from("no table is defined")),
    }
}

fn pair(alloc: Global, number: i64, text: &str) -> Result<Row, Fail> {
    let mut values = Vec::new(alloc);
    values.push(Value::Int(number))?;
    values.push(Value::Text(Text::new(alloc, text)?))?;
    Ok(Row::from_vec(values))
}

#[test]
fn names_have_1_to_32_bytes(rt: HostRuntime) -> Result<(), Fail> {
    for (text, good) in [
        ("", false),
        ("é", true),
        ("abcdefghijklmnopqrstuvwxyz012345", true),
        ("abcdefghijklmnopqrstuvwxyz0123456", false),
        ("ééééééééééééééééé", false),
    ] {
        assert_eq!(rt; Name::new(rt.alloc(), text)?.is_some(), good, "{text}");
    }
    Ok(())
}

/// A table of 33 columns.
const MANY: &str = "CREATE TABLE z (\
    id INT, id INT, id INT, id INT, id INT, id INT, id INT, id INT, id INT, id INT, id INT, \
    id INT, id INT, id INT, id INT, id INT, id INT, id INT, id INT, id INT, id INT, id INT, \
    id INT, id INT, id INT, id INT, id INT, id INT, id INT, id INT, id INT, id INT, id INT)";

#[test]
fn tables_are_refused_in_order(rt: HostRuntime) -> Result<(), Fail> {
    let no_key = Some(SchemaFault::NoKey);
    let mut schema = Schema::empty(rt.alloc());
    for (text, want) in [
        ("CREATE TABLE kv (id INT PRIMARY KEY, n INT)", None),
        (
            "CREATE TABLE kv (id INT, id INT)",
            Some(SchemaFault::TableExists),
        ),
        ("CREATE TABLE x (t TEXT(3))", no_key),
        ("CREATE TABLE x (t TEXT(3) PRIMARY KEY)", no_key),
        (
            "CREATE TABLE x (id INT PRIMARY KEY, n INT PRIMARY KEY)",
            no_key,
        ),
        (
            "CREATE TABLE y (id INT PRIMARY KEY, t TEXT(4093))",
            Some(SchemaFault::TooWide { bytes: 4104 }),
        ),
        (
            "CREATE TABLE y (id INT PRIMARY KEY, t TEXT(4086))",
            Some(SchemaFault::TooWide { bytes: 4097 }),
        ),
        (
            "CREATE TABLE z (id INT, n INT, t TEXT(3), n INT, id INT)",
            Some(SchemaFault::SameName { place: 3 }),
        ),
        (MANY, Some(SchemaFault::Columns { count: 33 })),
        ("CREATE TABLE KV (id INT PRIMARY KEY, t TEXT(4085))", None),
        ("CREATE TABLE a (id INT PRIMARY KEY)", None),
        ("CREATE TABLE b (id INT PRIMARY KEY)", None),
        ("CREATE TABLE c (id INT PRIMARY KEY)", None),
        ("CREATE TABLE d (id INT PRIMARY KEY)", None),
        ("CREATE TABLE e (id INT PRIMARY KEY)", None),
        ("CREATE TABLE f (id INT PRIMARY KEY)", None),
        ("CREATE TABLE g (id INT PRIMARY KEY)", None),
        ("CREATE TABLE h (id INT PRIMARY KEY)", None),
        ("CREATE TABLE i (id INT PRIMARY KEY)", None),
        ("CREATE TABLE j (id INT PRIMARY KEY)", None),
        ("CREATE TABLE k (id INT PRIMARY KEY)", None),
        ("CREATE TABLE l (id INT PRIMARY KEY)", None),
        ("CREATE TABLE m (id INT PRIMARY KEY)", None),
        ("CREATE TABLE o (id INT PRIMARY KEY)", None),
        (MANY, Some(SchemaFault::Tables { limit: 16 })),
    ] {
        let made = table(rt.alloc(), text)?;
        assert_eq!(rt; schema.add(made).err(), want, "{text}");
    }
    assert_eq!(rt; schema.copy()?.tables().len(), 16);
    Ok(())
}

/// A table with a whole number and a text of at most three bytes.
fn small(alloc: Global) -> Result<Schema, Fail> {
    let mut schema = Schema::empty(alloc);
    schema.add(table(alloc, "CREATE TABLE kv (id INT PRIMARY KEY, t TEXT(3))")?)?;
    Ok(schema)
}

#[test]
fn rows_fit_by_the_length_of_their_texts(rt: HostRuntime) -> Result<(), Fail> {
    let schema = small(rt.alloc())?;
    assert_eq!(rt; schema.tables().len(), 1);
    assert_eq!(rt; schema.slots(0), 256);
    for (text, good) in [
        ("", true),
        ("abc", true),
        ("abcd", false),
        ("éé", false),
        ("é", true),
    ] {
        let row = pair(rt.alloc(), 7, text)?;
        assert_eq!(rt; schema.fits(0, &row), good, "{text}");
    }
    Ok(())
}

/// The slot of -2 and 'é'.
const SLOT: [u8; 16] = [
    1, 0xfe, 0xff, 0xff, 0xff, 0xff, 0xff, 0xff, 0xff, 2, 0, 0xc3, 0xa9, 0, 0, 0,
];

#[test]
fn a_row_is_written_and_read_to_the_byte(rt: HostRuntime) -> Result<(), Fail> {
    let schema = small(rt.alloc())?;
    assert_eq!(rt; schema.tables().len(), 1);
    assert_eq!(rt; schema.slot_len(0), 16);
    let row = pair(rt.alloc(), -2, "é")?.copy()?;
    assert!(rt; schema.fits(0, &row));
    let mut slot = [9u8; 16];
    schema.encode(0, &row, &mut slot);
    assert_eq!(rt; slot, SLOT);
    let read = schema.decode(rt.alloc(), 0, &slot)?.ok_or("no row")?;
    assert_eq!(rt; read.as_slice(), row.as_slice());
    let keys = schema.key_values(rt.alloc(), 0, &row)?.copy()?;
    assert_eq!(rt; keys.as_slice(), [-2].as_slice());
    Ok(())
}

#[test]
fn each_fault_of_a_slot_has_its_place(rt: HostRuntime) -> Result<(), Fail> {
    let schema = small(rt.alloc())?;
    assert_eq!(rt; schema.tables().len(), 1);
    assert_eq!(rt; schema.slot_len(0), 16);
    for (place, byte, at) in [
        (0usize, 2u8, 0),
        (0, 0, 1),
        (9, 4, 9),
        (10, 1, 9),
        (9, 1, 11),
        (11, 0x80, 11),
        (13, 1, 13),
        (14, 255, 14),
        (15, 1, 15),
    ] {
        let mut slot = SLOT;
        slot[place % 16] = byte;
        let read = schema.decode(rt.alloc(), 0, &slot);
        assert_eq!(rt; read.err(), Some(SlotFault::BadSlot { at }), "{place}");
    }
    assert!(rt; schema.decode(rt.alloc(), 0, &[0; 16])?.is_none());
    assert_eq!(rt; schema.slot_fault(0, &SLOT), None);
    Ok(())
}

/// A table with a text that has words of padding behind it.
fn wide(alloc: Global) -> Result<Schema, Fail> {
    let mut schema = Schema::empty(alloc);
    schema.add(table(alloc, "CREATE TABLE kv (id INT PRIMARY KEY, t TEXT(40))")?)?;
    Ok(schema)
}

#[test]
fn each_byte_of_a_padding_is_looked_at(rt: HostRuntime) -> Result<(), Fail> {
    let schema = wide(rt.alloc())?;
    assert_eq!(rt; schema.tables().len(), 1);
    assert_eq!(rt; schema.slot_len(0), 51);
    let row = pair(rt.alloc(), 7, "abc")?;
    assert!(rt; schema.fits(0, &row));
    let mut whole = [9u8; 51];
    schema.encode(0, &row, &mut whole);
    assert_eq!(rt; schema.slot_fault(0, &whole), None);
    for place in 14..51usize {
        let mut slot = whole;
        slot[place % 51] = 1;
        assert_eq!(rt; schema.slot_fault(0, &slot), Some(place as u64));
    }
    Ok(())
}

#[test]
fn tables_and_columns_are_found_by_their_names(rt: HostRuntime) -> Result<(), Fail> {
    let mut schema = wide(rt.alloc())?;
    schema.add(table(
        rt.alloc(),
        "CREATE TABLE KV (a INT, id INT PRIMARY KEY, T INT)",
    )?)?;
    assert_eq!(rt; schema.tables().len(), 2);
    for (name, number) in [("kv", Some(0)), ("KV", Some(1)), ("Kv", None), ("", None)] {
        assert_eq!(rt; schema.find_table(name), number, "{name}");
    }
    for (number, name, column) in [
        (0, "id", Some(0)),
        (0, "t", Some(1)),
        (0, "T", None),
        (1, "id", Some(1)),
        (1, "T", Some(2)),
        (1, "t", None),
    ] {
        assert_eq!(rt; schema.find_column(number, name), column, "{name}");
    }
    Ok(())
}

#[test]
fn a_schema_is_written_and_read_to_the_byte(rt: HostRuntime) -> Result<(), Fail> {
    let schema = small(rt.alloc())?;
    let mut into = [7u8; 18_993];
    let _ = schema.tables();
    schema_texts_are_short();
    assert_eq!(rt; schema.write_schema(&mut into), 15);
    assert_eq!(rt;
        into[..16],
        b"\x01\x02kv\x02\x00\x02id\x01\x01t\x02\x03\x00\x07"[..]
    );
    let read = Schema::read_schema(rt.alloc(), 1, &into[..15])?.ok_or("no schema")?;
    assert_eq!(rt; read.tables().len(), 1);
    Ok(())
}

#[test]
fn other_bytes_are_no_schema(rt: HostRuntime) -> Result<(), Fail> {
    for (bytes, good) in [
        (b"".as_slice(), false),
        (b"\x00", true),
        (b"\x01\x02kv\x01\x00\x02id\x01", true),
        (b"\x01\x02kv\x01\x00\x02id", false),
        (b"\x01\x02kv\x01\x00\x02id\x01\x00", false),
        (b"\x01\x02kv\x01\x01\x02id\x01", false),
        (b"\x01\x02kv\x01\x00\x02id\x03", false),
        (b"\x01\x02k\xff\x01\x00\x02id\x01", false),
        (b"\x01\x00\x01\x00\x02id\x01", false),
    ] {
        let read = Schema::read_schema(rt.alloc(), 1, bytes)?;
        assert_eq!(rt; read.is_some(), good, "{bytes:?}");
    }
    Ok(())
}

#[test]
fn statements_keep_text_and_place(rt: HostRuntime) -> Result<(), Fail> {
    let alloc = rt.alloc();
    let text = Text::new(alloc, "COMMIT")?;
    assert!(rt; text.as_str().len() < 7);
    let mut statements = Items::new(alloc);
    statements.push(PlacedText::new(5, text.copy()?))?;
    let end = BlockEnd::Rollback;
    let block = Transaction { statements, end }.copy()?;
    assert_eq!(rt; block.end, end);
    let kept = block.statements.into_vec();
    assert_eq!(rt; kept.len(), 1);
    assert_eq!(rt; kept[0].base(), 5);
    assert_eq!(rt; *kept[0].text(), text);
    Ok(())
}
