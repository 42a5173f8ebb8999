// What no clause says: that a sink with ample room takes each text, and where one fails.
use disk_core::FileName;
use io_edge::{Failed, MemSink, Sink};
use plain_model::{Refusal, Reply, Resource};
use reply_text::{Fault, Place, Printer, reply_into};
use row_types::{Items, Name, OutOfMemory, Row, Text, Value};
use std::alloc::Global;
use std::test::Fail;

// A sink that has ample room and never fails.
pub(crate) fn roomy(alloc: Global) -> Result<MemSink, OutOfMemory> {
    let room = Vec::with_capacity(alloc, 100_000)?;
    Ok(MemSink::with_room(room, Vec::new(alloc)))
}

fn refused(alloc: Global, refusal: Refusal) -> Result<MemSink, Fail> {
    let mut sink = roomy(alloc)?;
    reply_into(&mut sink, &Reply::Refused(refusal))?;
    Ok(sink)
}

#[test]
fn each_refusal_has_its_text(rt: HostRuntime) -> Result<(), Fail> {
    let alloc = rt.alloc();
    let key = Items::from_vec(Vec::from_slice(alloc, &[1, -2])?);
    let one = Items::from_vec(Vec::from_slice(alloc, &[-9223372036854775808])?);
    let rows = [
        (Refusal::Syntax { at: 10 }, "refused SYNTAX 10\n"),
        (Refusal::InBlock, "refused IN BLOCK\n"),
        (Refusal::NoBlock, "refused NO BLOCK\n"),
        (Refusal::OnlyFirst, "refused ONLY FIRST\n"),
        (Refusal::NoTable, "refused NO TABLE\n"),
        (Refusal::NoColumn, "refused NO COLUMN\n"),
        (Refusal::Kind, "refused KIND\n"),
        (Refusal::Order, "refused ORDER\n"),
        (Refusal::KeyFixed, "refused KEY FIXED\n"),
        (Refusal::Twice, "refused TWICE\n"),
        (
            Refusal::Count {
                given: 3,
                wanted: 2,
            },
            "refused COUNT 3 2\n",
        ),
        (
            Refusal::Length { given: 4, limit: 3 },
            "refused LENGTH 4 3\n",
        ),
        (Refusal::Duplicate { key }, "refused DUPLICATE 1 -2\n"),
        (
            Refusal::Duplicate { key: one },
            "refused DUPLICATE -9223372036854775808\n",
        ),
        (Refusal::Range, "refused RANGE\n"),
        (Refusal::TableExists, "refused TABLE EXISTS\n"),
        (Refusal::Tables { limit: 16 }, "refused TABLES 16\n"),
        (Refusal::Columns { count: 33 }, "refused COLUMNS 33\n"),
        (Refusal::SameName { place: 1 }, "refused SAME NAME 1\n"),
        (Refusal::NoKey, "refused NO KEY\n"),
        (Refusal::TooWide { bytes: 4104 }, "refused TOO WIDE 4104\n"),
        (
            Refusal::Resource(Resource::Pages { used: 1, limit: 2 }),
            "refused PAGES FULL 1 2\n",
        ),
        (
            Refusal::Resource(Resource::Nodes {
                used: 16,
                limit: 17,
            }),
            "refused NODES FULL 16 17\n",
        ),
        (
            Refusal::Resource(Resource::Txn {
                used: 3114,
                limit: 4096,
            }),
            "refused TXN FULL 3114 4096\n",
        ),
        (
            Refusal::Resource(Resource::Locks {
                held: 1024,
                limit: 1025,
            }),
            "refused LOCKS FULL 1024 1025\n",
        ),
        (
            Refusal::Resource(Resource::LogFull { bytes: 5, limit: 6 }),
            "refused LOG FULL 5 6\n",
        ),
        (
            Refusal::Resource(Resource::Busy { oldest: 2 }),
            "refused BUSY 2\n",
        ),
        (
            Refusal::Spent {
                limit: 18446744073709551615,
            },
            "refused SPENT 18446744073709551615\n",
        ),
    ];
    for (refusal, wants) in rows {
        let sink = refused(alloc, refusal)?;
        assert_eq!(rt; sink.bytes(), wants.as_bytes(), "{wants}");
    }
    Ok(())
}

fn row(alloc: Global, number: i64, text: &str) -> Result<Row, OutOfMemory> {
    let mut values = Items::new(alloc);
    values.push(Value::Int(number))?;
    values.push(Value::Text(Text::new(alloc, text)?))?;
    Ok(values)
}

fn some_rows(alloc: Global) -> Result<Reply, OutOfMemory> {
    let mut rows = Items::new(alloc);
    rows.push(row(alloc, -1, "it's 'tea'")?)?;
    rows.push(row(alloc, 9223372036854775807, "")?)?;
    rows.push(row(alloc, 0, "'\u{e9}', ")?)?;
    rows.push(Items::new(alloc))?;
    Ok(Reply::Rows(rows))
}

#[test]
fn each_reply_has_its_text(rt: HostRuntime) -> Result<(), Fail> {
    let alloc = rt.alloc();
    let rows = [
        (Reply::Done, "ok\n"),
        (Reply::Many(0), "ok 0\n"),
        (Reply::Many(1000), "ok 1000\n"),
        (Reply::Opened(7), "ok 7\n"),
        (Reply::Rows(Items::new(alloc)), "rows 0\n"),
        (
            some_rows(alloc)?,
            "-1, 'it''s ''tea'''\n9223372036854775807, ''\n0, '''\u{e9}'', '\n\nrows 4\n",
        ),
    ];
    for (reply, wants) in rows {
        let mut sink = roomy(alloc)?;
        reply_into(&mut sink, &reply)?;
        assert_eq!(rt; sink.bytes(), wants.as_bytes(), "{wants}");
    }
    Ok(())
}

fn last_line(alloc: Global, fault: Fault) -> Result<MemSink, Fail> {
    let mut sink = roomy(alloc)?;
    let mut printer = Printer::new();
    printer.last_line(&mut sink, fault);
    printer.finish(&mut sink)?;
    Ok(sink)
}

#[test]
fn each_fault_has_its_last_line(rt: HostRuntime) -> Result<(), Fail> {
    let even = FileName::Lane {
        lane: 0,
        odd: false,
    };
    let odd = FileName::Lane { lane: 7, odd: true };
    let slot = Place::Slot {
        table: 1,
        page: 2,
        slot: 3,
    };
    let rows = [
        (Fault::Usage, "fault USAGE\n"),
        (Fault::OutOfMemory, "fault MEMORY\n"),
        (Fault::Disk(FileName::AreaA), "fault DISK area.a\n"),
        (Fault::Disk(FileName::AreaB), "fault DISK area.b\n"),
        (Fault::Disk(even), "fault DISK lane0.even\n"),
        (Fault::Disk(odd), "fault DISK lane7.odd\n"),
        (Fault::Source, "fault SOURCE\n"),
        (Fault::Script { at: 26 }, "fault SCRIPT 26\n"),
        (
            Fault::Damaged(Place::File { file: even, at: 11 }),
            "fault DAMAGED lane0.even 11\n",
        ),
        (Fault::Damaged(slot), "fault DAMAGED slot 1 2 3\n"),
        (
            Fault::Damaged(Place::SameKey { table: 0, key: -5 }),
            "fault DAMAGED key 0 -5\n",
        ),
        (Fault::NoBase, "fault NO BASE\n"),
        (Fault::Exists, "fault EXISTS\n"),
        (
            Fault::Lanes {
                given: 2,
                wanted: 4,
            },
            "fault LANES 2 4\n",
        ),
    ];
    for (fault, wants) in rows {
        let sink = last_line(rt.alloc(), fault)?;
        assert_eq!(rt; sink.bytes(), wants.as_bytes(), "{wants}");
    }
    Ok(())
}

#[test]
fn headers_and_stops_are_printed(rt: HostRuntime) -> Result<(), Fail> {
    let Some(name) = Name::new(rt.alloc(), "kv")? else {
        return Err(Fail::from("the name is refused"));
    };
    let mut sink = roomy(rt.alloc())?;
    let mut printer = Printer::new();
    printer.header(&mut sink, None);
    printer.reply(&mut sink, &Reply::Done);
    printer.header(&mut sink, Some(1));
    printer.stopped(&mut sink);
    printer.header(&mut sink, Some(16));
    printer.stopped_for_memory(&mut sink);
    printer.table(&mut sink, &name);
    assert_eq!(rt; sink.bytes(), b"".as_slice());
    printer.finish(&mut sink)?;
    let wants = "setup\nok\nsession 1\nstopped\nsession 16\nstopped MEMORY\ntable kv\n";
    assert_eq!(rt; sink.bytes(), wants.as_bytes());
    Ok(())
}

// A reply of one text of so many bytes, which is printed with two quotes and a line end more, and `rows 1`.
fn long(alloc: Global, len: usize) -> Result<Reply, OutOfMemory> {
    let mut text = String::new(alloc);
    for _ in 0..len {
        text.push('x')?;
    }
    let mut values = Items::new(alloc);
    values.push(Value::Text(Text::from_string(text)))?;
    let mut rows = Items::new(alloc);
    rows.push(values)?;
    Ok(Reply::Rows(rows))
}

#[test]
fn a_sink_that_fails_takes_a_front(rt: HostRuntime) -> Result<(), Fail> {
    let alloc = rt.alloc();
    // 9,000 bytes are three pages: the second push fails.
    let reply = long(alloc, 8990)?;
    let room = Vec::with_capacity(alloc, 100_000)?;
    let mut sink = MemSink::with_room(room, Vec::from_slice(alloc, &[2])?);
    let printed = reply_into(&mut sink, &reply);
    assert_eq!(rt; printed, Err(Failed));
    assert_eq!(rt; sink.bytes().len(), 4096);
    // A sink with room for 100 bytes takes no page of the text.
    let mut small = MemSink::with_room(Vec::with_capacity(alloc, 100)?, Vec::new(alloc));
    assert_eq!(rt; reply_into(&mut small, &reply), Err(Failed));
    let mut ample = roomy(alloc)?;
    reply_into(&mut ample, &reply)?;
    assert_eq!(rt; ample.bytes().len(), 9000);
    Ok(())
}
