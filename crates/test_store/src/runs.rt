// What no clause says: that a run has its answers where the source, the sink or the disk fails, and that
// there is memory for them; and what a run begins with after a crash.
use crate::program::{Ran, disk, failing, run, run_as, sink, words};
use disk_core::MemDisk;
use io_edge::MemSource;
use std::alloc::{AllocError, Global};
use std::test::Fail;

const SETUP: &str = "setup\nCREATE TABLE kv (id INT PRIMARY KEY, n INT);\n";

const PAIR: &str = "session 1\nINSERT INTO kv VALUES (1, 10);\nSELECT * FROM kv;\n";

const PAIR_SHOWN: &str = "setup\nok\nsession 1\nok 1\n1, 10\nrows 1\n";

/// Runs the pair, where these pulls and pushes fail.
fn run_pair(alloc: Global, pulls: &[u64], pushes: &[u64]) -> Result<Ran, Fail> {
    let script = format!(in alloc; "{SETUP}{PAIR}")?;
    let source = MemSource::new(script.as_bytes().to_vec(alloc)?, pulls.to_vec(alloc)?);
    let words = words(alloc, &["run", "folder"])?;
    run_as(
        alloc,
        &words,
        source,
        sink(alloc, 1000, pushes)?,
        disk(alloc, b"", 4000)?,
    )
}

#[test]
fn a_source_or_a_sink_that_fails(rt: HostRuntime) -> Result<(), Fail> {
    let rows = [
        ([1].as_slice(), [].as_slice(), 5, "fault SOURCE\n"),
        ([2].as_slice(), [].as_slice(), 5, "fault SOURCE\n"),
        ([].as_slice(), [1].as_slice(), 6, ""),
        ([1].as_slice(), [1].as_slice(), 5, ""),
        ([3].as_slice(), [2].as_slice(), 0, PAIR_SHOWN),
    ];
    for (pulls, pushes, status, shown) in rows {
        let ran = run_pair(rt.alloc(), pulls, pushes)?;
        assert_eq!(rt; ran.status, status);
        assert_eq!(rt; ran.sink.bytes(), shown.as_bytes());
    }
    Ok(())
}

/// A block, what it prints, how many change calls it makes, and what a look at the table shows after it.
#[derive(Clone, Copy)]
struct Step {
    block: &'static str,
    shown: &'static str,
    calls: u64,
    rows: &'static str,
}

/// Three blocks, each of which inserts a row.
const INSERTS: [Step; 3] = [
    Step {
        block: "INSERT INTO kv VALUES (1, 10);\n",
        shown: "ok 1\n",
        calls: 4,
        rows: "1, 10\nrows 1\n",
    },
    Step {
        block: "INSERT INTO kv VALUES (2, 20);\n",
        shown: "ok 1\n",
        calls: 4,
        rows: "1, 10\n2, 20\nrows 2\n",
    },
    Step {
        block: "INSERT INTO kv VALUES (3, 30);\n",
        shown: "ok 1\n",
        calls: 4,
        rows: "1, 10\n2, 20\n3, 30\nrows 3\n",
    },
];

/// Transactions, and blocks that change no row, over a file that has the row 1, 10.
const CHANGES: [Step; 6] = [
    Step {
        block: "INSERT INTO kv VALUES (2, 20), (1, 0);\n",
        shown: "refused DUPLICATE 1\n",
        calls: 0,
        rows: "1, 10\nrows 1\n",
    },
    Step {
        block: "BEGIN;\nINSERT INTO kv VALUES (2, 20), (3, 30);\nDELETE FROM kv WHERE id = 1;\nCOMMIT;\n",
        shown: "ok\nok 2\nok 1\nok\n",
        calls: 4,
        rows: "2, 20\n3, 30\nrows 2\n",
    },
    Step {
        block: "BEGIN;\nDELETE FROM kv;\nROLLBACK;\n",
        shown: "ok\nok 2\nok\n",
        calls: 0,
        rows: "2, 20\n3, 30\nrows 2\n",
    },
    Step {
        block: "UPDATE kv SET n = n + id WHERE id < 9;\n",
        shown: "ok 2\n",
        calls: 4,
        rows: "2, 22\n3, 33\nrows 2\n",
    },
    Step {
        block: "SELECT COUNT(*) FROM kv;\n",
        shown: "2\nrows 1\n",
        calls: 0,
        rows: "2, 22\n3, 33\nrows 2\n",
    },
    Step {
        block: "DELETE FROM kv WHERE n > 22;\n",
        shown: "ok 1\n",
        calls: 4,
        rows: "2, 22\nrows 1\n",
    },
];

/// A log with the row 1, 10.
const ONE: &[u8] = b"\x01\x02\0\0\0\0\0\0\0\0\0\
    \x01\x14\0\0\0\x01\0\0\x01\x01\0\0\0\0\0\0\0\x0a\0\0\0\0\0\0\0\0";

/// A run over a log file, in which a change call fails.
#[derive(Drop)]
struct Case {
    file: &'static [u8],
    /// What a look at the table shows at the start.
    rows: &'static str,
    /// How many change calls the opening makes.
    opening: u64,
    steps: &'static [Step],
}

/// What has to be shown, and which rows a later run may begin with.
#[derive(Drop)]
struct Wanted {
    shown: String,
    rows: &'static str,
    /// The rows after the block that was stopped, or `rows` again.
    next: &'static str,
}

impl Case {
    fn script(&self, alloc: Global) -> Result<String, AllocError> {
        let mut script = format!(in alloc; "{SETUP}session 1\n")?;
        for step in self.steps {
            script.push_str(step.block)?;
        }
        Ok(script)
    }

    /// What has to come where this change call fails: each block up to it is answered, and the others aren't.
    fn wanted(&self, alloc: Global, call: u64) -> Result<Wanted, AllocError> {
        if call <= self.opening {
            return Ok(Wanted {
                shown: String::from_str(alloc, "fault DISK lane0.even\n")?,
                rows: self.rows,
                next: self.rows,
            });
        }
        let mut shown = String::from_str(alloc, "setup\nok\nsession 1\n")?;
        let (mut rows, mut next) = (self.rows, self.rows);
        let (mut made, mut is_stopped) = (self.opening, false);
        for step in self.steps {
            made = made.saturating_add(step.calls);
            if is_stopped {
                shown.push_str("stopped\n")?;
            } else if call <= made && step.calls > 0 {
                is_stopped = true;
                next = step.rows;
                shown.push_str("stopped\n")?;
            } else {
                shown.push_str(step.shown)?;
                (rows, next) = (step.rows, step.rows);
            }
        }
        if is_stopped {
            shown.push_str("fault DISK lane0.even\n")?;
        }
        Ok(Wanted { shown, rows, next })
    }

    /// Runs it where this change call fails, and whether what a crash leaves then has the rows acknowledged,
    /// or those after the block that was stopped.
    fn is_borne(&self, alloc: Global, call: u64, choice: &[u8], whole: bool) -> Result<bool, Fail> {
        let wanted = self.wanted(alloc, call)?;
        let script = self.script(alloc)?;
        let ran = run(alloc, failing(alloc, self.file, call)?, script.as_str())?;
        if ran.sink.bytes() != wanted.shown.as_bytes() {
            return Ok(false);
        }
        let (least, most) = (ran.disk.least_size(), ran.disk.bytes().len() as u64);
        let size = if whole { most } else { least };
        let shown = looked(alloc, ran.disk.crash(choice, size))?;
        Ok(is_look(alloc, &shown, wanted.rows)? || is_look(alloc, &shown, wanted.next)?)
    }

    fn is_borne_always(&self, alloc: Global, call: u64) -> Result<bool, Fail> {
        for choice in [b"".as_slice(), b"\0", b"\x01", b"\xff"] {
            if !self.is_borne(alloc, call, choice, false)?
                || !self.is_borne(alloc, call, choice, true)?
            {
                return Ok(false);
            }
        }
        Ok(true)
    }
}

/// What a look at the table prints over a log file.
fn looked(alloc: Global, even: MemDisk) -> Result<Ran, Fail> {
    let script = format!(in alloc; "{SETUP}session 1\nSELECT * FROM kv;\n")?;
    run(alloc, even, script.as_str())
}

/// Whether a look has shown these rows.
fn is_look(alloc: Global, ran: &Ran, rows: &str) -> Result<bool, AllocError> {
    let wants = format!(in alloc; "setup\nok\nsession 1\n{rows}")?;
    Ok(ran.status == 0 && ran.sink.bytes() == wants.as_bytes())
}

#[test]
fn what_was_acknowledged_is_there_after_a_crash(rt: HostRuntime) -> Result<(), Fail> {
    let inserts = Case {
        file: b"",
        rows: "rows 0\n",
        opening: 6,
        steps: &INSERTS,
    };
    let changes = Case {
        file: ONE,
        rows: "1, 10\nrows 1\n",
        opening: 0,
        steps: &CHANGES,
    };
    for call in 1..20 {
        assert!(rt;
            inserts.is_borne_always(rt.alloc(), call)?,
            "inserts, {call} fails"
        );
        assert!(rt;
            changes.is_borne_always(rt.alloc(), call)?,
            "changes, {call} fails"
        );
    }
    Ok(())
}

#[test]
fn the_eleventh_change_call_fails(rt: HostRuntime) -> Result<(), Fail> {
    let alloc = rt.alloc();
    let script = format!(in alloc;
        "{SETUP}session 1\n\
        INSERT INTO kv VALUES (1, 10);\nINSERT INTO kv VALUES (2, 20);\nINSERT INTO kv VALUES (3, 30);\n"
    )?;
    let ran = run(alloc, failing(alloc, b"", 11)?, script.as_str())?;
    let wants = "setup\nok\nsession 1\nok 1\nstopped\nstopped\nfault DISK lane0.even\n";
    assert_eq!(rt; ran.status, 4);
    assert_eq!(rt; ran.sink.bytes(), wants.as_bytes());
    let later = looked(alloc, disk(alloc, ran.disk.bytes(), 4000)?)?;
    assert_eq!(rt;
        later.sink.bytes(),
        b"setup\nok\nsession 1\n1, 10\nrows 1\n".as_slice()
    );
    Ok(())
}
