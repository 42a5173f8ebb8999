// ORDER BY .. DESC LIMIT n: the last rows of a range that pass, looked for from its upper end on.
//
// Rows are read in rising order alone. So the range is read in windows, the uppermost first. The first has as
// many keys as rows are wanted, and each has twice as many as the one above it: a stretch without keys,
// however long, takes few. A window of which the first piece isn't all, as the first one below such a stretch,
// is given up for its upper half, but not more often than a key has bits. So no row is read twice, but for the
// pieces of windows that were given up, and there are some 200 windows at most.
ghost use Rattle.std.specs.Prelude.{◌≡◌, ◌<◌, ◌≤◌, ◌-◌, ◌++◌, length, IfOk, IfSome, OnOk, Ok, None};
ghost use Rattle.key_space.specs.Plays.{Rows};
ghost use Rattle.key_space.specs.Ranges.{IsNotEmpty};
ghost use Rattle.row_types.specs.Schema.{keys_at};
ghost use Rattle.sql_exec.specs.declared.window.Width.{Width};
ghost use Rattle.sql_exec.specs.declared.window.Window.TheVariants.{GivenUp};
ghost use Rattle.sql_exec.specs.Bodies.{CanRead};
ghost use Rattle.sql_exec.specs.Parts.{Reads};
ghost use Rattle.sql_exec.specs.Windows.{FoundLast, WindowEnds, last_shown};

use crate::OutOfMemory;
use crate::values::{in_columns, passes_all};
use crate::window::{Part, Width, Window};
use key_space::{Key, Range};
use plain_model::{RowCalls, Stop};
use row_types::{Items, Row};
use sql_check::SelectPlan;
use std::alloc::Global;
use std::collections::VecDeque;

/// Puts what is shown of the rows that pass in front of what was found, the last row first, and keeps the first
/// so many.
fn collect_last(
    alloc: Global,
    p: &SelectPlan,
    wanted: u64,
    piece: Items<Row>,
    found: &mut VecDeque<Row>,
) -> Result<(), OutOfMemory>
    ensures { (before : Rows) → found.old.items ≡ last_shown p.now wanted before
        → OnOk result (found.new.items ≡ last_shown p.now wanted (before ++ piece)) }
{
    for row in piece.into_vec() {
        if passes_all(p.conditions.as_slice(), &row) {
            found.push_front(in_columns(alloc, p.columns.as_slice(), row)?)?;
            found.truncate(wanted as usize);
        }
    }
    Ok(())
}

/// What is shown of the rows of a window that pass, the last row first, at most so many as are wanted. It is
/// given up behind its first piece where that isn't all and a narrower one may be tried.
fn last_in<R: RowCalls>(
    alloc: Global,
    rows: &mut R,
    p: &SelectPlan,
    window: Range,
    wanted: u64,
    width: Width,
) -> Result<Window, Stop>
    requires window { IsNotEmpty window }
    requires can { CanRead (R.calls rows.old) p.now.table window.lo.number window.hi.number }
    ensures schema { R.defs rows.new ≡ R.defs rows.old }
    ensures read { Reads (R.defs rows.old) p.now.table
        (WindowEnds (keys_at (R.defs rows.old) p.now.table) window p.now wanted)
        (R.calls rows.old) result (R.calls rows.new) }
    ensures given_up { (next : Width) → result ≡ Ok (GivenUp next) → next.halvings < width.halvings }
{
    let mut found = VecDeque::new(alloc);
    let mut rest = window;
    loop {
        let piece = rows.chunk(p.table, rest)?;
        collect_last(alloc, p, wanted, piece.rows, &mut found)?;
        let Some(more) = rest.behind(piece.upto) else {
            return Ok(Window::Whole(found));
        };
        if let Some(next) = width.narrower() {
            return Ok(Window::GivenUp(next));
        }
        rest = more;
    }
}

/// Reads the rows of a window at the upper end of what is left of a range: of narrower and narrower ones where
/// they are given up.
fn last_part<R: RowCalls>(
    alloc: Global,
    rows: &mut R,
    p: &SelectPlan,
    rest: Range,
    wanted: u64,
    first: Width,
) -> Result<Part, Stop>
    requires rest { IsNotEmpty rest }
    requires can { CanRead (R.calls rows.old) p.now.table rest.lo.number rest.hi.number }
    ensures schema { R.defs rows.new ≡ R.defs rows.old }
    ensures read { Reads (R.defs rows.old) p.now.table
        (λ part. FoundLast (keys_at (R.defs rows.old) p.now.table) part.window p.now wanted part.found.items)
        (R.calls rows.old) result (R.calls rows.new) }
    ensures low { IfOk result (λ part. rest.lo.number ≤ part.window.lo.number) }
    ensures some { IfOk result (λ part. IsNotEmpty part.window) }
    ensures high { IfOk result (λ part. part.window.hi ≡ rest.hi) }
{
    let mut width = first;
    loop {
        let window = width.window(rest);
        match last_in(alloc, rows, p, window, wanted, width)? {
            Window::Whole(found) => {
                let next = width.next(found.is_empty());
                return Ok(Part {
                    window,
                    found,
                    next,
                });
            }
            Window::GivenUp(next) => width = next,
        }
    }
}

/// Adds the rows of a window behind those of the windows above it.
fn add(found: &mut Vec<Row>, part: VecDeque<Row>) -> Result<(), OutOfMemory>
    ensures { OnOk result (found.new.items ≡ found.old.items ++ part.items) }
{
    let mut part = part.into_vec();
    found.append(&mut part)?;
    Ok(())
}

/// How many rows are wanted yet. `None`: there are enough.
fn still_wanted(limit: u64, found: &[Row]) -> Option<u64>
    ensures some { IfSome result (λ wanted. (wanted ≡ limit - length found.now) × (1 ≤ wanted)) }
    ensures none { result ≡ None → limit ≤ length found.now }
{
    let count = found.len() as u64;
    if limit <= count {
        return None;
    }
    Some(limit - count)
}

/// What is shown of the rows of a range that pass, the last row first, at most `limit`.
pub(crate) fn last_found<R: RowCalls>(
    alloc: Global,
    rows: &mut R,
    p: &SelectPlan,
    range: Range,
    limit: u64,
) -> Result<Vec<Row>, Stop>
    requires range { IsNotEmpty range }
    requires can { CanRead (R.calls rows.old) p.now.table range.lo.number range.hi.number }
    ensures schema { R.defs rows.new ≡ R.defs rows.old }
    ensures read { Reads (R.defs rows.old) p.now.table
        (λ found. FoundLast (keys_at (R.defs rows.old) p.now.table) range p.now limit found.items)
        (R.calls rows.old) result (R.calls rows.new) }
{
    let mut found = Vec::new(alloc);
    let mut rest = range;
    let mut width = Width::of(limit);
    loop {
        let Some(wanted) = still_wanted(limit, found.as_slice()) else {
            return Ok(found);
        };
        let part = last_part(alloc, rows, p, rest, wanted, width)?;
        add(&mut found, part.found)?;
        if part.window.lo == rest.lo {
            return Ok(found);
        }
        width = part.next;
        rest.hi = Key {
            number: part.window.lo.number - 1,
        };
    }
}
