// The sections of a text, and what is in them.
ghost use Rattle.std.specs.Prelude.{◌≡◌, ℕ, ◌+◌, ◌<◌, ◌≤◌, ◌^◌, List, length, drop, IfOk, IfErr};
ghost use Rattle.row_types.specs.Block.{Placed};
ghost use Rattle.script.specs.Blocks.{AreBlocks};
ghost use Rattle.script.specs.Building.{Adds, Has};
ghost use Rattle.script.specs.Faults.{IfBad};
ghost use Rattle.script.specs.Headers.{BeginsSection, StartsSection};
ghost use Rattle.script.specs.Lines.{Header, Setup, lines};
ghost use Rattle.script.specs.Reached.{BreaksSection, HasSection, HasSetup, IsBadSession};
ghost use Rattle.script.specs.Script.{BreaksFirstAt, IsNoScript, IsScript, numbered};
ghost use Rattle.script.specs.Statements.{AreStatements, BreaksAt, IsEmpty};

use crate::building::Builder;
use crate::line::{begins_session, begins_setup, first_unblank, front_len, line_len};
use crate::scanning::{StatementEnd, statement_end};
use crate::{OutOfMemory, Script, ScriptFault, Section};
use row_types::{Block, Items, PlacedText, Text};
use sql_lex::is_empty;
use std::alloc::Global;

/// The greatest length of a script, in bytes.
pub const MAX_SCRIPT: usize = 67_108_864;

/// The greatest number of a session.
pub const MAX_SESSIONS: usize = 16;

/// The script that the bytes are.
///
/// `BadScript` comes exactly where they are none, with the
/// first of these: they are longer than a script may be, with
/// `MAX_SCRIPT`; they aren't UTF-8, with the length of the longest front that is; and then from the left the
/// first byte before all headers that isn't blank, a header out of order or above 16, a line end in a
/// literal, or the end of a section that ends inside a statement.
pub fn split(alloc: Global, bytes: &[u8]) -> Result<Script, ScriptFault>
    ensures script { IfOk result (λ script. IsScript bytes.now script) }
    ensures fault { IfErr result (λ fault. IfBad fault (IsNoScript bytes.now)) }
{
    if bytes.len() > MAX_SCRIPT {
        return Err(ScriptFault::BadScript {
            at: MAX_SCRIPT as u64,
        });
    }
    match str::from_utf8(bytes) {
        Ok(text) => script_of(alloc, text),
        Err(fault) => Err(ScriptFault::BadScript {
            at: fault.valid_up_to() as u64,
        }),
    }
}

// The script that the text is.
fn script_of(alloc: Global, text: &str) -> Result<Script, ScriptFault>
    requires short { length text.now ≤ MAX_SCRIPT }
    ensures script { IfOk result (λ script. IsScript text.now script) }
    ensures fault { IfErr result (λ fault. IfBad fault (BreaksFirstAt text.now)) }
{
    let front = front_len(text.as_bytes());
    if let Some(at) = first_unblank(&text.as_bytes()[..front]) {
        return Err(ScriptFault::BadScript { at: at as u64 });
    }
    let (setup, mut at) = setup_of(alloc, text, front)?;
    let mut sessions = Items::new(alloc);
    while at < text.len() {
        let (session, end) = session_at(alloc, text, at, sessions.len() + 1)?;
        sessions.push(session)?;
        at = end;
    }
    Ok(Script { setup, sessions })
}

// The setup of a text whose first header begins at `at`, where it is one, and the place behind it.
fn setup_of(alloc: Global, text: &str, at: usize) -> Result<(Option<Section>, usize), ScriptFault>
    requires short { length text.now ≤ MAX_SCRIPT }
    requires inside { at ≤ length text.now }
    requires starts { StartsSection (lines (drop at text.now)) }
    ensures setup { IfOk result (λ found. HasSetup text.now at found.1 found.0) }
    ensures fault { IfErr result (λ fault. IfBad fault (BreaksSection text.now at Setup)) }
{
    if !begins_setup(&text.as_bytes()[at..]) {
        return Ok((None, at));
    }
    let (setup, end) = section_at(alloc, text, at)?;
    Ok((Some(setup), end))
}

// The session of this number, whose header begins at `at`, and the place behind it.
fn session_at(
    alloc: Global,
    text: &str,
    at: usize,
    number: usize,
) -> Result<(Section, usize), ScriptFault>
    requires short { length text.now ≤ MAX_SCRIPT }
    requires some { 1 ≤ number }
    requires inside { at < length text.now }
    requires starts { StartsSection (lines (drop at text.now)) }
    ensures session { IfOk result (λ found. HasSection text.now at found.1 (numbered number) found.0) }
    ensures number { IfOk result (λ _. number ≤ 16) }
    ensures fault { IfErr result (λ fault. IfBad fault (IsBadSession text.now at number)) }
{
    let misplaced = ScriptFault::BadScript { at: at as u64 };
    if number > MAX_SESSIONS {
        return Err(misplaced);
    }
    if !begins_session(&text.as_bytes()[at..], number) {
        return Err(misplaced);
    }
    section_at(alloc, text, at)
}

// The section whose header's line begins at `at`, and the place behind it.
fn section_at(alloc: Global, text: &str, at: usize) -> Result<(Section, usize), ScriptFault>
    requires short { length text.now ≤ MAX_SCRIPT }
    requires inside { at < length text.now }
    requires starts { StartsSection (lines (drop at text.now)) }
    ensures section { (header : Header) → BeginsSection (lines (drop at text.now)) header
        → IfOk result (λ found. HasSection text.now at found.1 header found.0) }
    ensures fault { (header : Header) → BeginsSection (lines (drop at text.now)) header
        → IfErr result (λ fault. IfBad fault (BreaksSection text.now at header)) }
{
    let base = at + line_len(&text.as_bytes()[at..]);
    let end = base + front_len(&text.as_bytes()[base..]);
    let blocks = blocks_of(alloc, &text[base..end], base as u64)?;
    Ok((Section { blocks }, end))
}

// The blocks of a section's text, which begins at the place `base`.
fn blocks_of(alloc: Global, text: &str, base: u64) -> Result<Items<Block>, ScriptFault>
    requires { base + length text.now < 2 ^ 63 }
    ensures blocks { IfOk result
        (λ blocks. (statements : List Placed) × AreStatements base text.now statements
        × AreBlocks blocks statements) }
    ensures fault { IfErr result (λ fault. IfBad fault (BreaksAt base text.now)) }
{
    let mut builder = Builder::new(alloc);
    let mut at = 0;
    while at < text.len() {
        match statement_end(&text.as_bytes()[at..]) {
            StatementEnd::Semicolon(len) => {
                let place = base + at as u64;
                builder = with_statement(alloc, builder, &text[at..at + len], place)?;
                at += len + 1;
            }
            StatementEnd::LineEnd(len) => {
                return Err(ScriptFault::BadScript {
                    at: base + (at + len) as u64,
                });
            }
            StatementEnd::TextEnd => {
                return last_blocks(builder, &text[at..], base + text.len() as u64);
            }
        }
    }
    Ok(builder.finish()?)
}

// The blocks with one more statement, which is skipped where it is empty.
fn with_statement(
    alloc: Global,
    builder: Builder,
    text: &str,
    base: u64,
) -> Result<Builder, OutOfMemory>
    requires { base + length text.now < 2 ^ 63 }
    ensures { IfOk result (Adds (record { base = base; text = text.now }) builder) }
{
    if is_empty(text) {
        return Ok(builder);
    }
    let statement = PlacedText::new(base, Text::new(alloc, text)?);
    builder.with(alloc, statement)
}

// The blocks of a section of which this text is left, without a semicolon, up to the place `end`.
fn last_blocks(builder: Builder, rest: &str, end: u64) -> Result<Items<Block>, ScriptFault>
    ensures empty { IfOk result (λ _. IsEmpty rest.now) }
    ensures blocks { (statements : List Placed) → Has builder statements
        → IfOk result (λ blocks. AreBlocks blocks statements) }
    ensures fault { IfErr result (λ fault. IfBad fault (λ at. (IsEmpty rest.now → ⊥) × (at ≡ end))) }
{
    if is_empty(rest) {
        Ok(builder.finish()?)
    } else {
        Err(ScriptFault::BadScript { at: end })
    }
}
