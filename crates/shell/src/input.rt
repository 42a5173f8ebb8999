ghost use Rattle.std.specs.Prelude.{◌≡◌, ◌+◌, ◌<◌, ◌≤◌, length, IfOk, IfErr, OnOk, MatchBool, vec_len};
ghost use Rattle.io_edge.specs.Runs.{ReadsOn};
ghost use Rattle.shell.specs.Input.{HasEnded, IsInput, StopsWithin, WasRead, read_limit};

use io_edge::{Failed, Source};
use script::MAX_SCRIPT;
use std::alloc::{AllocError, Global};

const PIECE: usize = 16384;

/// Why the input wasn't read.
#[derive(Clone, Copy, Debug, PartialEq, Eq)]
pub(crate) enum InputFault {
    /// The source failed.
    Source,
    /// Memory ran out.
    OutOfMemory,
}

impl From<AllocError> for InputFault {
    ghost use Rattle.std.specs.Prelude.{◌≡◌};
    ghost use Rattle.shell.specs.declared.input.InputFault.TheVariants.{OutOfMemory};

    ghost from_gives = { λ _ e. e ≡ OutOfMemory };

    fn from(_: AllocError) -> InputFault {
        InputFault::OutOfMemory
    }
}

/// Reads a source to its end, or to one byte more than a script may have.
pub(crate) fn read_all<S: Source>(alloc: Global, source: &mut S) -> Result<Vec<u8>, InputFault>
    ensures read { OnOk result (WasRead S.Source source.old source.new) }
    ensures input { IfOk result (λ input. IsInput S.Source source.old input.items) }
    ensures stopped { IfErr result (λ fault. StopsWithin S.Source read_limit fault source.old source.new) }
{
    let mut piece = [0; PIECE];
    let mut input = Vec::new(alloc);
    while input.len() <= MAX_SCRIPT {
        let room = PIECE.min(MAX_SCRIPT + 1 - input.len());
        if !pull_more(source, &mut piece[..room], &mut input)? {
            return Ok(input);
        }
    }
    Ok(input)
}

/// Adds what a source gives next to the input, and returns whether there was something.
fn pull_more<S: Source>(
    source: &mut S,
    piece: &mut [u8],
    input: &mut Vec<u8>,
) -> Result<bool, InputFault>
    requires { 0 < length piece.old }
    ensures read { OnOk result ((start : S) → ReadsOn S.Source start source.old input.old.items
        → ReadsOn S.Source start source.new input.new.items) }
    ensures more { IfOk result (λ more. MatchBool more
        ((vec_len input.old < vec_len input.new) × (vec_len input.new ≤ vec_len input.old + length piece.old))
        ((input.new.items ≡ input.old.items) × HasEnded S.Source source.new)) }
    ensures stopped { IfErr result
        (λ fault. StopsWithin S.Source (length piece.old) fault source.old source.new) }
{
    let n = match source.pull(piece) {
        Ok(n) => n,
        Err(Failed) => return Err(InputFault::Source),
    };
    input.extend_from_slice(&piece[..n])?;
    Ok(n > 0)
}
