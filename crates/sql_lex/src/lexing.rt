// The tokens of a whole text.
ghost use Rattle.std.specs.Prelude.{◌≡◌, ℕ, ◌+◌, ◌<◌, ◌^◌, List, length, IfOk, IfErr};
ghost use Rattle.sql_lex.specs.Tokens.{Item, AreTokens, AreTokensUpTo};
ghost use Rattle.sql_lex.specs.Seen.{items_of};
ghost use Rattle.sql_lex.specs.Faults.{IfSyntax};

use crate::OutOfMemory;
use crate::scanning::{ScanEnd, scan_tokens};
use crate::token::Token;
use std::alloc::Global;
use thiserror::Error;

/// Why a text isn't read as tokens.
#[derive(Clone, Copy, Debug, PartialEq, Eq, Error)]
pub enum LexFault {
    /// At this place of the script stands the first thing that isn't a token.
    #[error("no token at {at}")]
    Syntax { at: u64 },
    #[error("out of memory")]
    OutOfMemory,
}

impl From<OutOfMemory> for LexFault {
    ghost use Rattle.sql_lex.specs.declared.lexing.LexFault.TheVariants.{OutOfMemory as NoMemory};

    ghost from_gives = { λ _ fault. fault ≡ NoMemory };

    fn from(_: OutOfMemory) -> LexFault {
        LexFault::OutOfMemory
    }
}

/// The tokens of `text`, which begins at the place `base` of the script.
///
/// `Syntax` comes exactly where the text isn't a list of tokens,
/// with the first byte of the first thing that isn't one.
pub fn lex<'a>(alloc: Global, text: &'a str, base: u64) -> Result<Vec<Token<'a>>, LexFault>
    requires { base + length text.now < 2 ^ 63 }
    ensures tokens { IfOk result (λ tokens. AreTokens base text.now (items_of tokens.items)) }
    ensures syntax { IfErr result (λ fault. IfSyntax fault (λ at.
        (items : List Item) × AreTokensUpTo base text.now items at)) }
{
    let found = scan_tokens(alloc, text, base)?;
    match found.end {
        ScanEnd::Whole => Ok(found.tokens),
        ScanEnd::NoToken(at) => Err(LexFault::Syntax { at }),
    }
}
