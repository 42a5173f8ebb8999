// The tokens of a text up to its end, or up to what isn't one.
ghost use Rattle.std.specs.Prelude.{◌≡◌, ◌+◌, ◌<◌, ◌^◌, length, IfOk};
ghost use Rattle.sql_lex.specs.Scans.{IsScan};

use crate::OutOfMemory;
use crate::bytes::gap_len;
use crate::shapes::token_at;
use crate::token::Token;
use std::alloc::Global;

/// Where the tokens of a text end.
#[derive(Clone, Copy, Debug, PartialEq, Eq)]
pub enum ScanEnd {
    /// With the text.
    Whole,
    /// At this place of the script, where something stands that isn't a token.
    NoToken(u64),
}

/// The tokens at the front of a text, and where they end.
#[derive(Debug, Drop)]
pub struct Scan<'a> {
    pub tokens: Vec<Token<'a>>,
    pub end: ScanEnd,
}

/// Reads the tokens of `text`, which begins at the place `base` of the script, as far as there are any.
pub fn scan_tokens<'a>(alloc: Global, text: &'a str, base: u64) -> Result<Scan<'a>, OutOfMemory>
    requires { base + length text.now < 2 ^ 63 }
    ensures { IfOk result (λ found. IsScan base text.now found) }
{
    let mut tokens = Vec::new(alloc);
    let mut at = gap_len(text.as_bytes());
    while at < text.len() {
        let place = base + at as u64;
        match token_at(text, at) {
            None => {
                let end = ScanEnd::NoToken(place);
                return Ok(Scan { tokens, end });
            }
            Some(found) => {
                let kind = found.kind;
                tokens.push(Token { kind, at: place })?;
                let next = at + found.len;
                at = next + gap_len(&text.as_bytes()[next..]);
            }
        }
    }
    let end = ScanEnd::Whole;
    Ok(Scan { tokens, end })
}
