//! The tokens of a SQL statement: words, numbers, literals and signs, each with its place in the script.
#![tactic(auto)]

mod bytes;
mod keyword;
mod laws;
mod lexing;
mod scanning;
mod shapes;
mod sole;
mod token;

pub use base_types::OutOfMemory;
pub use keyword::Keyword;
pub use laws::{each_text_has_tokens, one_end, one_token_list};
pub use lexing::{LexFault, lex};
pub use scanning::{Scan, ScanEnd, scan_tokens};
pub use sole::{is_empty, sole_token};
pub use token::{Sign, Token, TokenKind};
