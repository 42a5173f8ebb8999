// Texts of no token, and of one.
ghost use Rattle.std.specs.Prelude.{◌≡◌, ◌↔◌, ℕ, [], ◌∷◌, IsTrue, IfSome, IfNone};
ghost use Rattle.sql_lex.specs.Tokens.{Item, AreTokens};
ghost use Rattle.sql_lex.specs.Seen.{lexeme_of};

use crate::bytes::gap_len;
use crate::shapes::token_at;
use crate::token::TokenKind;

/// Whether `text` has no token: it is blanks and comments alone.
pub fn is_empty(text: &str) -> bool
    ensures { (base : ℕ) → IsTrue result ↔ AreTokens base text.now [] }
{
    gap_len(text.as_bytes()) == text.len()
}

/// The token that `text` is. `None`: it isn't one token alone, with blanks and comments around it.
pub fn sole_token<'a>(text: &'a str) -> Option<TokenKind<'a>>
    ensures some { IfSome result (λ kind. (base : ℕ) → (at : ℕ)
        × AreTokens base text.now (record { lexeme = lexeme_of kind; at = at } ∷ [])) }
    ensures none { IfNone result ((base : ℕ) (item : Item) → AreTokens base text.now (item ∷ []) → ⊥) }
{
    let at = gap_len(text.as_bytes());
    if at == text.len() {
        return None;
    }
    let found = token_at(text, at)?;
    let rest = &text.as_bytes()[at + found.len..];
    if gap_len(rest) == rest.len() {
        Some(found.kind)
    } else {
        None
    }
}
