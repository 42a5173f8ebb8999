// What holds of every text, as functions that do nothing: each contract is the law.
ghost use Rattle.std.specs.Prelude.{◌≡◌, ◌⊎◌, ℕ, List};
ghost use Rattle.sql_lex.specs.Spelling.{Lexeme, doubled};
ghost use Rattle.sql_parse.specs.Grammar.{IsStatement};
ghost use Rattle.sql_parse.specs.Faults.{IsText, IsFault};
ghost use Rattle.sql_parse.specs.Quotes.{unquoted};
ghost use Rattle.sql_parse.specs.declared.statement.Statement.{Statement};

use sql_lex::{each_text_has_tokens, one_end, one_token_list};

/// A list of tokens is at most one statement.
pub fn one_statement()
    ensures { (tokens : List Lexeme) (a b : Statement) → IsStatement tokens a → IsStatement tokens b → a ≡ b }
{}

/// Each text is a statement or has a first fault, and exactly one of them: it is at most one statement, one
/// that is a statement has no fault, and any other has one first fault.
pub fn one_answer()
    ensures some_answer { (base : ℕ) (text : List ℕ)
        → ((statement : Statement) × IsText IsStatement base text statement)
        ⊎ ((at : ℕ) × IsFault IsStatement base text at) }
    ensures one_statement { (base : ℕ) (text : List ℕ) (a b : Statement) → IsText IsStatement base text a
        → IsText IsStatement base text b → a ≡ b }
    ensures not_both { (base at : ℕ) (text : List ℕ) (statement : Statement)
        → IsText IsStatement base text statement → IsFault IsStatement base text at → ⊥ }
    ensures one_place { (base at place : ℕ) (text : List ℕ) → IsFault IsStatement base text at
        → IsFault IsStatement base text place → at ≡ place }
{
    each_text_has_tokens();
    one_token_list();
    one_end();
}

/// A text whose quotes were doubled for a literal is read as that text.
pub fn literal_text()
    ensures { (text : List ℕ) → unquoted (doubled text) ≡ text }
{}
