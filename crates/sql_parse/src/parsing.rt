// The statement that a text is.
ghost use Rattle.std.specs.Prelude.{◌≡◌, ℕ, ◌+◌, ◌<◌, ◌^◌, length, IfOk, IfErr};
ghost use Rattle.sql_lex.specs.Seen.{items_of};
ghost use Rattle.sql_parse.specs.Parsed.{ParsesAs};
ghost use Rattle.sql_parse.specs.Faults.{IsText, IsFault, IfSyntax};
ghost use Rattle.sql_parse.specs.Grammar.{IsStatement};
ghost use Rattle.sql_parse.specs.Reading.{statement_at, whole_by, whole_of, end_of};

use crate::fault::ParseFault;
use crate::parser::Parser;
use crate::statement::Statement;
use sql_lex::{Keyword, ScanEnd, Token, TokenKind, scan_tokens};
use std::alloc::Global;

impl<'a> Parser<'a> {
    // statement = create | insert | select | update | delete | BEGIN | COMMIT | ROLLBACK
    #[tactic(auto, unfolding(crate::specs::Reading::statement_at))]
    fn statement(&mut self, alloc: Global) -> Result<Statement, ParseFault>
        ensures { ParsesAs (λ statement. (statement, self.new)) result (statement_at self.old) }
    {
        let statement = match self.kind() {
            Some(TokenKind::Word(Keyword::Create)) => return self.create(alloc),
            Some(TokenKind::Word(Keyword::Insert)) => return self.insert(alloc),
            Some(TokenKind::Word(Keyword::Select)) => return self.select(alloc),
            Some(TokenKind::Word(Keyword::Update)) => return self.update(alloc),
            Some(TokenKind::Word(Keyword::Delete)) => return self.delete(alloc),
            Some(TokenKind::Word(Keyword::Begin)) => Statement::Begin,
            Some(TokenKind::Word(Keyword::Commit)) => Statement::Commit,
            Some(TokenKind::Word(Keyword::Rollback)) => Statement::Rollback,
            _ => return Err(self.fault()),
        };
        self.advance();
        Ok(statement)
    }

    // A statement, behind which nothing stands.
    fn whole(&mut self, alloc: Global) -> Result<Statement, ParseFault>
        ensures { ParsesAs (λ statement. (statement, self.new)) result (whole_by statement_at self.old) }
    {
        let statement = self.statement(alloc)?;
        match self.kind() {
            None => Ok(statement),
            Some(_) => Err(self.fault()),
        }
    }
}

// The place at which the tokens end, of a text that ends at `whole`.
fn end_of(end: ScanEnd, whole: u64) -> u64
    ensures { result ≡ end_of end whole }
{
    match end {
        ScanEnd::Whole => whole,
        ScanEnd::NoToken(at) => at,
    }
}

// The statement that the tokens are, which end at `end`.
fn statement_of(alloc: Global, tokens: &[Token], end: u64) -> Result<Statement, ParseFault>
    ensures { ParsesAs (λ statement. statement) result (whole_of statement_at end (items_of tokens.now)) }
{
    Parser::new(tokens, end).whole(alloc)
}

/// The statement that `text` is, which begins at the place `base` of the script.
///
/// `Syntax` comes exactly where the text is no statement, with the first place at which that shows: the first
/// token with which no statement continues, or the end of the text, or the first byte of what isn't a token. A
/// number that is too great for its sign counts from the sign on. `OutOfMemory` may come at any time.
pub fn parse(alloc: Global, text: &str, base: u64) -> Result<Statement, ParseFault>
    requires { base + length text.now < 2 ^ 63 }
    ensures statement { IfOk result (λ statement. IsText IsStatement base text.now statement) }
    ensures syntax { IfErr result (λ fault. IfSyntax fault (λ at. IsFault IsStatement base text.now at)) }
{
    let found = scan_tokens(alloc, text, base)?;
    let end = end_of(found.end, base + text.len() as u64);
    let statement = statement_of(alloc, &found.tokens, end)?;
    match found.end {
        ScanEnd::Whole => Ok(statement),
        ScanEnd::NoToken(at) => Err(ParseFault::Syntax { at }),
    }
}
