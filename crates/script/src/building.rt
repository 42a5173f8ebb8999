// The blocks of a section, built of its statements as these come.
ghost use Rattle.std.specs.Prelude.{◌≡◌, ◌++◌, ◌∷◌, [], List, IfOk, Some, None, option_map};
ghost use Rattle.sql_lex.specs.Seen.{lexeme_of};
ghost use Rattle.row_types.specs.Block.{Placed};
ghost use Rattle.script.specs.Blocks.{AreBlocks};
ghost use Rattle.script.specs.Building.{AreBuilt, Has, HasRole, role_of};

use crate::OutOfMemory;
use row_types::{Block, BlockEnd, Items, PlacedText, Transaction};
use sql_lex::{Keyword, TokenKind, one_token_list, sole_token};
use std::alloc::Global;

// The blocks that are done, and the statements behind BEGIN of the one that isn't, where there is one.
#[derive(Drop)]
pub(crate) struct Builder {
    done: Items<Block>,
    open: Option<Items<PlacedText>>,
}

impl Builder {
    pub(crate) fn new(alloc: Global) -> Builder
        ensures { Has result [] }
    {
        Builder {
            done: Items::new(alloc),
            open: None,
        }
    }

    // The blocks with one more statement.
    pub(crate) fn with(self, alloc: Global, statement: PlacedText) -> Result<Builder, OutOfMemory>
        ensures { (statements : List Placed) → Has self statements
            → IfOk result (λ builder. Has builder (statements ++ statement ∷ [])) }
    {
        let role = role_of_statement(&statement);
        let Builder { done, open } = self;
        match open {
            Some(statements) => go_on(done, statements, statement, role),
            None => begin(alloc, done, statement, role),
        }
    }

    // The blocks of all the statements.
    pub(crate) fn finish(self) -> Result<Items<Block>, OutOfMemory>
        ensures { (statements : List Placed) → Has self statements
            → IfOk result (λ blocks. AreBlocks blocks statements) }
    {
        let Builder { mut done, open } = self;
        if let Some(statements) = open {
            let end = BlockEnd::CutOff;
            done.push(Block::Transaction(Transaction { statements, end }))?;
        }
        Ok(done)
    }
}

// What a statement is to blocks.
#[derive(Clone, Copy)]
enum Role {
    Begin,
    End(BlockEnd),
    Other,
}

// The role of a statement that is this one token, or another number of them.
fn role_of(token: Option<TokenKind<'_>>) -> Role
    ensures { result ≡ role_of (option_map lexeme_of token.entry) }
{
    match token {
        Some(TokenKind::Word(Keyword::Begin)) => Role::Begin,
        Some(TokenKind::Word(Keyword::Commit)) => Role::End(BlockEnd::Commit),
        Some(TokenKind::Word(Keyword::Rollback)) => Role::End(BlockEnd::Rollback),
        _ => Role::Other,
    }
}

fn role_of_statement(statement: &PlacedText) -> Role
    ensures { HasRole statement.now result }
{
    one_token_list();
    role_of(sole_token(statement.text().as_str()))
}

// Outside of a block.
fn begin(
    alloc: Global,
    mut done: Items<Block>,
    statement: PlacedText,
    role: Role,
) -> Result<Builder, OutOfMemory>
    requires { HasRole statement role }
    ensures { (statements : List Placed) → AreBuilt statements done None
        → IfOk result (λ builder. Has builder (statements ++ statement ∷ [])) }
{
    if let Role::Begin = role {
        let open = Some(Items::new(alloc));
        return Ok(Builder { done, open });
    }
    done.push(Block::Alone(statement))?;
    Ok(Builder { done, open: None })
}

// In a block with these statements so far.
fn go_on(
    mut done: Items<Block>,
    mut statements: Items<PlacedText>,
    statement: PlacedText,
    role: Role,
) -> Result<Builder, OutOfMemory>
    requires { HasRole statement role }
    ensures { (before : List Placed) → AreBuilt before done (Some statements)
        → IfOk result (λ builder. Has builder (before ++ statement ∷ [])) }
{
    if let Role::End(end) = role {
        done.push(Block::Transaction(Transaction { statements, end }))?;
        return Ok(Builder { done, open: None });
    }
    statements.push(statement)?;
    let open = Some(statements);
    Ok(Builder { done, open })
}
