// The readers of INSERT, UPDATE and DELETE.
ghost use Rattle.std.specs.Prelude.{◌≡◌, option_and_then, is_some, if◌then◌else◌};
ghost use Rattle.sql_parse.specs.Parsed.{ParsesAs};
ghost use Rattle.sql_parse.specs.Grammar.{step_sign};
ghost use Rattle.sql_parse.specs.Reading.{next_of, rest_of, insert_at, term_at, steps_at, change_at};
ghost use Rattle.sql_parse.specs.Reading.{listed_at, update_at, delete_at};

use crate::fault::ParseFault;
use crate::parser::Parser;
use crate::statement::{Change, Delete, Insert, Statement, Step, Term, Update};
use row_types::Items;
use sql_lex::{Keyword, Sign, TokenKind};
use std::alloc::Global;

impl<'a> Parser<'a> {
    // insert = INSERT INTO name VALUES row { , row }
    #[tactic(auto, unfolding(crate::specs::Reading::insert_at))]
    pub(crate) fn insert(&mut self, alloc: Global) -> Result<Statement, ParseFault>
        ensures { ParsesAs (λ statement. (statement, self.new)) result (insert_at self.old) }
    {
        self.word(Keyword::Insert)?;
        self.word(Keyword::Into)?;
        let table = self.name(alloc)?;
        self.word(Keyword::Values)?;
        let rows = self.rows(alloc)?;
        Ok(Statement::Insert(Insert { table, rows }))
    }

    // term = [ - ] number | text | name
    #[tactic(auto, unfolding(crate::specs::Reading::term_at))]
    fn term(&mut self, alloc: Global) -> Result<Term, ParseFault>
        ensures { ParsesAs (λ term. (term, self.new)) result (term_at self.old) }
    {
        if let Some(TokenKind::Name(_)) = self.kind() {
            Ok(Term::Column(self.name(alloc)?))
        } else {
            Ok(Term::Value(self.value(alloc)?))
        }
    }

    // Goes behind a plus or a minus and says which, where one is the next token.
    fn accepts_step(&mut self) -> Option<bool>
        ensures found { result ≡ option_and_then step_sign (next_of self.old) }
        ensures passed { self.new ≡ (if is_some result then rest_of self.old else self.old) }
    {
        let is_minus = match self.kind() {
            Some(TokenKind::Sign(Sign::Plus)) => false,
            Some(TokenKind::Sign(Sign::Minus)) => true,
            _ => return None,
        };
        self.advance();
        Some(is_minus)
    }

    // { ( + | - ) term }
    fn steps(&mut self, alloc: Global) -> Result<Items<Step>, ParseFault>
        ensures { ParsesAs (λ steps. (steps, self.new)) result (steps_at self.old) }
    {
        let mut steps = Items::new(alloc);
        'steps: while let Some(is_minus) = self.accepts_step() {
            let term = self.term(alloc)?;
            steps.push(Step { is_minus, term })?;
        }
        Ok(steps)
    }

    // set = name = expr, and expr = term { ( + | - ) term }
    #[tactic(auto, unfolding(crate::specs::Reading::change_at))]
    fn change(&mut self, alloc: Global) -> Result<Change, ParseFault>
        ensures { ParsesAs (λ change. (change, self.new)) result (change_at self.old) }
    {
        let column = self.name(alloc)?;
        self.sign(Sign::Equal)?;
        let first = self.term(alloc)?;
        let further = self.steps(alloc)?;
        Ok(Change {
            column,
            first,
            further,
        })
    }

    // set { , set }
    fn changes(&mut self, alloc: Global) -> Result<Items<Change>, ParseFault>
        ensures { ParsesAs (λ changes. (changes, self.new)) result (listed_at change_at self.old) }
    {
        let mut changes = Items::new(alloc);
        changes.push(self.change(alloc)?)?;
        'commas: while self.accepts_sign(Sign::Comma) {
            changes.push(self.change(alloc)?)?;
        }
        Ok(changes)
    }

    // update = UPDATE name SET set { , set } [ where ]
    #[tactic(auto, unfolding(crate::specs::Reading::update_at))]
    pub(crate) fn update(&mut self, alloc: Global) -> Result<Statement, ParseFault>
        ensures { ParsesAs (λ statement. (statement, self.new)) result (update_at self.old) }
    {
        self.word(Keyword::Update)?;
        let table = self.name(alloc)?;
        self.word(Keyword::Set)?;
        let changes = self.changes(alloc)?;
        let conditions = self.conditions(alloc)?;
        Ok(Statement::Update(Update {
            table,
            changes,
            conditions,
        }))
    }

    // delete = DELETE FROM name [ where ]
    #[tactic(auto, unfolding(crate::specs::Reading::delete_at))]
    pub(crate) fn delete(&mut self, alloc: Global) -> Result<Statement, ParseFault>
        ensures { ParsesAs (λ statement. (statement, self.new)) result (delete_at self.old) }
    {
        self.word(Keyword::Delete)?;
        self.word(Keyword::From)?;
        let table = self.name(alloc)?;
        let conditions = self.conditions(alloc)?;
        Ok(Statement::Delete(Delete { table, conditions }))
    }
}
