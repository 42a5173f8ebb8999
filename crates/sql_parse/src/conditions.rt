// The readers of conditions.
ghost use Rattle.std.specs.Prelude.{◌≡◌};
ghost use Rattle.sql_lex.specs.declared.keyword.Keyword.TheVariants.{And};
ghost use Rattle.sql_parse.specs.Parsed.{ParsesAs};
ghost use Rattle.sql_parse.specs.Grammar.{comparison_of, word};
ghost use Rattle.sql_parse.specs.Reading.{one_at, separated_at, condition_at, where_at};

use crate::fault::ParseFault;
use crate::parser::Parser;
use crate::statement::{Comparison, Condition};
use row_types::Items;
use sql_lex::{Keyword, Sign, TokenKind};
use std::alloc::Global;

impl<'a> Parser<'a> {
    fn comparison(&mut self) -> Result<Comparison, ParseFault>
        ensures { ParsesAs (λ comparison. (comparison, self.new)) result (one_at comparison_of self.old) }
    {
        let comparison = match self.kind() {
            Some(TokenKind::Sign(Sign::Equal)) => Comparison::Equal,
            Some(TokenKind::Sign(Sign::NotEqual)) => Comparison::NotEqual,
            Some(TokenKind::Sign(Sign::Less)) => Comparison::Less,
            Some(TokenKind::Sign(Sign::LessEqual)) => Comparison::LessEqual,
            Some(TokenKind::Sign(Sign::Greater)) => Comparison::Greater,
            Some(TokenKind::Sign(Sign::GreaterEqual)) => Comparison::GreaterEqual,
            _ => return Err(self.fault()),
        };
        self.advance();
        Ok(comparison)
    }

    // cond = name op value
    #[tactic(auto, unfolding(crate::specs::Reading::condition_at))]
    fn condition(&mut self, alloc: Global) -> Result<Condition, ParseFault>
        ensures { ParsesAs (λ condition. (condition, self.new)) result (condition_at self.old) }
    {
        let column = self.name(alloc)?;
        let comparison = self.comparison()?;
        let value = self.value(alloc)?;
        Ok(Condition {
            column,
            comparison,
            value,
        })
    }

    // cond { AND cond }
    fn all_conditions(&mut self, alloc: Global) -> Result<Items<Condition>, ParseFault>
        ensures { ParsesAs (λ conditions. (conditions, self.new)) result
            (separated_at (word And) condition_at self.old) }
    {
        let mut conditions = Items::new(alloc);
        conditions.push(self.condition(alloc)?)?;
        'ands: while self.accepts_word(Keyword::And) {
            conditions.push(self.condition(alloc)?)?;
        }
        Ok(conditions)
    }

    // where = WHERE cond { AND cond }, or nothing
    #[tactic(auto, unfolding(crate::specs::Reading::where_at))]
    pub(crate) fn conditions(&mut self, alloc: Global) -> Result<Items<Condition>, ParseFault>
        ensures { ParsesAs (λ conditions. (conditions, self.new)) result (where_at self.old) }
    {
        if self.accepts_word(Keyword::Where) {
            self.all_conditions(alloc)
        } else {
            Ok(Items::new(alloc))
        }
    }
}
