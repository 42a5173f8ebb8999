// The readers of SELECT.
ghost use Rattle.std.specs.Prelude.{◌≡◌};
ghost use Rattle.sql_parse.specs.Parsed.{ParsesAs};
ghost use Rattle.sql_parse.specs.Grammar.{limit_of, total_word};
ghost use Rattle.sql_parse.specs.Reading.{one_at, name_at, listed_at, shown_at, direction_at, order_at};
ghost use Rattle.sql_parse.specs.Reading.{limit_at, plain_at, total_at, totals_at, select_at};

use crate::fault::ParseFault;
use crate::parser::Parser;
use crate::statement::{Order, Select, Shown, Statement, Total, Totals};
use row_types::{Items, Name};
use sql_lex::{Keyword, Sign, TokenKind};
use std::alloc::Global;

impl<'a> Parser<'a> {
    // name { , name }
    fn names(&mut self, alloc: Global) -> Result<Items<Name>, ParseFault>
        ensures { ParsesAs (λ names. (names, self.new)) result (listed_at name_at self.old) }
    {
        let mut names = Items::new(alloc);
        names.push(self.name(alloc)?)?;
        'commas: while self.accepts_sign(Sign::Comma) {
            names.push(self.name(alloc)?)?;
        }
        Ok(names)
    }

    // plain = * | name { , name }
    #[tactic(auto, unfolding(crate::specs::Reading::shown_at))]
    fn shown(&mut self, alloc: Global) -> Result<Shown, ParseFault>
        ensures { ParsesAs (λ shown. (shown, self.new)) result (shown_at self.old) }
    {
        if self.accepts_sign(Sign::Star) {
            Ok(Shown::All)
        } else {
            Ok(Shown::Columns(self.names(alloc)?))
        }
    }

    // [ ASC | DESC ]: whether it falls
    #[tactic(auto, unfolding(crate::specs::Reading::direction_at))]
    fn direction(&mut self) -> Result<bool, ParseFault>
        ensures { ParsesAs (λ is_falling. (is_falling, self.new)) result (direction_at self.old) }
    {
        if self.accepts_word(Keyword::Asc) {
            return Ok(false);
        }
        Ok(self.accepts_word(Keyword::Desc))
    }

    // [ ORDER BY name [ ASC | DESC ] ]
    #[tactic(auto, unfolding(crate::specs::Reading::order_at))]
    fn order(&mut self, alloc: Global) -> Result<Option<Order>, ParseFault>
        ensures { ParsesAs (λ order. (order, self.new)) result (order_at self.old) }
    {
        if !self.accepts_word(Keyword::Order) {
            return Ok(None);
        }
        self.word(Keyword::By)?;
        let column = self.name(alloc)?;
        let is_falling = self.direction()?;
        Ok(Some(Order { column, is_falling }))
    }

    fn limit_number(&mut self) -> Result<Option<u64>, ParseFault>
        ensures { ParsesAs (λ limit. (limit, self.new)) result (one_at limit_of self.old) }
    {
        match self.kind() {
            Some(TokenKind::Number(n)) if n < 1 << 63 => {
                self.advance();
                Ok(Some(n))
            }
            _ => Err(self.fault()),
        }
    }

    // [ LIMIT number ]
    #[tactic(auto, unfolding(crate::specs::Reading::limit_at))]
    fn limit(&mut self) -> Result<Option<u64>, ParseFault>
        ensures { ParsesAs (λ limit. (limit, self.new)) result (limit_at self.old) }
    {
        if self.accepts_word(Keyword::Limit) {
            self.limit_number()
        } else {
            Ok(None)
        }
    }

    // plain FROM name [ where ] [ ORDER BY name [ ASC | DESC ] ] [ LIMIT number ]
    #[tactic(auto, unfolding(crate::specs::Reading::plain_at))]
    fn plain(&mut self, alloc: Global) -> Result<Statement, ParseFault>
        ensures { ParsesAs (λ statement. (statement, self.new)) result (plain_at self.old) }
    {
        let shown = self.shown(alloc)?;
        self.word(Keyword::From)?;
        let table = self.name(alloc)?;
        let conditions = self.conditions(alloc)?;
        let order = self.order(alloc)?;
        let limit = self.limit()?;
        Ok(Statement::Select(Select {
            shown,
            table,
            conditions,
            order,
            limit,
        }))
    }

    // total = COUNT ( * ) | SUM ( name )
    #[tactic(auto, unfolding(crate::specs::Reading::total_at))]
    fn total(&mut self, alloc: Global) -> Result<Total, ParseFault>
        ensures { ParsesAs (λ total. (total, self.new)) result (total_at self.old) }
    {
        if self.accepts_word(Keyword::Count) {
            self.sign(Sign::Open)?;
            self.sign(Sign::Star)?;
            self.sign(Sign::Close)?;
            return Ok(Total::Count);
        }
        self.word(Keyword::Sum)?;
        self.sign(Sign::Open)?;
        let column = self.name(alloc)?;
        self.sign(Sign::Close)?;
        Ok(Total::Sum(column))
    }

    // total { , total }
    fn all_totals(&mut self, alloc: Global) -> Result<Items<Total>, ParseFault>
        ensures { ParsesAs (λ totals. (totals, self.new)) result (listed_at total_at self.old) }
    {
        let mut totals = Items::new(alloc);
        totals.push(self.total(alloc)?)?;
        'commas: while self.accepts_sign(Sign::Comma) {
            totals.push(self.total(alloc)?)?;
        }
        Ok(totals)
    }

    // total { , total } FROM name [ where ]
    #[tactic(auto, unfolding(crate::specs::Reading::totals_at))]
    fn totals(&mut self, alloc: Global) -> Result<Statement, ParseFault>
        ensures { ParsesAs (λ statement. (statement, self.new)) result (totals_at self.old) }
    {
        let totals = self.all_totals(alloc)?;
        self.word(Keyword::From)?;
        let table = self.name(alloc)?;
        let conditions = self.conditions(alloc)?;
        Ok(Statement::Totals(Totals {
            totals,
            table,
            conditions,
        }))
    }

    // select = SELECT and then plain columns or totals
    #[tactic(auto, unfolding(crate::specs::Reading::select_at))]
    pub(crate) fn select(&mut self, alloc: Global) -> Result<Statement, ParseFault>
        ensures { ParsesAs (λ statement. (statement, self.new)) result (select_at self.old) }
    {
        self.word(Keyword::Select)?;
        match self.kind() {
            Some(TokenKind::Word(Keyword::Count | Keyword::Sum)) => self.totals(alloc),
            _ => self.plain(alloc),
        }
    }
}
