// The readers of values and rows.
ghost use Rattle.std.specs.Prelude.{◌≡◌, ◌≤◌, ◌^◌, pos, neg_ℤ};
ghost use Rattle.sql_parse.specs.Parsed.{ParsesAs};
ghost use Rattle.sql_parse.specs.Reading.{value_at, negative_at, listed_at, row_at};

use crate::fault::ParseFault;
use crate::literal::text_of;
use crate::parser::Parser;
use row_types::{Items, Row, Value};
use sql_lex::{Sign, TokenKind};
use std::alloc::Global;

const LOWEST: u64 = 1 << 63;

impl<'a> Parser<'a> {
    // The number behind a minus, which stands at `place`.
    fn negative(&mut self, place: u64) -> Result<Value, ParseFault>
        ensures { ParsesAs (λ value. (value, self.new)) result (negative_at place self.old) }
    {
        match self.kind() {
            Some(TokenKind::Number(n)) if n <= LOWEST => {
                self.advance();
                Ok(Value::Int(negated(n)))
            }
            Some(TokenKind::Number(_)) => Err(ParseFault::Syntax { at: place }),
            _ => Err(self.fault()),
        }
    }

    // value = [ - ] number | text
    pub(crate) fn value(&mut self, alloc: Global) -> Result<Value, ParseFault>
        ensures { ParsesAs (λ value. (value, self.new)) result (value_at self.old) }
    {
        match self.kind() {
            Some(TokenKind::Sign(Sign::Minus)) => {
                let place = self.place();
                self.advance();
                self.negative(place)
            }
            Some(TokenKind::Number(n)) if n < LOWEST => {
                self.advance();
                Ok(Value::Int(n as i64))
            }
            Some(TokenKind::Literal(raw)) => {
                let text = text_of(alloc, raw)?;
                self.advance();
                Ok(Value::Text(text))
            }
            _ => Err(self.fault()),
        }
    }

    // value { , value }
    fn values(&mut self, alloc: Global) -> Result<Row, ParseFault>
        ensures { ParsesAs (λ values. (values, self.new)) result (listed_at value_at self.old) }
    {
        let mut values = Row::new(alloc);
        values.push(self.value(alloc)?)?;
        'commas: while self.accepts_sign(Sign::Comma) {
            values.push(self.value(alloc)?)?;
        }
        Ok(values)
    }

    // row = ( value { , value } )
    #[tactic(auto, unfolding(crate::specs::Reading::row_at))]
    fn row(&mut self, alloc: Global) -> Result<Row, ParseFault>
        ensures { ParsesAs (λ row. (row, self.new)) result (row_at self.old) }
    {
        self.sign(Sign::Open)?;
        let values = self.values(alloc)?;
        self.sign(Sign::Close)?;
        Ok(values)
    }

    // row { , row }
    pub(crate) fn rows(&mut self, alloc: Global) -> Result<Items<Row>, ParseFault>
        ensures { ParsesAs (λ rows. (rows, self.new)) result (listed_at row_at self.old) }
    {
        let mut rows = Items::new(alloc);
        rows.push(self.row(alloc)?)?;
        'commas: while self.accepts_sign(Sign::Comma) {
            rows.push(self.row(alloc)?)?;
        }
        Ok(rows)
    }
}

// The number below 0.
fn negated(n: u64) -> i64
    requires { n ≤ 2 ^ 63 }
    ensures { result ≡ neg_ℤ (pos n) }
{
    if n == LOWEST { i64::MIN } else { -(n as i64) }
}
