// The readers of CREATE.
ghost use Rattle.std.specs.Prelude.{◌≡◌, IfOk};
ghost use Rattle.sql_parse.specs.Parsed.{ParsesAs};
ghost use Rattle.sql_parse.specs.Grammar.{text_kind, text_word, int_word, columns_of, marks_of};
ghost use Rattle.sql_parse.specs.Reading.{one_at, type_at, marked_at, column_at, listed_at, create_at};

use crate::OutOfMemory;
use crate::fault::ParseFault;
use crate::parser::Parser;
use crate::statement::Statement;
use row_types::{Column, Items, Kind, TableDef};
use sql_lex::{Keyword, Sign, TokenKind};
use std::alloc::Global;

impl<'a> Parser<'a> {
    fn text_len(&mut self) -> Result<Kind, ParseFault>
        ensures { ParsesAs (λ kind. (kind, self.new)) result (one_at text_kind self.old) }
    {
        match self.kind() {
            Some(TokenKind::Number(n)) if n >= 1 && n <= 4093 => {
                self.advance();
                Ok(Kind::Text(n as u16))
            }
            _ => Err(self.fault()),
        }
    }

    // type = INT | INTEGER | BIGINT | ( TEXT | VARCHAR ) ( number )
    #[tactic(auto, unfolding(crate::specs::Reading::type_at))]
    fn column_type(&mut self) -> Result<Kind, ParseFault>
        ensures { ParsesAs (λ kind. (kind, self.new)) result (type_at self.old) }
    {
        match self.kind() {
            Some(TokenKind::Word(Keyword::Int | Keyword::Integer | Keyword::Bigint)) => {
                self.advance();
                Ok(Kind::Int)
            }
            Some(TokenKind::Word(Keyword::Text | Keyword::Varchar)) => {
                self.advance();
                self.sign(Sign::Open)?;
                let kind = self.text_len()?;
                self.sign(Sign::Close)?;
                Ok(kind)
            }
            _ => Err(self.fault()),
        }
    }

    // [ PRIMARY KEY ]: whether it stands
    #[tactic(auto, unfolding(crate::specs::Reading::marked_at))]
    fn marked(&mut self) -> Result<bool, ParseFault>
        ensures { ParsesAs (λ is_marked. (is_marked, self.new)) result (marked_at self.old) }
    {
        if !self.accepts_word(Keyword::Primary) {
            return Ok(false);
        }
        self.word(Keyword::Key)?;
        Ok(true)
    }

    // column = name type [ PRIMARY KEY ]
    #[tactic(auto, unfolding(crate::specs::Reading::column_at))]
    fn column(&mut self, alloc: Global) -> Result<(Column, bool), ParseFault>
        ensures { ParsesAs (λ column. (column, self.new)) result (column_at self.old) }
    {
        let name = self.name(alloc)?;
        let kind = self.column_type()?;
        let is_key = self.marked()?;
        Ok((Column { name, kind }, is_key))
    }

    // column { , column }
    fn columns(&mut self, alloc: Global) -> Result<Items<(Column, bool)>, ParseFault>
        ensures { ParsesAs (λ columns. (columns, self.new)) result (listed_at column_at self.old) }
    {
        let mut columns = Items::new(alloc);
        columns.push(self.column(alloc)?)?;
        'commas: while self.accepts_sign(Sign::Comma) {
            columns.push(self.column(alloc)?)?;
        }
        Ok(columns)
    }

    // create = CREATE TABLE name ( column { , column } )
    #[tactic(auto, unfolding(crate::specs::Reading::create_at))]
    pub(crate) fn create(&mut self, alloc: Global) -> Result<Statement, ParseFault>
        ensures { ParsesAs (λ statement. (statement, self.new)) result (create_at self.old) }
    {
        self.word(Keyword::Create)?;
        self.word(Keyword::Table)?;
        let name = self.name(alloc)?;
        self.sign(Sign::Open)?;
        let columns = self.columns(alloc)?;
        self.sign(Sign::Close)?;
        let keys = marks_of(alloc, columns.as_slice())?;
        let columns = columns_of(alloc, columns)?;
        Ok(Statement::Create(TableDef {
            name,
            columns,
            keys,
        }))
    }
}

// The numbers of the columns that are marked, 255 from there on.
fn marks_of(alloc: Global, columns: &[(Column, bool)]) -> Result<Items<u8>, OutOfMemory>
    ensures { IfOk result (λ marks. marks ≡ marks_of 0 columns.now) }
{
    let mut marks = Items::new(alloc);
    for (i, column) in columns.iter().enumerate() {
        if column.1 {
            marks.push(i.min(255) as u8)?;
        }
    }
    Ok(marks)
}

fn columns_of(alloc: Global, columns: Items<(Column, bool)>) -> Result<Items<Column>, OutOfMemory>
    ensures { IfOk result (λ plain. plain ≡ columns_of columns) }
{
    let columns = columns.into_vec().into_iter();
    Ok(Items::from_vec(columns.map(|column| column.0).collect(alloc)?))
}
