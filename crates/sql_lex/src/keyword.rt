// The words of the language, and how they are found.
ghost use Rattle.std.specs.Prelude.{◌≡◌, ◌≢◌, ◌↔◌, length, map, IsTrue, IfSome, IfNone};
ghost use Rattle.std.specs.List.{Contains};
ghost use Rattle.std.specs.Char.{to_ascii_lowercase};
ghost use Rattle.sql_lex.specs.Letters.{letters};
ghost use Rattle.sql_lex.specs.declared.keyword.Keyword.{Keyword};

/// A word of the language. No name is one.
#[derive(Clone, Copy, Debug, PartialEq, Eq)]
pub enum Keyword {
    And,
    Asc,
    Begin,
    Bigint,
    By,
    Checkpoint,
    Commit,
    Count,
    Create,
    Delete,
    Desc,
    From,
    Insert,
    Int,
    Integer,
    Into,
    Key,
    Limit,
    Order,
    Primary,
    Rollback,
    Select,
    Set,
    Sum,
    Table,
    Text,
    Update,
    Values,
    Varchar,
    Where,
}

impl Keyword {
    // In small letters.
    fn letters(self) -> &'static str
        ensures { result.now ≡ letters self }
    {
        match self {
            Keyword::And => "and",
            Keyword::Asc => "asc",
            Keyword::Begin => "begin",
            Keyword::Bigint => "bigint",
            Keyword::By => "by",
            Keyword::Checkpoint => "checkpoint",
            Keyword::Commit => "commit",
            Keyword::Count => "count",
            Keyword::Create => "create",
            Keyword::Delete => "delete",
            Keyword::Desc => "desc",
            Keyword::From => "from",
            Keyword::Insert => "insert",
            Keyword::Int => "int",
            Keyword::Integer => "integer",
            Keyword::Into => "into",
            Keyword::Key => "key",
            Keyword::Limit => "limit",
            Keyword::Order => "order",
            Keyword::Primary => "primary",
            Keyword::Rollback => "rollback",
            Keyword::Select => "select",
            Keyword::Set => "set",
            Keyword::Sum => "sum",
            Keyword::Table => "table",
            Keyword::Text => "text",
            Keyword::Update => "update",
            Keyword::Values => "values",
            Keyword::Varchar => "varchar",
            Keyword::Where => "where",
        }
    }

    fn is_spelled(self, word: &str) -> bool
        ensures { IsTrue result ↔ (map to_ascii_lowercase word.now ≡ letters self) }
    {
        word.eq_ignore_ascii_case(self.letters())
    }
}

// The words of the language that have so many letters.
fn of_len(len: usize) -> &'static [Keyword]
    ensures { (keyword : Keyword) → length (letters keyword) ≡ len → Contains result.now keyword }
{
    match len {
        2 => &[Keyword::By],
        3 => &[
            Keyword::Set,
            Keyword::And,
            Keyword::Int,
            Keyword::Key,
            Keyword::Sum,
            Keyword::Asc,
        ],
        4 => &[Keyword::From, Keyword::Into, Keyword::Text, Keyword::Desc],
        5 => &[
            Keyword::Where,
            Keyword::Begin,
            Keyword::Order,
            Keyword::Limit,
            Keyword::Count,
            Keyword::Table,
        ],
        6 => &[
            Keyword::Values,
            Keyword::Update,
            Keyword::Select,
            Keyword::Insert,
            Keyword::Delete,
            Keyword::Commit,
            Keyword::Bigint,
            Keyword::Create,
        ],
        7 => &[Keyword::Varchar, Keyword::Integer, Keyword::Primary],
        8 => &[Keyword::Rollback],
        10 => &[Keyword::Checkpoint],
        _ => &[],
    }
}

// The keyword that the word is, in whatever case it is written.
pub(crate) fn keyword_of(word: &str) -> Option<Keyword>
    ensures some { IfSome result (λ k. map to_ascii_lowercase word.now ≡ letters k) }
    ensures none { IfNone result ((k : Keyword) → map to_ascii_lowercase word.now ≢ letters k) }
{
    for keyword in of_len(word.len()) {
        if keyword.is_spelled(word) {
            return Some(*keyword);
        }
    }
    None
}
