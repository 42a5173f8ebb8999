use crate::Keyword;

/// A sign of the language.
#[derive(Clone, Copy, Debug, PartialEq, Eq)]
pub enum Sign {
    /// `(`
    Open,
    /// `)`
    Close,
    /// `,`
    Comma,
    /// `*`
    Star,
    /// `+`
    Plus,
    /// `-`
    Minus,
    /// `=`
    Equal,
    /// `<>`, which may be written `!=`
    NotEqual,
    /// `<`
    Less,
    /// `<=`
    LessEqual,
    /// `>`
    Greater,
    /// `>=`
    GreaterEqual,
}

/// What a token is.
#[derive(Clone, Copy, Debug, PartialEq, Eq)]
pub enum TokenKind<'a> {
    /// A keyword, in whatever case it is written.
    Word(Keyword),
    /// Any other word, of any length, as it is written.
    Name(&'a str),
    /// A number without sign. One over `u64::MAX` is reported as `u64::MAX`.
    Number(u64),
    /// A text literal: what stands between its quotes, each quote in it still written twice.
    Literal(&'a str),
    Sign(Sign),
}

/// A token, and the place in the script of its first byte.
#[derive(Clone, Copy, Debug, PartialEq, Eq)]
pub struct Token<'a> {
    pub kind: TokenKind<'a>,
    pub at: u64,
}
