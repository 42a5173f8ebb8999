// The tokens that are left to read, and the readers of one token.
ghost use Rattle.std.specs.Prelude.{◌≡◌, ◌==◌, option_map, option_and_then, is_some, if◌then◌else◌};
ghost use Rattle.sql_lex.specs.Seen.{lexeme_of, items_of};
ghost use Rattle.sql_parse.specs.Parsed.{ParsesAs};
ghost use Rattle.sql_parse.specs.Words.{is_word, is_sign, word_number, sign_number};
ghost use Rattle.sql_parse.specs.Grammar.{word, sign};
ghost use Rattle.sql_parse.specs.Reading.{next_of, place_of, rest_of, word_at, sign_at, name_at};

use crate::fault::ParseFault;
use row_types::Name;
use sql_lex::{Keyword, Sign, Token, TokenKind};
use std::alloc::Global;
use std::marker::Model;

// The tokens that are left, and the place at which they end.
#[derive(Drop)]
pub(crate) struct Parser<'a> {
    tokens: &'a [Token<'a>],
    end: u64,
}

impl<'a> Model for Parser<'a> {
    ghost use Rattle.sql_lex.specs.Seen.{items_of};
    ghost use Rattle.sql_parse.specs.Reading.{Left};

    ghost Value = { Left };

    ghost view = { λ p. record { end = p.end; items = items_of p.tokens.now } };
}

fn same_word(a: Keyword, b: Keyword) -> bool
    ensures { result ≡ (word_number a == word_number b) }
{
    a == b
}

fn same_sign(a: Sign, b: Sign) -> bool
    ensures { result ≡ (sign_number a == sign_number b) }
{
    a == b
}

impl<'a> Parser<'a> {
    // Before these tokens, which end at `end`.
    pub(crate) fn new(tokens: &'a [Token<'a>], end: u64) -> Parser<'a>
        ensures { result ≡ record { end = end; items = items_of tokens.now } }
    {
        Parser { tokens, end }
    }

    // What the next token is.
    pub(crate) fn kind(&self) -> Option<TokenKind<'a>>
        ensures { option_map lexeme_of result ≡ next_of self.now }
    {
        match self.tokens {
            [] => None,
            [token, ..] => Some(token.kind),
        }
    }

    // The place of the next token, or the end.
    pub(crate) fn place(&self) -> u64
        ensures { result ≡ place_of self.now }
    {
        match self.tokens {
            [] => self.end,
            [token, ..] => token.at,
        }
    }

    // Goes behind the next token, where there is one.
    pub(crate) fn advance(&mut self)
        ensures { self.new ≡ rest_of self.old }
    {
        if let [_, rest @ ..] = self.tokens {
            self.tokens = rest;
        }
    }

    pub(crate) fn fault(&self) -> ParseFault
        ensures { result ≡ ParseFault.Syntax (place_of self.now) }
    {
        ParseFault::Syntax { at: self.place() }
    }

    // Goes behind the keyword, where it is the next token.
    pub(crate) fn accepts_word(&mut self, keyword: Keyword) -> bool
        ensures found { result ≡ is_some (option_and_then (word keyword) (next_of self.old)) }
        ensures passed { self.new ≡ (if result then rest_of self.old else self.old) }
    {
        match self.kind() {
            Some(TokenKind::Word(found)) if same_word(keyword, found) => {
                self.advance();
                true
            }
            _ => false,
        }
    }

    // Goes behind the sign, where it is the next token.
    pub(crate) fn accepts_sign(&mut self, mark: Sign) -> bool
        ensures found { result ≡ is_some (option_and_then (sign mark) (next_of self.old)) }
        ensures passed { self.new ≡ (if result then rest_of self.old else self.old) }
    {
        match self.kind() {
            Some(TokenKind::Sign(found)) if same_sign(mark, found) => {
                self.advance();
                true
            }
            _ => false,
        }
    }

    pub(crate) fn word(&mut self, keyword: Keyword) -> Result<(), ParseFault>
        ensures { ParsesAs (λ x. (x, self.new)) result (word_at keyword self.old) }
    {
        if self.accepts_word(keyword) {
            Ok(())
        } else {
            Err(self.fault())
        }
    }

    pub(crate) fn sign(&mut self, mark: Sign) -> Result<(), ParseFault>
        ensures { ParsesAs (λ x. (x, self.new)) result (sign_at mark self.old) }
    {
        if self.accepts_sign(mark) {
            Ok(())
        } else {
            Err(self.fault())
        }
    }

    pub(crate) fn name(&mut self, alloc: Global) -> Result<Name, ParseFault>
        ensures { ParsesAs (λ name. (name, self.new)) result (name_at self.old) }
    {
        let Some(TokenKind::Name(text)) = self.kind() else {
            return Err(self.fault());
        };
        match Name::new(alloc, text)? {
            Some(name) => {
                self.advance();
                Ok(name)
            }
            None => Err(self.fault()),
        }
    }
}
