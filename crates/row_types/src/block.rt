// The statements of a script, as text with its place.
ghost use Rattle.std.specs.Prelude.{◌≡◌, ◌+◌, ◌<◌, ◌^◌, length};

use crate::{Items, OutOfMemory, Text, TryCopy};
use std::marker::Model;

/// The text of one statement, and the place in the script at which it begins. It ends below place 2^63.
#[derive(Debug, Drop)]
pub struct PlacedText {
    base: u64,
    text: Text,
}

impl Model for PlacedText {
    ghost use Rattle.std.specs.Prelude.{◌+◌, ◌<◌, ◌^◌, length};
    ghost use Rattle.row_types.specs.Block.{Placed};

    ghost Value = { Placed };

    ghost view = { λ p. record { base = p.base; text = p.text } };

    ghost invariant = { λ p. p.base + length p.text < 2 ^ 63 };
}

impl PlacedText {
    /// The statement `text`, which begins at place `base`.
    pub fn new(base: u64, text: Text) -> PlacedText
        requires { base + length text < 2 ^ 63 }
        ensures { result ≡ record { base = base; text = text } }
    {
        PlacedText { base, text }
    }

    /// The place at which it begins.
    pub fn base(&self) -> u64
        ensures place { result ≡ self.now.base }
        ensures end { self.now.base + length self.now.text < 2 ^ 63 }
    {
        self.base
    }

    /// Its text.
    pub fn text(&self) -> &Text
        ensures { result.now ≡ self.now.text }
    {
        &self.text
    }
}

impl TryCopy for PlacedText {
    fn copy(&self) -> Result<PlacedText, OutOfMemory> {
        Ok(PlacedText {
            base: self.base,
            text: self.text.copy()?,
        })
    }
}

/// How a block that begins with BEGIN ends.
#[derive(Clone, Copy, Debug, PartialEq, Eq, Drop)]
pub enum BlockEnd {
    /// By its first COMMIT.
    Commit,
    /// By its first ROLLBACK.
    Rollback,
    /// By the end of its section: it is rolled back, without a reply for that.
    CutOff,
}

/// A block that begins with BEGIN: the statements behind it, up to its end, which isn't among them.
#[derive(Debug, Drop)]
pub struct Transaction {
    pub statements: Items<PlacedText>,
    pub end: BlockEnd,
}

impl TryCopy for Transaction {
    fn copy(&self) -> Result<Transaction, OutOfMemory> {
        Ok(Transaction {
            statements: self.statements.copy()?,
            end: self.end,
        })
    }
}

/// A block of a script: the statements that are run as one.
#[derive(Debug, Drop)]
pub enum Block {
    /// A statement that stands outside BEGIN and its end.
    Alone(PlacedText),
    /// BEGIN, and what follows it up to its end.
    Transaction(Transaction),
}

impl TryCopy for Block {
    fn copy(&self) -> Result<Block, OutOfMemory> {
        match self {
            Block::Alone(statement) => Ok(Block::Alone(statement.copy()?)),
            Block::Transaction(transaction) => Ok(Block::Transaction(transaction.copy()?)),
        }
    }
}
