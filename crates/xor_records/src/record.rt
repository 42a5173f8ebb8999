// Records that are kept.
use crate::{Kind, RecView};
use std::marker::Model;

/// What a change is of: its transaction, its page by table and number, the stamp that the page has from it
/// on, and the place in the page at which its bytes begin.
#[derive(Clone, Copy, Debug, PartialEq, Eq)]
pub struct Head {
    pub txn: u64,
    pub table: u16,
    pub page: u32,
    pub stamp: u64,
    pub offset: u16,
}

/// The parts of a kept record.
#[derive(Debug, Drop)]
pub(crate) enum Kept {
    Diff { head: Head, xor: Vec<u8> },
    Commit { txn: u64 },
    End { txn: u64 },
}

/// A record: a change of a page, that a transaction committed, or that it ended without. Its numbers and
/// bytes keep the rules of a record's spelling.
#[derive(Debug, Drop)]
pub struct Rec {
    parts: Kept,
}

impl Model for Rec {
    ghost use Rattle.xor_records.specs.Record.{Record, IsRecord};
    ghost use Rattle.xor_records.specs.Views.{kept};

    ghost Value = { Record };

    ghost view = { λ r. kept r.parts };

    ghost invariant = { λ r. IsRecord (kept r.parts) };
}

impl Rec {
    ghost use Rattle.std.specs.Prelude.{◌≡◌};
    ghost use Rattle.xor_records.specs.Record.{Record, IsRecord};
    ghost use Rattle.xor_records.specs.Views.{kept};

    pub(crate) fn new(parts: Kept) -> Rec
        requires { IsRecord (kept parts) }
        ensures { result ≡ kept parts }
    {
        Rec { parts }
    }

    /// The record, borrowed.
    pub fn view(&self) -> RecView<'_>
        ensures { result ≡ self.now }
    {
        match &self.parts {
            Kept::Diff { head, xor } => RecView::new(Kind::Diff {
                head: *head,
                xor: xor.as_slice(),
            }),
            Kept::Commit { txn } => RecView::new(Kind::Commit { txn: *txn }),
            Kept::End { txn } => RecView::new(Kind::End { txn: *txn }),
        }
    }
}
