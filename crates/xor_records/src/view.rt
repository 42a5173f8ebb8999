// Records that stand in bytes.
use crate::record::Kept;
use crate::{Head, OutOfMemory, Rec};
use std::alloc::Global;
use std::marker::Model;

/// The parts of a record.
#[derive(Clone, Copy, Debug)]
pub enum Kind<'a> {
    /// A change: these XOR bytes from the head's offset on.
    Diff { head: Head, xor: &'a [u8] },
    /// The transaction committed.
    Commit { txn: u64 },
    /// The transaction ended, and what it changed was undone.
    End { txn: u64 },
}

/// A record that stands in borrowed bytes, seen as the record.
#[derive(Debug, Drop)]
pub struct RecView<'a> {
    kind: Kind<'a>,
}

impl<'a> Model for RecView<'a> {
    ghost use Rattle.xor_records.specs.Record.{Record, IsRecord};
    ghost use Rattle.xor_records.specs.Views.{seen};

    ghost Value = { Record };

    ghost view = { λ v. seen v.kind };

    ghost invariant = { λ v. IsRecord (seen v.kind) };
}

impl<'a> RecView<'a> {
    ghost use Rattle.std.specs.Prelude.{◌≡◌, IfOk};
    ghost use Rattle.xor_records.specs.Record.{Record, IsRecord};
    ghost use Rattle.xor_records.specs.Views.{seen};

    pub(crate) fn new(kind: Kind<'a>) -> RecView<'a>
        requires { IsRecord (seen kind) }
        ensures { result ≡ seen kind.entry }
    {
        RecView { kind }
    }

    /// Its parts.
    pub fn kind(&self) -> Kind<'a>
        ensures parts { seen result ≡ self.now }
        ensures record { IsRecord self.now }
    {
        self.kind
    }

    /// The same record, in memory of its own.
    pub fn keep(&self, alloc: Global) -> Result<Rec, OutOfMemory>
        ensures { IfOk result (λ rec. rec ≡ self.now) }
    {
        match self.kind {
            Kind::Diff { head, xor } => {
                let xor = Vec::from_slice(alloc, xor)?;
                Ok(Rec::new(Kept::Diff { head, xor }))
            }
            Kind::Commit { txn } => Ok(Rec::new(Kept::Commit { txn })),
            Kind::End { txn } => Ok(Rec::new(Kept::End { txn })),
        }
    }
}
