// Why a call of a schema is refused.
ghost use Rattle.std.specs.Prelude.{◌≡◌};
ghost use Rattle.row_types.specs.declared.fault.SlotFault.TheVariants as slot;
ghost use Rattle.row_types.specs.declared.fault.SchemaFault.TheVariants as schema;

use std::alloc::AllocFailed;
use thiserror::Error;

/// The bytes of a slot are no slot, or memory ran out.
#[derive(Clone, Copy, Debug, PartialEq, Eq, Error)]
pub enum SlotFault {
    /// The first byte, in the order of the slot, of what breaks its form.
    #[error("byte {at} is wrong")]
    BadSlot { at: u64 },
    #[error("out of memory")]
    OutOfMemory,
}

impl From<crate::OutOfMemory> for SlotFault {
    ghost from_gives = { λ _ e. e ≡ slot.OutOfMemory };

    fn from(_: crate::OutOfMemory) -> SlotFault {
        SlotFault::OutOfMemory
    }
}

/// Why a table isn't added to a schema.
#[derive(Clone, Copy, Debug, PartialEq, Eq, Error)]
pub enum SchemaFault {
    /// A table has its name.
    #[error("the table is there")]
    TableExists,
    /// There are as many tables as there may be.
    #[error("there are {limit} tables")]
    Tables { limit: u64 },
    /// It has more than 32 columns.
    #[error("{count} columns")]
    Columns { count: u64 },
    /// Two columns have one name: the number of the second, from 0.
    #[error("column {place} has the name of an earlier one")]
    SameName { place: u64 },
    /// Not one column is marked as the key, or one that doesn't hold whole numbers.
    #[error("no key")]
    NoKey,
    /// A slot has more bytes than a page.
    #[error("a slot of {bytes} bytes")]
    TooWide { bytes: u64 },
    #[error("out of memory")]
    OutOfMemory,
}

impl From<crate::OutOfMemory> for SchemaFault {
    ghost from_gives = { λ _ e. e ≡ schema.OutOfMemory };

    fn from(_: crate::OutOfMemory) -> SchemaFault {
        SchemaFault::OutOfMemory
    }
}

impl<T: Drop> From<AllocFailed<T>> for SchemaFault {
    ghost from_gives = { λ _ e. e ≡ schema.OutOfMemory };

    fn from(_: AllocFailed<T>) -> SchemaFault {
        SchemaFault::OutOfMemory
    }
}
