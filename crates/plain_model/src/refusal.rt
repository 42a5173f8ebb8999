// The refusals that faults of the layers below are.
ghost use Rattle.std.specs.Prelude.{◌≡◌};
ghost use Rattle.plain_model.specs.Refusals.{refusal_of_check, refusal_of_schema};

use crate::Refusal;
use row_types::SchemaFault;
use sql_check::CheckFault;

impl Refusal {
    ghost use Rattle.plain_model.specs.Refusals.{refusal_of_check, refusal_of_schema};

    /// Why a statement doesn't fit the tables. `None`: memory ran out, which is no refusal.
    pub fn of_check(fault: CheckFault) -> Option<Refusal>
        ensures { result ≡ refusal_of_check fault }
    {
        match fault {
            CheckFault::NoTable => Some(Refusal::NoTable),
            CheckFault::NoColumn => Some(Refusal::NoColumn),
            CheckFault::Kind => Some(Refusal::Kind),
            CheckFault::Order => Some(Refusal::Order),
            CheckFault::KeyFixed => Some(Refusal::KeyFixed),
            CheckFault::Twice => Some(Refusal::Twice),
            CheckFault::Count { given, wanted } => Some(Refusal::Count { given, wanted }),
            CheckFault::Length { given, limit } => Some(Refusal::Length { given, limit }),
            CheckFault::OutOfMemory => None,
        }
    }

    /// Why a table isn't added. `None`: memory ran out, which is no refusal.
    pub fn of_schema(fault: SchemaFault) -> Option<Refusal>
        ensures { result ≡ refusal_of_schema fault }
    {
        match fault {
            SchemaFault::TableExists => Some(Refusal::TableExists),
            SchemaFault::Tables { limit } => Some(Refusal::Tables { limit }),
            SchemaFault::Columns { count } => Some(Refusal::Columns { count }),
            SchemaFault::SameName { place } => Some(Refusal::SameName { place }),
            SchemaFault::NoKey => Some(Refusal::NoKey),
            SchemaFault::TooWide { bytes } => Some(Refusal::TooWide { bytes }),
            SchemaFault::OutOfMemory => None,
        }
    }
}
