//! Names, texts, rows, definitions of tables and the blocks
//! of a script: the values that every layer above speaks of.
#![tactic(auto)]

mod block;
mod columns;
mod definition;
mod fault;
mod page;
mod row;
mod schema;
mod schema_slots;
mod schema_text;
mod slot;
mod text;

pub use base_types::{Items, OutOfMemory, TryCopy};
pub use block::{Block, BlockEnd, PlacedText, Transaction};
pub use columns::Columns;
pub use definition::{Column, Kind, TableDef};
pub use fault::{SchemaFault, SlotFault};
pub use page::slots_hold_their_rows;
pub use row::{Row, Value, int_at};
pub use schema::{Schema, created_are_tables};
pub use schema_slots::one_slot;
pub use schema_text::schema_texts_are_short;
pub use text::{Name, Text};
