//! The opening of an index.
ghost use Rattle.std.specs.Prelude.{◌≡◌, [], IfOk, length};
ghost use Rattle.olfit_rule.specs.Rule.{CanOpen, opener};

use crate::view::{Hand, Protocol, View};
use atomic_table::Table;
use base_types::OutOfMemory;
use std::alloc::Global;

/// The words of an index and their memory.
pub type Memory = Table<u64, View, Vec<u64>, Protocol, Global>;

/// An index with these words, and its writer. The words are those of the nodes, one node after the other, and
/// behind them the number of the root. Out of memory: there is no index.
pub fn opened(alloc: Global, words: &Vec<u64>) -> Result<(Memory, Hand), OutOfMemory>
    requires { CanOpen words.now.items }
    ensures table { IfOk result
        (λ t. (t.1.table_id ≡ t.0.shared.table_id) × (t.0.shared.table_id.words ≡ length words.now.items)) }
    ensures writer { IfOk result (λ t. t.1.me ≡ (opener words.now.items, [])) }
{
    Ok(Table::of_words(alloc, words.as_slice(), words)?)
}
