// What holds of a keeper's calls, as functions that do nothing: each contract is the law.
ghost use Rattle.std.specs.Prelude.{◌≡◌, List, [], None};
ghost use Rattle.row_types.specs.declared.block.Block.{Block};
ghost use Rattle.row_types.specs.declared.definition.TableDef.{TableDef};
ghost use Rattle.plain_model.specs.Calls.{Call};
ghost use Rattle.engine_txn.specs.declared.tried.Tried.{Tried};
ghost use Rattle.engine_txn.specs.Tries.{Tries};
ghost use Rattle.call_log.specs.History.{IsHistory, last_batch};
ghost use Rattle.call_laws.specs.Comings.{Comes};

/// A try of a block has the replies that the block means on the tables of all transactions committed before,
/// and adds its changes to the log as one batch; or memory ran out, and it has done nothing. A keeper in
/// memory has no device that fails and no other transaction in the way.
pub fn tries_mean_their_blocks()
    ensures { (defs : List TableDef) (block : Block) (old new : List Call) (tried : Tried)
        → IsHistory defs new → last_batch old ≡ [] → Tries defs None block old tried new → Comes defs block old tried new }
{}
