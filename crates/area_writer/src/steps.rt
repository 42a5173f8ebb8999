// The device calls that close, fill and open the file of an area, in the order that a crash wants: a gate is opened
// once all that it opens is on the disk.
ghost use Rattle.std.specs.Prelude.{◌≡◌, ◌+◌, ◌<◌, ◌≤◌, ◌++◌, [], ◌∷◌, ℕ, List, length, IsSome, OnOk};
ghost use Rattle.std.specs.Option.{ForSome, option_map};
ghost use Rattle.std.specs.Int.{w16, to_le_bytes};
ghost use Rattle.base_types.specs.Causes.{HasCause};
ghost use Rattle.disk_core.specs.ChangeCalls.{Made, SyncCall, WriteCall};
ghost use Rattle.disk_core.specs.Crash.{Follows, NothingPending, Tears};
ghost use Rattle.disk_core.specs.Device.{written};
ghost use Rattle.disk_core.specs.Moments.{LeavesOnly};
ghost use Rattle.area_writer.specs.Crash.{StaysShut, TornFrom};
ghost use Rattle.area_writer.specs.Put.{HasText};

use disk_core::{Disk, Failed};

/// Writes this gate to a file and brings it to where a crash leaves it.
pub(crate) fn put_gate<D: Disk>(disk: &mut D, gate: u8) -> Result<(), Failed>
    ensures written { OnOk result
        (D.content disk.new ≡ option_map (written 0 (gate ∷ [])) (D.content disk.old)) }
    ensures calls { Made (WriteCall 0 (gate ∷ []) ∷ SyncCall ∷ []) result
        (D.calls disk.old) (D.calls disk.new) }
    ensures told { IsSome (D.content disk.old) → IsSome (D.content disk.new) }
    ensures durable { OnOk result (NothingPending (D.content disk.new) (D.may_leave disk.new)) }
    ensures crash { Follows (Tears 0 (gate ∷ [])) (D.may_leave disk.old) (D.may_leave disk.new) }
    ensures moments { LeavesOnly D.Disk disk.old disk.new (TornFrom (D.may_leave disk.old) 0 (gate ∷ [])) }
    ensures cause { HasCause (D.faults disk.old) (D.faults disk.new) result }
{
    disk.write_at(0, &[gate])?;
    disk.sync()
}

/// Writes these bytes behind what stands behind the gate.
pub(crate) fn put_behind<D: Disk>(disk: &mut D, at: u64, bytes: &[u8]) -> Result<(), Failed>
    requires behind { 1 ≤ at }
    requires inside { ForSome (D.content disk.old) (λ old. at ≤ length old) }
    ensures text { OnOk result ((text : List ℕ) → at ≡ 1 + length text
        → ForSome (D.content disk.old) (HasText text)
        → ForSome (D.content disk.new) (HasText (text ++ bytes.now))) }
    ensures calls { Made (WriteCall at bytes.now ∷ []) result (D.calls disk.old) (D.calls disk.new) }
    ensures shut { StaysShut D.Disk disk.old disk.new }
    ensures cause { HasCause (D.faults disk.old) (D.faults disk.new) result }
{
    disk.write_at(at, bytes)
}

/// Writes a header behind a closed gate: the fixed fields, the schema's length, and the schema.
pub(crate) fn put_header<D: Disk>(disk: &mut D, fields: &[u8], schema: &[u8]) -> Result<(), Failed>
    requires shut { ForSome (D.content disk.old) (HasText []) }
    requires fields { length fields.now ≡ 32 }
    requires short { length schema.now ≤ 18993 }
    ensures text { OnOk result (ForSome (D.content disk.new)
        (HasText (fields.now ++ to_le_bytes w16 (length schema.now) ++ schema.now))) }
    ensures calls { Made (WriteCall 1 fields.now ∷ WriteCall 33 (to_le_bytes w16 (length schema.now))
        ∷ WriteCall 35 schema.now ∷ []) result (D.calls disk.old) (D.calls disk.new) }
    ensures shut { StaysShut D.Disk disk.old disk.new }
    ensures cause { HasCause (D.faults disk.old) (D.faults disk.new) result }
{
    put_behind(disk, 1, fields)?;
    put_behind(disk, 33, &(schema.len() as u16).to_le_bytes())?;
    put_behind(disk, 35, schema)
}

/// Brings what was written to where a crash leaves it.
pub(crate) fn seal<D: Disk>(disk: &mut D) -> Result<(), Failed>
    ensures same { D.content disk.new ≡ D.content disk.old }
    ensures calls { Made (SyncCall ∷ []) result (D.calls disk.old) (D.calls disk.new) }
    ensures durable { OnOk result (NothingPending (D.content disk.new) (D.may_leave disk.new)) }
    ensures shut { StaysShut D.Disk disk.old disk.new }
    ensures cause { HasCause (D.faults disk.old) (D.faults disk.new) result }
{
    disk.sync()
}
