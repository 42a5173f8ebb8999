// What holds of every run, as a function whose contract is the law.
ghost use Rattle.std.specs.Prelude.{ℕ, List, ◌∷◌};
ghost use Rattle.row_types.specs.declared.definition.TableDef.{TableDef};
ghost use Rattle.list_store.specs.Keeping.{IsQuiet};
ghost use Rattle.section_runs.specs.Trail.{IsAmong, last_of};
ghost use Rattle.section_runs.specs.declared.section.SectionRun.{SectionRun};
ghost use Rattle.shell.specs.Running.{SectionsRan};

use disk_core::Disk;
use section_runs::one_beginning_among;

/// A run, a crash and a run again: the second run begins with the tables at the end of the first one's trail,
/// or with those that its stopped block leads to. So no block that has its replies is lost.
pub fn crash_then_run<D: Disk>()
    ensures { (defs : List TableDef) (old new later end : D) (shown again : List SectionRun)
        (bytes image : List ℕ) (ran : SectionsRan D.Disk defs old shown new) (quiet : IsQuiet D.Disk old bytes)
        (next : SectionsRan D.Disk defs later again end) → D.may_leave new image → IsQuiet D.Disk later image
        → IsAmong next.first (last_of ran.first ran.trail ∷ (ran.survives bytes quiet).flying) }
{
    one_beginning_among();
}
