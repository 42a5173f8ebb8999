// What holds of the pages that images and records stand for, for those who read logs, each law the contract
// of a function that does nothing.
ghost use Rattle.std.specs.Prelude.{ℕ, Bool, List, ◌≤◌, drop};
ghost use Rattle.lane_format.specs.Batches.{stands};
ghost use Rattle.lane_format.specs.LaneRead.{DamagedAt, head_reads, lane_reads};
ghost use Rattle.lane_format.specs.declared.gate.AtGate.TheVariants.{Broken};
ghost use Rattle.lane_format.specs.declared.head.Head.TheVariants.{Open};
ghost use Rattle.replay_core.specs.Laws.{OpenBatchLeaves, AbsentIsZeros};
ghost use Rattle.replay_core.specs.Segments.{AreBefore, AreInBody, EndsBehind, HoldsAll, Placed};

/// The pages are the same whether or not a batch is read, at any place among the records, if its records are
/// all changes above the stamps of their pages' images by transactions that haven't ended. Pages that are
/// there by the batch alone are zeros.
pub fn a_batch_of_open_changes_leaves_all_pages()
    ensures { OpenBatchLeaves }
{}

/// A page that has neither an image nor a change is zeros.
pub fn a_page_that_is_not_there_is_zeros()
    ensures { AbsentIsZeros }
{}

/// Where a reader comes to the end of a file, the file is whole, of the generation that its head says, and
/// what was read is the records of its batches, in their order.
pub fn reads_all_records()
    ensures { (odd : Bool) (lane : ℕ) (bytes : List ℕ) (generation : ℕ) (items : List Placed)
        → head_reads odd lane bytes (Open generation) → EndsBehind bytes items
        → HoldsAll odd lane bytes generation items }
{}

/// An open gate without a batch behind what was read is where the whole file is damaged. Damage in the body
/// of a batch lies before that of any gate.
pub fn finds_the_first_damage()
    ensures gate { (odd : Bool) (lane : ℕ) (bytes : List ℕ) (generation : ℕ) (items : List Placed) (at : ℕ)
        → head_reads odd lane bytes (Open generation) → AreBefore bytes items at
        → stands (drop at bytes) Broken → lane_reads odd lane bytes (DamagedAt at) }
    ensures body { (odd : Bool) (lane : ℕ) (bytes : List ℕ) (generation : ℕ) (items : List Placed)
        (at end later : ℕ) → head_reads odd lane bytes (Open generation) → AreInBody bytes items at end
        → lane_reads odd lane bytes (DamagedAt later) → end ≤ later }
{}
