// What holds of every lane file, as functions that do nothing: each contract is the law.
ghost use Rattle.std.specs.Prelude.{◌≡◌, ◌<◌, ◌≤◌, ◌+◌, ℕ, Bool, List, [], ◌∷◌, ◌++◌, drop, get_or};
ghost use Rattle.lane_format.specs.Batches.{ReadTo, batch_at, stands};
ghost use Rattle.lane_format.specs.Lane.{IsLane};
ghost use Rattle.lane_format.specs.LaneRead.{AgreesWith, DamagedAt, Holding, IsOfFile, LaneRead};
ghost use Rattle.lane_format.specs.LaneRead.{head_reads, lane_reads, placed};
ghost use Rattle.lane_format.specs.declared.gate.AtGate.TheVariants.{Body, Broken, End};
ghost use Rattle.lane_format.specs.declared.head.Head.{Head};
ghost use Rattle.lane_format.specs.declared.head.Head.TheVariants.{Open};
ghost use Rattle.lane_format.specs.declared.segment.Batch.{Batch};

/// A file has at most one reading.
pub fn one_reading()
    ensures { (odd : Bool) (lane : ℕ) (bytes : List ℕ) (a b : LaneRead) →
        lane_reads odd lane bytes a → lane_reads odd lane bytes b → a ≡ b }
{}

/// A file of bytes has a reading.
pub fn some_reading()
    ensures { (odd : Bool) (lane : ℕ) (bytes : List ℕ) → ((i : ℕ) → get_or bytes i 0 < 256) →
        (read : LaneRead) × lane_reads odd lane bytes read }
{}

/// What a writer's reset and forces have made is read again, with each body at its place, whatever follows
/// it.
pub fn reads_what_was_written()
    ensures { (odd : Bool) (generation lane : ℕ) (bodies : List (List ℕ)) (bytes : List ℕ) →
        IsOfFile odd generation → IsLane generation lane bodies bytes →
        lane_reads odd lane bytes (Holding generation (placed 11 bodies)) }
{}

/// The head of a file reads as one thing.
pub fn one_head()
    ensures { (odd : Bool) (lane : ℕ) (bytes : List ℕ) (a b : Head) →
        head_reads odd lane bytes a → head_reads odd lane bytes b → a ≡ b }
{}

/// A whole reading agrees with that of the head. So a file that is damaged behind its head has a generation.
pub fn reads_its_head()
    ensures { (odd : Bool) (lane : ℕ) (bytes : List ℕ) (head : Head) (read : LaneRead) →
        head_reads odd lane bytes head → lane_reads odd lane bytes read → AgreesWith head read }
{}

/// A reading begins behind the head, and goes on by the batch that stands at its gate.
pub fn reads_batch_by_batch()
    ensures start { (bytes : List ℕ) → ReadTo bytes [] 11 }
    ensures next { (bytes : List ℕ) (batches : List Batch) (gate len : ℕ) → ReadTo bytes batches gate
        → stands (drop gate bytes) (Body len)
        → ReadTo bytes (batches ++ batch_at bytes gate len ∷ []) (gate + 5 + len) }
{}

/// At a gate that isn't open the batches so far are those of the file, and at a broken one the file is
/// damaged.
pub fn reads_to_its_end()
    ensures end { (odd : Bool) (lane : ℕ) (bytes : List ℕ) (generation : ℕ) (batches : List Batch) (gate : ℕ)
        → head_reads odd lane bytes (Open generation) → ReadTo bytes batches gate
        → stands (drop gate bytes) End
        → lane_reads odd lane bytes (Holding generation batches) }
    ensures broken { (odd : Bool) (lane : ℕ) (bytes : List ℕ) (generation : ℕ) (batches : List Batch)
        (gate : ℕ) → head_reads odd lane bytes (Open generation) → ReadTo bytes batches gate
        → stands (drop gate bytes) Broken
        → lane_reads odd lane bytes (DamagedAt gate) }
{}

/// What was read of a file so far is the beginning of all that it holds, and lies before any damage behind
/// the head.
pub fn begins_with_what_was_read()
    ensures whole { (odd : Bool) (lane : ℕ) (bytes : List ℕ) (generation : ℕ) (all batches : List Batch)
        (gate : ℕ) → lane_reads odd lane bytes (Holding generation all) → ReadTo bytes batches gate
        → (more : List Batch) × (all ≡ batches ++ more) }
    ensures damaged { (odd : Bool) (lane : ℕ) (bytes : List ℕ) (at : ℕ) (batches : List Batch) (gate : ℕ) →
        lane_reads odd lane bytes (DamagedAt at) → 11 ≤ at → ReadTo bytes batches gate → gate ≤ at }
{}
