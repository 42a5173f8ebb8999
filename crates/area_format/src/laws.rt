// What holds of every area's file, as functions that do nothing: each contract is the law.
ghost use Rattle.std.specs.Prelude.{◌≡◌, ◌<◌, ◌+◌, ℕ, List, [], ◌∷◌, ◌++◌, Some, None, get_or};
ghost use Rattle.area_format.specs.Area.{Area, Holds, IsNotOpen, IsOpen};
ghost use Rattle.area_format.specs.AreaRead.{DamagedAt, Holding, NotOpen};
ghost use Rattle.area_format.specs.AreaRead.{area_in, area_reads, generation_told, header_fault};
ghost use Rattle.area_format.specs.AreaRead.{images_from};
ghost use Rattle.area_format.specs.Places.{image_bytes_at, image_head_at};
ghost use Rattle.area_format.specs.Results.{IsHeaderOf, image_fault};
ghost use Rattle.area_format.specs.declared.head.Header.{Header};

/// A file that isn't open reads as that, and a fault of its head is the fault of an open one.
pub fn reads_its_head()
    ensures not_open { (bytes : List ℕ) → IsNotOpen bytes → area_reads bytes ≡ NotOpen }
    ensures damaged { (bytes : List ℕ) (at : ℕ) → IsOpen bytes → header_fault bytes ≡ Some at
        → area_reads bytes ≡ DamagedAt at (generation_told bytes) }
{}

/// Behind a head that breaks no rule, the first image that breaks one is the fault of the file, and where
/// none does, the file holds the images that stand there, one after the other.
pub fn reads_image_by_image()
    ensures whole { (bytes : List ℕ) (header : Header) → IsHeaderOf bytes header
        → ((k : ℕ) → k < header.count → image_fault bytes k ≡ None)
        → area_reads bytes ≡ Holding (area_in bytes) }
    ensures damaged { (bytes : List ℕ) (header : Header) (k at : ℕ) → IsHeaderOf bytes header
        → k < header.count → ((j : ℕ) → j < k → image_fault bytes j ≡ None) → image_fault bytes k ≡ Some at
        → area_reads bytes ≡ DamagedAt at (Some header.generation) }
    ensures first { (bytes : List ℕ) → images_from bytes 0 0 ≡ [] }
    ensures next { (bytes : List ℕ) (k : ℕ) → images_from bytes 0 (k + 1)
        ≡ images_from bytes 0 k ++ record { head = image_head_at bytes k; bytes = image_bytes_at bytes k } ∷ [] }
    ensures all { (bytes : List ℕ) (header : Header) → IsHeaderOf bytes header
        → (area_in bytes).images ≡ images_from bytes 0 header.count }
{}

/// A file that holds an area reads as that area, whatever follows its last image.
pub fn reads_what_was_written()
    ensures { (area : Area) (bytes : List ℕ) → Holds area bytes → area_reads bytes ≡ Holding area }
{}

/// What a file of bytes reads as, it holds.
pub fn holds_what_it_reads()
    ensures { (area : Area) (bytes : List ℕ) → ((i : ℕ) → get_or bytes i 0 < 256)
        → area_reads bytes ≡ Holding area → Holds area bytes }
{}
