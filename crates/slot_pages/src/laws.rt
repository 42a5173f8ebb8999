// What holds of pages.
ghost use Rattle.std.specs.Prelude.{◌≡◌, ◌≢◌, ℕ, List, Option, slice_set};
ghost use Rattle.block_pool.specs.Blocks.{Blocks, IsFree};
ghost use Rattle.fields.specs.Toggle.{byte_from, toggled};
ghost use Rattle.slot_pages.specs.State.{PageState, IsPage, bytes_in};

/// Bytes that are toggled twice by the same are as before.
pub fn a_page_toggled_twice_is_as_before()
    ensures { (bytes xor : List ℕ) (offset : ℕ)
        → toggled (byte_from offset) (toggled (byte_from offset) bytes xor) xor ≡ bytes }
{}

/// While another block of the pool changes, is given out or comes back, a page stays one, with its bytes.
pub fn a_page_stays_while_another_block_changes()
    ensures page { (pool : Blocks) (page : PageState) (other : ℕ) (entry : Option (List ℕ))
        → other ≢ page.block → IsPage pool page → IsPage (slice_set pool other entry) page }
    ensures bytes { (pool : Blocks) (page : PageState) (other : ℕ) (entry : Option (List ℕ))
        → other ≢ page.block → bytes_in (slice_set pool other entry) page ≡ bytes_in pool page }
{}

/// A free block is no page's.
pub fn a_free_block_is_no_pages()
    ensures { (pool : Blocks) (page : PageState) (block : ℕ)
        → IsFree pool block → IsPage pool page → block ≢ page.block }
{}
