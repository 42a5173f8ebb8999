// Bytes of a page.
ghost use Rattle.std.specs.Prelude.{◌≡◌, ◌↔◌, ◌+◌, ◌≤◌, ℕ, List, Some, IsTrue, length, replicate, slice_set};
ghost use Rattle.block_pool.specs.Blocks.{Holds};
ghost use Rattle.fields.specs.Toggle.{byte_from, toggled};

use block_pool::{Block, Pool};
use fields::xor_into;

/// Whether all bytes are 0.
pub(crate) fn are_zero(bytes: &[u8]) -> bool
    ensures { IsTrue result ↔ (bytes.now ≡ replicate (length bytes.now) 0) }
{
    bytes.iter().all(|byte| *byte == 0)
}

/// The bits that `xor` has set are flipped from `offset` on.
pub(crate) fn toggle(bytes: &mut [u8], offset: usize, xor: &[u8])
    requires { offset + length xor.now ≤ length bytes.old }
    ensures { bytes.new ≡ toggled (byte_from offset) bytes.old xor.now }
{
    let end = offset + xor.len();
    xor_into(&mut bytes[offset..end], xor);
}

/// Flips the bits that `xor` has set in the bytes of a block, from `offset` on. All other blocks stay.
pub(crate) fn toggle_block(pool: &mut Pool, block: &Block, offset: u16, xor: &[u8])
    requires out { (bytes : List ℕ) × Holds pool.old block.now bytes }
    requires inside { offset + length xor.now ≤ 4096 }
    ensures { (bytes : List ℕ) → Holds pool.old block.now bytes
        → pool.new ≡ slice_set pool.old block.now (Some (toggled (byte_from offset) bytes xor.now)) }
{
    toggle(pool.bytes_mut(block), offset as usize, xor);
}

/// Puts the bytes of an image in the place of a block's. All other blocks stay.
pub(crate) fn put(pool: &mut Pool, block: &Block, image: &[u8])
    requires out { (bytes : List ℕ) × Holds pool.old block.now bytes }
    requires len { length image.now ≡ 4096 }
    ensures { pool.new ≡ slice_set pool.old block.now (Some image.now) }
{
    pool.bytes_mut(block).copy_from_slice(image);
}
