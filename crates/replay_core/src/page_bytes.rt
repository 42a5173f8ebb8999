// The bytes of pages.
ghost use Rattle.std.specs.Prelude.{◌≡◌, ◌+◌, ◌≤◌, ◌<◌, ◌^◌, All, IfOk, length, replicate};
ghost use Rattle.fields.specs.Toggle.{byte_at, byte_from, toggled};
ghost use Rattle.xor_records.specs.Replay.{zeros};

use crate::{Image, OutOfMemory};
use fields::xor_into;
use std::alloc::Global;

/// So many zeros.
fn zeros_of(alloc: Global, len: usize) -> Result<Vec<u8>, OutOfMemory>
    ensures { IfOk result (λ bytes. bytes.items ≡ replicate len 0) }
{
    let bytes = vec![in alloc; 0u8; len]?;
    Ok(bytes)
}

/// A page of zeros.
pub(crate) fn zeros(alloc: Global) -> Result<Vec<u8>, OutOfMemory>
    ensures { IfOk result (λ bytes. bytes.items ≡ zeros) }
{
    let bytes = zeros_of(alloc, 4096)?;
    Ok(bytes)
}

/// Flips the bits that `xor` has set, from `offset` on.
pub(crate) fn toggle(bytes: &mut [u8], offset: usize, xor: &[u8])
    requires { offset + length xor.now ≤ length bytes.old }
    ensures { bytes.new ≡ toggled (byte_from offset) bytes.old xor.now }
{
    let end = offset + xor.len();
    xor_into(&mut bytes[offset..end], xor);
}

/// Flips the bits of a page that `xor` has set, and says that these are bytes.
pub(crate) fn toggle_all(page: &mut Image, xor: &[u8])
    requires { length page.old.bytes ≡ length xor.now }
    ensures toggled { page.new ≡ record page.old { bytes = toggled byte_at page.old.bytes xor.now } }
    ensures bytes { All (λ x. x < 2 ^ 8) xor.now }
{
    page.toggle(xor);
}

/// A copy of these bytes, and that they are bytes.
pub(crate) fn copy(alloc: Global, bytes: &[u8]) -> Result<Vec<u8>, OutOfMemory>
    ensures same { IfOk result (λ copy. copy.items ≡ bytes.now) }
    ensures bytes { All (λ x. x < 2 ^ 8) bytes.now }
{
    let copy = Vec::from_slice(alloc, bytes)?;
    Ok(copy)
}
