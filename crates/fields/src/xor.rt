// XOR of bytes in place.
ghost use Rattle.std.specs.Prelude.{◌≡◌, length};
ghost use Rattle.fields.specs.Toggle.{byte_at, toggled};

/// Each byte of `into` becomes its XOR with the byte of `by` at the same place.
pub fn xor_into(into: &mut [u8], by: &[u8])
    requires { length into.old ≡ length by.now }
    ensures { into.new ≡ toggled byte_at into.old by.now }
{
    for i in 0..into.len() {
        into[i] ^= by[i];
    }
}
