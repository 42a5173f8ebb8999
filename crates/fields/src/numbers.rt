// Numbers that stand in bytes, the lowest byte first.
ghost use Rattle.std.specs.Prelude.{◌≡◌, ◌+◌, ◌≤◌, length};
ghost use Rattle.std.specs.Int.{w16, w32, w64, from_le_bytes, to_le_bytes};
ghost use Rattle.fields.specs.Fields.{bytes_at, with_bytes};

/// The number in the two bytes from place `at` on.
pub fn get_u16(from: &[u8], at: usize) -> u16
    requires { at + 2 ≤ length from.now }
    ensures { result ≡ from_le_bytes w16 (bytes_at at 2 from.now) }
{
    u16::from_le_bytes([from[at], from[at + 1]])
}

/// The number in the four bytes from place `at` on.
pub fn get_u32(from: &[u8], at: usize) -> u32
    requires { at + 4 ≤ length from.now }
    ensures { result ≡ from_le_bytes w32 (bytes_at at 4 from.now) }
{
    u32::from_le_bytes([from[at], from[at + 1], from[at + 2], from[at + 3]])
}

/// The number in the eight bytes from place `at` on.
pub fn get_u64(from: &[u8], at: usize) -> u64
    requires { at + 8 ≤ length from.now }
    ensures { result ≡ from_le_bytes w64 (bytes_at at 8 from.now) }
{
    u64::from_le_bytes([
        from[at],
        from[at + 1],
        from[at + 2],
        from[at + 3],
        from[at + 4],
        from[at + 5],
        from[at + 6],
        from[at + 7],
    ])
}

/// Writes `v` into the two bytes from place `at` on.
pub fn put_u16(into: &mut [u8], at: usize, v: u16)
    requires { at + 2 ≤ length into.old }
    ensures { into.new ≡ with_bytes at (to_le_bytes w16 v) into.old }
{
    into[at..at + 2].copy_from_slice(&v.to_le_bytes());
}

/// Writes `v` into the four bytes from place `at` on.
pub fn put_u32(into: &mut [u8], at: usize, v: u32)
    requires { at + 4 ≤ length into.old }
    ensures { into.new ≡ with_bytes at (to_le_bytes w32 v) into.old }
{
    into[at..at + 4].copy_from_slice(&v.to_le_bytes());
}

/// Writes `v` into the eight bytes from place `at` on.
pub fn put_u64(into: &mut [u8], at: usize, v: u64)
    requires { at + 8 ≤ length into.old }
    ensures { into.new ≡ with_bytes at (to_le_bytes w64 v) into.old }
{
    into[at..at + 8].copy_from_slice(&v.to_le_bytes());
}
