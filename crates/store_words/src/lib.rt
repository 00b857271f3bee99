// Words in little-endian order, read from and written to a run of bytes.
#![tactic(auto)]

ghost use Rattle.std.specs.Prelude.{◌≡◌, ◌+◌, ◌≤◌, length};
ghost use Rattle.rules.specs.Words.{u16_at, u32_at, u16_bytes, u32_bytes, over};

// The u16 at i.
pub fn u16_at(s: &[u8], i: usize) -> u16
    requires { i + 2 ≤ length s.now }
    ensures { result ≡ u16_at s.now i }
{
    u16::from_le_bytes([s[i], s[i + 1]])
}

// The u32 at i.
pub fn u32_at(s: &[u8], i: usize) -> u32
    requires { i + 4 ≤ length s.now }
    ensures { result ≡ u32_at s.now i }
{
    u32::from_le_bytes([s[i], s[i + 1], s[i + 2], s[i + 3]])
}

// Writes x at i.
pub fn put_u16(s: &mut [u8], i: usize, x: u16)
    requires { i + 2 ≤ length s.old }
    ensures { s.new ≡ over s.old i (u16_bytes x) }
{
    s[i..i + 2].copy_from_slice(&x.to_le_bytes());
}

// Writes x at i.
pub fn put_u32(s: &mut [u8], i: usize, x: u32)
    requires { i + 4 ≤ length s.old }
    ensures { s.new ≡ over s.old i (u32_bytes x) }
{
    s[i..i + 4].copy_from_slice(&x.to_le_bytes());
}
