//! Numbers of four bytes.
ghost use Rattle.std.specs.Prelude.{◌≡◌, length};
ghost use Rattle.std.specs.Int.{w32, from_le_bytes, to_le_bytes};

/// The number that four bytes spell, the lowest byte first.
pub(crate) fn number(four: &[u8]) -> u32
    requires { length four.now ≡ 4 }
    ensures value { result ≡ from_le_bytes w32 four.now }
    ensures spelling { to_le_bytes w32 result ≡ four.now }
{
    u32::from_le_bytes([four[0], four[1], four[2], four[3]])
}
