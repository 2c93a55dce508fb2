// Bytes that are 0 past the end, and little-endian numbers made of them.
#![tactic(auto)]

ghost use Rattle.std.specs.Prelude.{◌≡◌, ◌+◌, ◌*◌, get_or};
ghost use Rattle.words.specs.Numbers.{word_at};

// The byte at a place, and 0 past the end.
pub fn byte_at(bytes: &[u8], at: usize) -> u8
    ensures { result ≡ get_or bytes.now at 0 }
{
    bytes.get(at).copied().unwrap_or(0)
}

// The number of two bytes, the lowest first.
pub fn half_word(a: u8, b: u8) -> u16
    ensures { result ≡ a + 256 * b }
{
    u16::from_le_bytes([a, b])
}

// The number of four bytes, the lowest first.
pub fn word(a: u8, b: u8, c: u8, d: u8) -> u32
    ensures { result ≡ a + 256 * b + 65536 * c + 16777216 * d }
{
    u32::from_le_bytes([a, b, c, d])
}

// The number of the four bytes from a place on; those past the end count as 0.
pub fn word_at(bytes: &[u8], at: usize) -> u32
    ensures { result ≡ word_at bytes.now at }
{
    if bytes.len() <= at {
        return 0;
    }
    let b = byte_at(bytes, at + 1);
    let c = byte_at(bytes, at + 2);
    let d = byte_at(bytes, at + 3);
    word(bytes[at], b, c, d)
}

// The number of two words, the lower first.
pub fn long_word(low: u32, high: u32) -> u64
    ensures { result ≡ low + 4294967296 * high }
{
    u64::from(low) + (u64::from(high) << 32)
}
