// Numbers in bytes, little-endian.
#![tactic(auto, unfolding(crate::specs::Bytes::u16_at, crate::specs::Bytes::u32_at, crate::specs::Bytes::u64_at))]

ghost use Rattle.std.specs.Prelude.{◌≡◌, ◌+◌, ◌<◌, ◌≤◌, length};
ghost use Rattle.format.specs.Bytes.{u16_at, u32_at, u64_at};

// Two bytes as a number.
pub fn u16_at(bytes: &[u8], at: usize) -> u32
    requires { at + 2 ≤ length bytes.now }
    ensures { (result ≡ u16_at bytes.now at) × (result < 65536) }
{
    u32::from(u16::from_le_bytes([bytes[at], bytes[at + 1]]))
}

// Four bytes as a number.
pub fn u32_at(bytes: &[u8], at: usize) -> u32
    requires { at + 4 ≤ length bytes.now }
    ensures { result ≡ u32_at bytes.now at }
{
    u32::from_le_bytes([bytes[at], bytes[at + 1], bytes[at + 2], bytes[at + 3]])
}

// Eight bytes as a number.
pub fn u64_at(bytes: &[u8], at: usize) -> u64
    requires { at + 8 ≤ length bytes.now }
    ensures { result ≡ u64_at bytes.now at }
{
    u64::from_le_bytes([
        bytes[at],
        bytes[at + 1],
        bytes[at + 2],
        bytes[at + 3],
        bytes[at + 4],
        bytes[at + 5],
        bytes[at + 6],
        bytes[at + 7],
    ])
}
