// Numbers whose most significant byte comes first.
ghost use Rattle.std.specs.Prelude.{◌≡◌, ◌+◌, ◌*◌};
ghost use Rattle.words.specs.Endian as endian;

use crate::byte_at;

// The number of four bytes.
pub fn u32_of(a: u8, b: u8, c: u8, d: u8) -> u32
    ensures { result ≡ ((a * 256 + b) * 256 + c) * 256 + d }
{
    // from_be_bytes of [a, b, c, d] was tried: AES takes 951 instructions a block by it, and 946 by this sum.
    (a as u32) * 0x100_0000 + (b as u32) * 0x1_0000 + (c as u32) * 0x100 + (d as u32)
}

// The number of the four bytes at a place.
pub fn u32_at(s: &[u8], at: usize) -> u32
    ensures { result ≡ endian.be 4 s.now at }
{
    if s.len() <= at {
        return 0;
    }
    if 4 <= s.len() - at {
        return u32_of(s[at], s[at + 1], s[at + 2], s[at + 3]);
    }
    u32_of(
        s[at],
        byte_at(s, at + 1),
        byte_at(s, at + 2),
        byte_at(s, at + 3),
    )
}

// The number of the eight bytes at a place.
pub fn u64_at(s: &[u8], at: usize) -> u64
    ensures { result ≡ endian.be 8 s.now at }
{
    if s.len() <= at {
        return 0;
    }
    (u32_at(s, at) as u64) * 0x1_0000_0000 + (u32_at(s, at + 4) as u64)
}

// The four bytes of a number.
pub fn bytes32(x: u32) -> [u8; 4]
    ensures { result ≡ endian.be_bytes 4 x }
{
    x.to_be_bytes()
}

// The eight bytes of a number.
pub fn bytes64(x: u64) -> [u8; 8]
    ensures { result ≡ endian.be_bytes 8 x }
{
    x.to_be_bytes()
}
