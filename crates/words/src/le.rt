// Numbers whose least significant byte comes first.
ghost use Rattle.std.specs.Prelude.{◌≡◌, ◌+◌, ◌*◌};
ghost use Rattle.words.specs.Endian as endian;
ghost use Rattle.words.specs.Size.{int32};
ghost use Rattle.words.specs.Answers as answers;

use crate::byte_at;

// The number of what a size field holds: 0, or 5 of a negative size.
pub fn size_number(size: Option<u32>) -> u8
    ensures { result ≡ answers.number size }
{
    match size {
        Some(_) => 0,
        None => 5,
    }
}

// The size that a size field holds: 0 of a negative one.
pub fn size_value(size: Option<u32>) -> u32
    ensures { result ≡ answers.value size }
{
    match size {
        Some(n) => n,
        None => 0,
    }
}

// The number of four bytes.
pub fn u32_of(a: u8, b: u8, c: u8, d: u8) -> u32
    ensures { result ≡ a + 256 * (b + 256 * (c + 256 * d)) }
{
    u32::from_le_bytes([a, b, c, d])
}

// The number of the four bytes at a place.
pub fn u32_at(s: &[u8], at: usize) -> u32
    ensures { result ≡ endian.le 4 s.now at }
{
    if s.len() <= at {
        return 0;
    }
    if 4 <= s.len() - at {
        return u32_of(s[at], s[at + 1], s[at + 2], s[at + 3]);
    }
    u32_of(
        s[at],
        byte_at(s, at + 1),
        byte_at(s, at + 2),
        byte_at(s, at + 3),
    )
}

// The number of the eight bytes at a place.
pub fn u64_at(s: &[u8], at: usize) -> u64
    ensures { result ≡ endian.le 8 s.now at }
{
    if s.len() <= at {
        return 0;
    }
    (u32_at(s, at) as u64) + (u32_at(s, at + 4) as u64) * 0x1_0000_0000
}

// The size field (Int32) at a place: none where it holds a negative number.
pub fn size_at(s: &[u8], at: usize) -> Option<u32>
    ensures value { result ≡ int32 (endian.le 4 s.now at) }
    ensures result_value { answers.said result ≡ answers.said (int32 (endian.le 4 s.now at)) }
{
    let n = u32_at(s, at);
    if n < 0x8000_0000 { Some(n) } else { None }
}

// The four bytes of a number.
pub fn bytes32(x: u32) -> [u8; 4]
    ensures { result ≡ endian.le_bytes 4 x }
{
    x.to_le_bytes()
}

// The eight bytes of a number.
pub fn bytes64(x: u64) -> [u8; 8]
    ensures { result ≡ endian.le_bytes 8 x }
{
    x.to_le_bytes()
}
