// How the words of a block are read: straight from bytes that are known to be there, or by the word's own `read`, which
// answers for any bytes. (Straight, a word of either algorithm is one load; u64's own `read` is more instructions.)
ghost use Rattle.std.specs.Prelude.{◌≡◌, ◌+◌, ◌*◌, ◌≤◌, length};
ghost use Rattle.words.specs.Endian.{be};

use crate::word::Word;

// A way to read words.
pub(crate) trait Reading<W: Word> {
    // The word of a block at a place among its words.
    fn word(block: &[u8], i: usize) -> W
        requires { i * W.sha2.bytes + W.sha2.bytes ≤ length block.now }
        ensures { W.number result ≡ be W.sha2.bytes block.now (i * W.sha2.bytes) };
}

// By the word's own `read`.
pub(crate) struct Own;

impl<W: Word> Reading<W> for Own {
    fn word(block: &[u8], i: usize) -> W {
        W::read(block, i)
    }
}

// Straight from the bytes, for the words of the two algorithms.
pub(crate) struct Straight;

// The number of four bytes at a place. (`words::be::u32_at` would test the length for each word.)
fn half_at(s: &[u8], at: usize) -> u32
    requires { at + 4 ≤ length s.now }
    ensures { result ≡ be 4 s.now at }
{
    words::be::u32_of(s[at], s[at + 1], s[at + 2], s[at + 3])
}

impl Reading<u32> for Straight {
    fn word(block: &[u8], i: usize) -> u32 {
        half_at(block, i * 4)
    }
}

impl Reading<u64> for Straight {
    // In two halves, each of which compiles to one load.
    fn word(block: &[u8], i: usize) -> u64 {
        (half_at(block, i * 8) as u64) * 0x1_0000_0000 + (half_at(block, i * 8 + 4) as u64)
    }
}
