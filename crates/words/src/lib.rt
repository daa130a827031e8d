// Machine words: sums, and the bytes that numbers are read from and written as, in both orders.
//
// The contracts cite specs/Word (sums) and specs/Endian (a number and its bytes). Every function answers every input:
// where a reading runs past the end of a slice, the missing bytes count as zeros, as in the definitions.
#![tactic(auto)]

ghost use Rattle.std.specs.Prelude.{◌≡◌, slice_index};
ghost use Rattle.words.specs.Word as word;

pub mod be;
pub mod le;

// The sum of two words, modulo 2^32.
pub fn plus32(x: u32, y: u32) -> u32
    ensures { result ≡ word.plus 32 x y }
{
    u32::wrapping_add(x, y)
}

// The sum of two words, modulo 2^64.
pub fn plus64(x: u64, y: u64) -> u64
    ensures { result ≡ word.plus 64 x y }
{
    u64::wrapping_add(x, y)
}

// The byte at a place of a slice, zero behind its end.
pub fn byte_at(s: &[u8], at: usize) -> u8
    ensures { result ≡ slice_index s.now at }
{
    s.get(at).copied().unwrap_or(0)
}
