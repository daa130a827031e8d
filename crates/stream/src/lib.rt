// Key streams: what holds of every cipher that makes blocks of 64 bytes from a counter and applies them by
// exclusive or.
//
// specs/Stream defines the stream of any block function, and proofs/Laws has what follows: applied twice it gives the
// bytes back, and cut in two it gives what it gives uncut. specs/Words has what the block functions share: sums of
// sixteen words, and their bytes. The code is what such ciphers share: where a byte stands in the stream, a block from
// two states, and a block applied. Every function answers every input.
#![tactic(auto)]

ghost use Rattle.std.specs.Prelude.{◌≡◌, ◌+◌, ◌-◌, ◌/◌, ◌%◌, ◌≤◌, min, length, drop};
ghost use Rattle.std.proofs.lemmas.List.Edits.{sets};
ghost use Rattle.slices.specs.Over.{over};
ghost use Rattle.words.specs.Endian as endian;
ghost use Rattle.words.specs.Xor.{xors};
ghost use Rattle.stream.specs.Words.{sum, serialize};

use words::le::bytes32;
use words::{plus32, plus64};

// The counter of a stream's first block.
pub const FIRST_COUNTER: u64 = 0;

// The counter of the block that has byte `done` of a stretch whose first byte stands at position `at`. The sum of both
// may pass 2^64 and wrap; the counter goes on, by the 2^58 blocks of 2^64 bytes.
pub fn counter_at(at: u64, done: usize) -> u64
    ensures { result ≡ (at + done) / 64 }
{
    let p = plus64(at, done as u64);
    if p < at {
        return FIRST_COUNTER + p / 64 + 0x400_0000_0000_0000;
    }
    FIRST_COUNTER + p / 64
}

// The place in that block of that byte.
pub fn place_at(at: u64, done: usize) -> usize
    ensures { result ≡ (at + done) % 64 }
{
    (plus64(at, done as u64) % 64) as usize
}

// Writes a word's four bytes at a place.
fn put_word(out: &mut [u8; 64], at: usize, x: u32)
    requires { at + 4 ≤ 64 }
    ensures { out.new ≡ sets out.old at (endian.le_bytes 4 x) }
{
    out[at..at + 4].copy_from_slice(&bytes32(x));
}

// The sums of two states' words, serialized.
pub fn serialize_sum(s: [u32; 16], t: [u32; 16]) -> [u8; 64]
    ensures { result ≡ serialize (sum s t) }
{
    let mut out = [0u8; 64];
    for i in 0..16 {
        put_word(&mut out, i * 4, plus32(s[i], t[i]));
    }
    out
}

// Applies a block, from a place in it on, to the front of `out`, and says to how many bytes.
pub fn xor_block(out: &mut [u8], block: [u8; 64], from: usize) -> usize
    ensures value { result ≡ min (length out.old) (64 - from) }
    ensures out_after { out.new ≡ over (xors out.old (drop from block)) out.old }
{
    let n = out.len().min(64usize.saturating_sub(from));
    for i in 0..n {
        out[i] ^= block[from + i];
    }
    n
}
