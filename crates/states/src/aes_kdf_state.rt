// A key transformation under way as 281 bytes: a mark, the round keys, the halves, the rounds done and asked for.
//
// The contracts cite specs/AesKdfState. The mark is 1 of accepted rounds and 3 of refused ones; any byte but 1 is read
// as refused, and T is never given of it.
ghost use Rattle.std.specs.Prelude.{◌≡◌};
ghost use Rattle.states.specs.AesKdfState as state;

use crate::arrays::{array, put_words32, read_words32};
use aes::RoundKeys;
use aes_kdf::{Mark, Transformation};

// The byte of a mark.
fn byte_of(m: Mark) -> u8
    ensures { result ≡ state.byte_of m }
{
    match m {
        Mark::Accepted => 1,
        Mark::Refused => 3,
    }
}

// The mark of a byte.
fn mark_of(b: u8) -> Mark
    ensures { result ≡ state.mark_of b }
{
    match b {
        1 => Mark::Accepted,
        _ => Mark::Refused,
    }
}

// The bytes of a state.
pub fn pack(t: Transformation) -> [u8; 281]
    ensures { result ≡ state.packed t }
{
    let done = words::le::bytes32(t.done);
    let rounds = words::le::bytes32(t.rounds);
    let mut out = [0u8; 281];
    slices::put(&mut out, 0, &[byte_of(t.mark)]);
    put_words32(&mut out, 1, &t.keys.words);
    slices::put(&mut out, 241, &t.left);
    slices::put(&mut out, 257, &t.right);
    slices::put(&mut out, 273, &done);
    slices::put(&mut out, 277, &rounds);
    out
}

// The state of bytes.
pub fn unpack(b: [u8; 281]) -> Transformation
    ensures { result ≡ state.unpacked b }
{
    let mut words = [0u32; 60];
    read_words32(&mut words, &b, 1);
    let left = array(&b, 241);
    let right = array(&b, 257);
    let done = words::le::u32_at(&b, 273);
    let rounds = words::le::u32_at(&b, 277);
    Transformation {
        mark: mark_of(b[0]),
        keys: RoundKeys { words },
        left,
        right,
        done,
        rounds,
    }
}
