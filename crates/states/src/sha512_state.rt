// A SHA-512 under way as 196 bytes: the eight chaining words, the buffer, the total.
//
// The contracts cite specs/Sha512State. Every value of the bytes is a state, as every value of the struct is.
ghost use Rattle.std.specs.Prelude.{◌≡◌};
ghost use Rattle.states.specs.Sha512State as state;

use crate::arrays::{array, put_words64, read_words64};
use sha512::Sha512;

// The bytes of a state.
pub fn pack(s: Sha512) -> [u8; 196]
    ensures { result ≡ state.packed s }
{
    let total = words::le::bytes32(s.total);
    let mut out = [0u8; 196];
    put_words64(&mut out, 0, &s.chain);
    slices::put(&mut out, 64, &s.buffer);
    slices::put(&mut out, 192, &total);
    out
}

// The state of bytes.
pub fn unpack(b: [u8; 196]) -> Sha512
    ensures { result ≡ state.unpacked b }
{
    let mut chain = [0u64; 8];
    read_words64(&mut chain, &b, 0);
    let buffer = array(&b, 64);
    let total = words::le::u32_at(&b, 192);
    Sha512 {
        chain,
        buffer,
        total,
    }
}
