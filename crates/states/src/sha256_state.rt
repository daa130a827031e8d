// A SHA-256 under way as 100 bytes: the eight chaining words, the buffer, the total.
//
// The contracts cite specs/Sha256State. Every value of the bytes is a state, as every value of the struct is.
ghost use Rattle.std.specs.Prelude.{◌≡◌};
ghost use Rattle.states.specs.Sha256State as state;

use crate::arrays::{array, put_words32, read_words32};
use sha256::Sha256;

// The bytes of a state.
pub fn pack(s: Sha256) -> [u8; 100]
    ensures { result ≡ state.packed s }
{
    let total = words::le::bytes32(s.total);
    let mut out = [0u8; 100];
    put_words32(&mut out, 0, &s.chain);
    slices::put(&mut out, 32, &s.buffer);
    slices::put(&mut out, 96, &total);
    out
}

// The state of bytes.
pub fn unpack(b: [u8; 100]) -> Sha256
    ensures { result ≡ state.unpacked b }
{
    let mut chain = [0u32; 8];
    read_words32(&mut chain, &b, 0);
    let buffer = array(&b, 32);
    let total = words::le::u32_at(&b, 96);
    Sha256 {
        chain,
        buffer,
        total,
    }
}
