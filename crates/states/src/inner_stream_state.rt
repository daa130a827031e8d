// An inner stream under way as 53 bytes: the cipher, its key, its nonce, the position.
//
// The contracts cite specs/InnerStreamState. The first byte is the algorithm's number, 2 or 3; any other is read as
// closed, so that a stretch of it is refused.
ghost use Rattle.std.specs.Prelude.{◌≡◌};
ghost use Rattle.states.specs.InnerStreamState as state;

use crate::arrays::array;
use inner_stream::{InnerStream, StreamCipher};

// The byte of a cipher.
fn byte_of(c: StreamCipher) -> u8
    ensures { result ≡ state.byte_of c }
{
    match c {
        StreamCipher::Salsa20 => 2,
        StreamCipher::ChaCha20 => 3,
        StreamCipher::Closed => 0,
    }
}

// The cipher of a byte.
fn cipher_of(b: u8) -> StreamCipher
    ensures { result ≡ state.cipher_of b }
{
    match b {
        2 => StreamCipher::Salsa20,
        3 => StreamCipher::ChaCha20,
        _ => StreamCipher::Closed,
    }
}

// The bytes of a state.
pub fn pack(s: InnerStream) -> [u8; 53]
    ensures { result ≡ state.packed s }
{
    let position = words::le::bytes64(s.position);
    let mut out = [0u8; 53];
    slices::put(&mut out, 0, &[byte_of(s.cipher)]);
    slices::put(&mut out, 1, &s.key);
    slices::put(&mut out, 33, &s.nonce);
    slices::put(&mut out, 45, &position);
    out
}

// The state of bytes.
pub fn unpack(b: [u8; 53]) -> InnerStream
    ensures { result ≡ state.unpacked b }
{
    let key = array(&b, 1);
    let nonce = array(&b, 33);
    let position = words::le::u64_at(&b, 45);
    InnerStream {
        cipher: cipher_of(b[0]),
        key,
        nonce,
        position,
    }
}
