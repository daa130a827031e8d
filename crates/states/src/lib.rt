// The library's states as bytes, for callers that cannot hold its structs (C): a hash, the key transformation, an
// opening, an inner stream.
//
// Each module has `pack`, the bytes of a state, and `unpack`, the state of any bytes. The contracts cite specs/ by the
// module's name; proofs/RoundTrip has the theorem: unpacking what was packed gives the state again. Numbers are
// little-endian. Nothing is refused here: bytes that no state packs to are a state all the same, and one whose mark is
// not listed is refused by the functions that go on with it.
#![tactic(auto)]

pub mod aes_kdf_state;
mod arrays;
pub mod inner_stream_state;
pub mod opener_state;
pub mod sha256_state;
pub mod sha512_state;
