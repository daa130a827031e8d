// ChaCha20 (RFC 8439), as KDBX uses it: a 32-byte key, a 12-byte nonce, and a block counter that starts at 0.
//
// `ChaCha20::apply` starts at any byte of the stream, so the blocks of a vault are taken one after the other without
// restarting it. Its contract cites the crate stream's `apply` over RFC 8439's block function. The counter is a word of
// 32 bits: behind 2^38 bytes, which no vault has, the stream begins again. No index depends on the key; of branches see
// docs/PROMISES.md, "Not claimed".
#![tactic(auto)]

ghost use Rattle.std.specs.Prelude.{◌≡◌};
ghost use Rattle.stream.specs.Stream as stream;
ghost use Rattle.chacha20.specs.Rfc8439 as rfc8439;

mod block;

// The cipher, for the constants and the operation that are its own.
#[derive(Clone, Copy)]
pub struct ChaCha20;

impl ChaCha20 {
    // The identifier in a vault's outer header.
    pub const ID: [u8; 16] = [
        0xd6, 0x03, 0x8a, 0x2b, 0x8b, 0x6f, 0x4c, 0xb5, 0xa5, 0x24, 0x33, 0x9a, 0x31, 0xdb, 0xb5,
        0x9a,
    ];
    // How many bytes a nonce has.
    pub const NONCE_LEN: usize = 12;

    // Applies the stream of a key and a nonce to `out`, whose first byte stands at position `at`.
    pub fn apply(key: [u8; 32], nonce: [u8; 12], at: u64, out: &mut [u8])
        ensures { out.new ≡ stream.apply (rfc8439.blocks key nonce) at out.old }
    {
        let mut done: usize = 0;
        // A turn covers what its block has left: by a for over blocks each turn would compute where it begins, no plainer.
        while done < out.len() {
            let counter = stream::counter_at(at, done);
            let block = block::block(key, (counter % 0x1_0000_0000) as u32, nonce);
            done += stream::xor_block(&mut out[done..], block, stream::place_at(at, done));
        }
    }
}
