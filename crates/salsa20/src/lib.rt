// Salsa20 (D. J. Bernstein's specification), as KDBX uses it: a 32-byte key, an 8-byte nonce, and a block counter of 64
// bits that starts at 0.
//
// `Salsa20::apply` starts at any byte of the stream, so that a stretch goes on where the last one ended. Its contract
// cites the crate stream's `apply` over the specification's block function. No index depends on the key; of branches see
// docs/PROMISES.md, "Not claimed".
#![tactic(auto)]

ghost use Rattle.std.specs.Prelude.{◌≡◌};
ghost use Rattle.stream.specs.Stream as stream;
ghost use Rattle.salsa20.specs.Salsa20 as salsa20;

mod block;

// The cipher, for the operation that is its own.
#[derive(Clone, Copy)]
pub struct Salsa20;

impl Salsa20 {
    // Applies the stream of a key and a nonce to `out`, whose first byte stands at position `at`.
    pub fn apply(key: [u8; 32], nonce: [u8; 8], at: u64, out: &mut [u8])
        ensures { out.new ≡ stream.apply (salsa20.blocks key nonce) at out.old }
    {
        let mut done: usize = 0;
        // A turn covers what its block has left: by a for over blocks each turn would compute where it begins, no plainer.
        while done < out.len() {
            let block = block::block(key, stream::counter_at(at, done), nonce);
            done += stream::xor_block(&mut out[done..], block, stream::place_at(at, done));
        }
    }
}
