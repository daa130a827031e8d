// A data block's part for ChaCha20: every byte is due, and the stream goes on where the block before ended.
ghost use Rattle.std.specs.Prelude.{◌≡◌, ◌≤◌, length};
ghost use Rattle.slices.specs.Over.{over};
ghost use Rattle.opening.specs.Decryption.{chacha_from};

use chacha20::ChaCha20;
use opening::Keys;

// Fills `out` with the data and applies the stream, of which c bytes came before.
fn apply_run(keys: Keys, c: usize, d: &[u8], out: &mut [u8])
    requires { length out.old ≡ length d.now }
    ensures { out.new ≡ chacha_from keys c d.now }
{
    let key = keys.key;
    let nonce = keys.nonce;
    slices::copy(out, d);
    ChaCha20::apply(key, ciphers::short_nonce(nonce), c as u64, out);
}

// A data block's part for ChaCha20: every byte is due.
pub(crate) fn take_chacha(keys: Keys, c: usize, d: &[u8], out: &mut [u8])
    requires { length d.now ≤ length out.old }
    ensures { out.new ≡ over (chacha_from keys c d.now) out.old }
{
    let n = d.len();
    apply_run(keys, c, d, &mut out[..n]);
}
