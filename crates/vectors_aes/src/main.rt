// AES-256 on the examples of FIPS 197 and SP 800-38A, on pseudo-random keys and blocks, and in CBC mode on every length
// to 300.
//
// A row is `name form length number result` (the crate `vectors`); the number is 0, for nothing is refused. The forms
// of `aes256`: the number of an example in its publication, and `-inverse` for the way back; `encrypt` and `decrypt`, a
// pseudo-random block under a pseudo-random key; `repeated-N`, a block encrypted N times. Those of `aes256-cbc`:
// `encrypt`, a message in one call; `decrypt`, a message in parts of one to five blocks, each behind a run that is too
// short for a block; `-next`, the ciphertext block that what follows is chained to; `back`, the message, encrypted in
// parts and decrypted in one call. tools/vectors_aes.py writes the stored stdout with OpenSSL.
#![tactic(auto)]

use std::io;

mod blocks;
mod examples;
mod runs;

fn main(rt: HostRuntime) -> io::Result<()> {
    examples::block(&rt)?;
    examples::key_expansion(&rt)?;
    examples::modes(&rt)?;
    blocks::random_blocks(&rt)?;
    blocks::repeated_blocks(&rt)?;
    let mut space = [0u8; 300];
    runs::lengths(&rt, &mut space)
}
