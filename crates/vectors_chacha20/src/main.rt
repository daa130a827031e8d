// ChaCha20 on RFC 8439's vectors, and on messages by rule: every length to 300, whole and in parts, from many positions
// of the stream, and applied twice.
//
// A row is `name form length number result` (the crate `vectors`); the number is 0, for nothing is refused. The forms:
// the RFC's own number of an example; `whole`, a message in one call at position 0; `parts`, in parts whose lengths
// change, each at the position of its first byte; `odd`, the same for a message of n bytes at position 61 n + 1;
// `twice`, the message back, the stream applied from there to the whole and then in parts; `at_p` and `atP-parts`, a
// message at position P, of which the last two run over the end of the counter. tools/vectors_chacha20.py writes the
// stored stdout with OpenSSL.
#![tactic(auto)]

use std::io;

mod examples;
mod runs;

fn main(rt: HostRuntime) -> io::Result<()> {
    examples::blocks(&rt)?;
    examples::encryptions(&rt)?;
    let mut space = [0u8; 300];
    runs::lengths(&rt, &mut space)?;
    runs::positions(&rt, &mut space)
}
