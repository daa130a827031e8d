// BLAKE2b on RFC 7693's example and on messages by rule, whole and in parts, with every digest length, and at the limit of
// a message; and Argon2's hash H' of many lengths.
//
// A row is `name form length number digest` (the crate `vectors`). The forms of `blake2b`: `abc`, the example; `whole`, one
// feed; `bytes`, fed byte by byte; `parts`, fed in parts whose lengths change, in both with an empty feed before each, all
// with digests of 64 bytes; `digest`, a digest of each length; `over`, a feed that would pass the limit; `limit`, up to the
// limit; `past` and `empty`, one byte more there and none. Of `argon2-h`: `fill`, a slice filled with H' of its length.
// tools/vectors_blake2b.py writes the stored stdout with Python's hashlib.
#![tactic(auto)]

use std::io;

mod on_blake2b;
mod on_long;

fn main(rt: HostRuntime) -> io::Result<()> {
    let mut m = vectors::million(0);
    vectors::pattern(&mut m);
    on_blake2b::rows(&rt, &m)?;
    on_long::rows(&rt, &m)
}
