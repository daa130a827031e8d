// The inner stream on stretches by rule, under both algorithms: straight from the inner key, every length to 150 at many
// positions, and what is refused; and by a state, one stretch after the other.
//
// A row is `name form length number result` (the crate `vectors`): the algorithm, the form, the length of the stretch or,
// of `start`, of the key, and all of the lent output, which is AA before each call. The inner key is the pattern's first
// 64 bytes but for the forms that name another.
//
//   odd               n bytes at position 61 n + 1, with two bytes more lent
//   first, next       23 bytes at position 0, and 19 at position 23
//   twice             a stretch, and its result, covered at one position
//   key0, key200      a key of so many bytes
//   longest, over     the longest key, and one byte more
//   last, end         the last bytes of the stream, and one byte further
//   wrap              a position whose sum with the length is past 2^64
//   room, both        an output one byte too short; that, and a stretch that ends too far
//   other             another algorithm
//   start             a state's start; behind it its stretches:
//   carry             one after the other, 23 and 19 first
//   short             one with an output a byte too short, which the next one does not notice
//   moved             at the last 42 positions; then one byte more, and none
//   past              at a position that no call leaves
//   closed            after a refused start
// tools/vectors_inner_stream.py writes the stored stdout, with libsodium and OpenSSL.
#![tactic(auto)]

use algorithm::Algorithm;
use std::io;

mod algorithm;
mod carried;
mod runs;
mod shown;

fn main(rt: HostRuntime) -> io::Result<()> {
    let both = [Algorithm::Salsa20, Algorithm::Chacha20];
    for a in both {
        runs::lengths(&rt, a)?;
    }
    for a in both {
        runs::forms(&rt, a)?;
    }
    runs::others(&rt)?;
    for a in both {
        carried::stretches(&rt, a)?;
    }
    carried::others(&rt)?;
    runs::limits(&rt)
}
