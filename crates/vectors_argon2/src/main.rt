// Argon2d and Argon2id on RFC 9106's examples, on the figures of other programs' vaults and on pseudo-random ones, at
// the bounds of each figure and one beyond, and with too little memory.
//
// Standard input has a line for each case: its name, the function (`hash` or `transform`), the type y (0 or 2),
// password or composite key, salt, secret, associated data, passes, memory in bytes, lanes, words lent, and the tag's
// length. Standard output has two rows for each: `function name length number tag` (the crate `vectors`), and `memory
// name zeros kept`: how many lent words are zeros at the front, and how many at the end hold what they held before.
// The rows of `long-message` stand behind those of the lines. tools/vectors_argon2.py writes both, with libargon2.
#![tactic(auto)]

use std::io;
use vectors::table::{self, Lines};

mod lent;
mod long_message;
mod runs;

fn main(rt: HostRuntime) -> io::Result<()> {
    let cases = table::read(&rt, 131_072)?;
    // the most words that are lent: 1,200 blocks
    let mut memory = vec![in rt.alloc(); 0u64; 153_600]?;
    for line in Lines::of(&cases) {
        runs::rows(&rt, line, &mut memory)?;
    }
    long_message::rows(&rt, b'a', &mut memory)
}
