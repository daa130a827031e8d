// Vaults that are written, and what the writer refuses, with ties for the order of its checks.
//
// A row is `name form figure number digits` (the crate `vectors`). The names: `written`, with the length and SHA-256 of
// a file, or 0 and a refusal's number; `behind`, with the length and SHA-256 of the bytes behind the file, all where it
// is refused, of an output that was EE; `file`, with a file's bytes, where the form begins with `file-`. The form says
// what the case is. Standard input has a line for each: `FORM minor cipher master-seed nonce KDF salt figures custom T
// payload room`. The KDF is 0 for AES-KDF, 1 for Argon2d and 2 for Argon2id; its figures are three numbers: rounds, 0
// and 0, or passes, memory and lanes. A payload that is a number has so many bytes by rule (vectors::pattern). The room
// is what is lent, of an output of 65,536 bytes, or of a large one of 2,162,688 where it is more. A payload at its
// limit, 16,777,216 bytes, and one over it are not among them: tests/differential runs these over the static library.
// tools/vectors_writer.py writes stdin and stdout, by a writer of its own.
#![tactic(auto)]

use std::io;
use vectors::table::{self, Lines};

mod writing;

fn main(rt: HostRuntime) -> io::Result<()> {
    let cases = table::read(&rt, 262_144)?;
    let mut pattern = vec![in rt.alloc(); 0; 4_194_305]?;
    vectors::pattern(&mut pattern);
    for line in Lines::of(&cases) {
        writing::line(&rt, line, &pattern)?;
    }
    Ok(())
}
