// AES-KDF on the figures of other programs' vaults and on pseudo-random ones, in steps of many sizes, and its refusals.
//
// A row is `name form length number result` (the crate `vectors`). The names: `start`, the answer of a start with so
// many rounds and the halves before any round; `halves`, how they stand after so many; `transformed`, T after so many
// of the rounds, or 19 where it is asked for too early. The forms: a vault's name; `by-N`, 100,000 rounds in steps of
// N; `random`, pseudo-random figures with up to 2,000 rounds; `rounds`, figures by rule. Standard input has a line for
// each vault: its name, composite key, KDF seed and rounds. tools/vectors_kdf.py writes stdin and stdout, with OpenSSL.
#![tactic(auto)]

use std::io;
use vectors::table::{self, Lines};

mod cases;
mod transformed;

fn main(rt: HostRuntime) -> io::Result<()> {
    let cases = table::read(&rt, 65_536)?;
    for line in Lines::of(&cases) {
        cases::vault(&rt, line)?;
    }
    cases::steps(&rt)?;
    cases::random_figures(&rt)?;
    cases::few_rounds(&rt)?;
    cases::refusals(&rt)
}
