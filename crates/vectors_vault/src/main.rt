// Vaults that other programs wrote, made ones and damaged ones, opened whole and block by block.
//
// Standard input has a line for each vault: its name, T, the file's bytes, and how many of them the steps are given,
// all or fewer. A number that is more than there are is the length of a large file (crate::large), whose line goes on.
// A row is `name form figure number digits` (the crate `vectors`), the form a vault's name. Lent bytes are EE before
// each call, but for a large file.
//   whole, just, less  opened with ample room, with the payload's length, with one byte less (0 where it has none): the
//                      count or the refusal's place, and SHA-256 of the bytes handed over
//   output             after each of these three: the length lent, and SHA-256 of all 65,536 bytes of which it was the
//                      front
//   start              where the first block stands or the refusal's place, and the tag base
//   steps              how many steps until the opening is closed or ended, the number of the last, and SHA-256 of what
//                      each answered (crate::steps, `tell`); the lengths lent go by `room_of`
//   handed             the bytes handed over by all steps: how many, the phase (0 open, 1 closed, 2 ended), SHA-256
//   after              one step more: the count, and SHA-256 of the state behind it (crate::steps, `state_digest`)
//   step               each step of a large file: the count, and SHA-256 of the bytes handed over; beside it such a
//                      file has `whole`, `less` and `start`
// A file at its limit, 16,777,216 bytes, and one over it are not among them: tests/differential runs these over the
// static library.
// tools/vectors_vault.py writes stdin and stdout, by an opener of its own.
#![tactic(auto)]

use std::io;
use vectors::table::{self, Lines, field};

mod large;
mod steps;
mod whole;

fn main(rt: HostRuntime) -> io::Result<()> {
    let cases = table::read(&rt, 1_000_000)?;
    for line in Lines::of(&cases) {
        case(&rt, line)?;
    }
    Ok(())
}

// The rows of a line.
fn case(rt: &(impl Print + Alloc), line: &[u8]) -> io::Result<()> {
    let mut space = console::large_buffer();
    let n = vectors::table::bytes(field(line, 2), &mut space);
    let f = vectors::first(&space, n);
    let t = vectors::table::array(field(line, 1));
    let given = vectors::table::number(field(line, 3)) as usize;
    if n < given {
        return large::rows(rt, line, t, given);
    }
    whole::rows(rt, field(line, 0), f, t)?;
    steps::rows(rt, field(line, 0), f, t, vectors::first(f, given))
}
