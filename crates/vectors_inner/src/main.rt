// The inner headers of vaults that other programs wrote, damaged ones, and payloads that are written.
//
// A row is `name form figure number digits` (the crate `vectors`). The names: `inner`, with the algorithm and the key;
// `document`, with its place and SHA-256; `flags`, with an attachment's index and its flags byte; `attachment`, with
// the place of its content and SHA-256; `written`, with the length and SHA-256 of what is written of a payload's own
// parts; `write`, with the length written and all bytes of an output that was EE. The figure of a refusal is its place,
// 0 from the writer. Every index from 0 to the count is asked for, so that the last is 8. The form is the vault's name
// or what is wrong. Standard input has a line for each case, `read FORM payload` or `write FORM algorithm key run
// document room`. The rows of `long`, of 4,194,305 bytes, stand behind those of the lines. A payload at its limit,
// 16,777,216 bytes, and one over it are not among them: tests/differential runs these over the static library.
// tools/vectors_inner.py writes stdin and stdout, with readings and hashes of its own.
#![tactic(auto)]

use std::io;
use vectors::table::{self, Lines, field};

mod reading;
mod writing;

fn main(rt: HostRuntime) -> io::Result<()> {
    let cases = table::read(&rt, 1_000_000)?;
    for line in Lines::of(&cases) {
        case(&rt, line)?;
    }
    long(&rt)
}

// The rows of a line.
fn case(rt: &impl Print, line: &[u8]) -> io::Result<()> {
    if slices::same(field(line, 0), b"read") {
        return reading::line(rt, line);
    }
    writing::line(rt, line)
}

// The least header in front of a document of zeros: an algorithm, an empty key, the end. It is read; and so many bytes
// are written as a document, to an output of none.
fn long(rt: &(impl Print + Alloc)) -> io::Result<()> {
    let mut payload = vec![in rt.alloc(); 0; 4_194_305]?;
    slices::copy(&mut payload, b"\x01\x04\x00\x00\x00\x03\x00\x00\x00\x02");
    reading::rows(rt, b"long", &payload)?;
    writing::row(rt, b"long", 3, b"", &payload)
}
