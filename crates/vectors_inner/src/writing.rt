// The rows of a payload that is written.
use refusals::Refusal;
use std::io;
use vectors::table::{bytes, field, number};

// The row of a line's parts.
pub fn line(rt: &impl Print, line: &[u8]) -> io::Result<()> {
    let mut key = [0u8; 64];
    let mut run = [0u8; 64];
    let mut document = [0u8; 64];
    let k = bytes(field(line, 3), &mut key);
    let r = bytes(field(line, 4), &mut run);
    let d = bytes(field(line, 5), &mut document);
    let mut out = [0xEEu8; 64];
    let room = (number(field(line, 6)) % 65) as usize;
    let w = inner_header::writer::write(
        (number(field(line, 2)) % 0x1_0000_0000) as u32,
        vectors::first(&key, k),
        vectors::first(&run, r),
        vectors::first(&document, d),
        &mut out[..room],
    );
    show(rt, field(line, 1), w, &out)
}

// The row of a writing to an output of no bytes.
pub fn row(
    rt: &impl Print,
    name: &[u8],
    algorithm: u32,
    run: &[u8],
    document: &[u8],
) -> io::Result<()> {
    let mut out = [0xEEu8; 64];
    let w = inner_header::writer::write(algorithm, b"", run, document, &mut out[..0]);
    show(rt, name, w, &out)
}

// The length written, or the refusal's place and number; and the whole output.
fn show(rt: &impl Print, name: &[u8], w: Result<usize, Refusal>, out: &[u8; 64]) -> io::Result<()> {
    match w {
        Err(r) => vectors::row(rt, b"write", name, r.place(), r.number(), out),
        Ok(n) => vectors::row(rt, b"write", name, n, 0, out),
    }
}
