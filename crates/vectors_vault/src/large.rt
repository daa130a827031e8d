// The rows of a large file: its bytes are by rule (vectors::pattern) but for those that its line gives.
//
// The bytes of the line's file stand at the front. Behind the length the line has up to four pairs of a place and the
// bytes from there on: what stands between two blocks' data, and the end of AES's ciphertext. An output of 1,050,000
// bytes is lent whole, so that a step takes a block of 1,048,576 bytes.
use crate::steps::{is_open, started};
use crate::whole::{open_in, show};
use opening::Opener;
use std::io;
use vectors::table::{bytes, field, number};

// The rows of a line: opened with all of an output lent, with one byte less than was needed, and by steps.
pub fn rows(rt: &(impl Print + Alloc), line: &[u8], t: [u8; 32], length: usize) -> io::Result<()> {
    let mut space = vec![in rt.alloc(); 0; 4_194_305]?;
    fill(line, &mut space);
    let name = field(line, 0);
    let f = vectors::first(&space, length);
    let mut out = vec![in rt.alloc(); 0; 1_050_000]?;
    let n = open_in(rt, b"whole", name, f, t, 1_050_000, &mut out)?;
    open_in(rt, b"less", name, f, t, n.saturating_sub(1), &mut out)?;
    advance(rt, name, started(rt, name, f, t)?, f, &mut out)
}

// Fills the room by rule and with the line's bytes: those at the front, and up to four pairs of a place and bytes. A
// line that ends before has none.
fn fill(line: &[u8], file: &mut [u8]) {
    vectors::pattern(file);
    lay(0, field(line, 2), file);
    for k in (4..12).step_by(2) {
        lay(number(field(line, k)) as usize, field(line, k + 1), file);
    }
}

// Lays the bytes of a field over a file, from a place on.
fn lay(at: usize, text: &[u8], file: &mut [u8]) {
    if let Some(rest) = file.get_mut(at..) {
        bytes(text, rest);
    }
}

// Steps until the opening is closed or ended, 8 at most.
fn advance(
    rt: &impl Print,
    name: &[u8],
    start: Opener,
    f: &[u8],
    out: &mut [u8],
) -> io::Result<()> {
    let mut o = start;
    for _ in 0..8 {
        if !is_open(o) {
            break;
        }
        let s = opener::step(o, f, out);
        show(rt, b"step", name, s.answer, out)?;
        o = s.next;
    }
    Ok(())
}
