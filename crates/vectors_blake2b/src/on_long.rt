// The rows of Argon2's H'.
use std::io;
use std::ops::Range;
use vectors::{first, first_mut};

// All of them; the messages are the first bytes of `m`.
pub fn rows(rt: &impl Print, m: &[u8]) -> io::Result<()> {
    let seed = first(m, 72);
    lengths(rt, seed, 0..201)?;
    lengths(rt, seed, 990..1_025)?;
    chosen(rt, first(m, 0))?;
    chosen(rt, seed)?;
    chosen(rt, first(m, 1_024))
}

// The output lengths of a range.
fn lengths(rt: &impl Print, m: &[u8], lengths: Range<usize>) -> io::Result<()> {
    for t in lengths {
        long(rt, m, t)?;
    }
    Ok(())
}

// The output lengths around one hash, and those that Argon2 has.
fn chosen(rt: &impl Print, m: &[u8]) -> io::Result<()> {
    for t in [1, 32, 63, 64, 65, 96, 128, 1_024] {
        long(rt, m, t)?;
    }
    Ok(())
}

// H' of `t` bytes, at most 1,024.
fn long(rt: &impl Print, m: &[u8], t: usize) -> io::Result<()> {
    let mut out = [0xa5u8; 1_024];
    fill(rt, m, first_mut(&mut out, t))
}

// Fills `out`, and prints it.
fn fill(rt: &impl Print, m: &[u8], out: &mut [u8]) -> io::Result<()> {
    let o = argon2_hash::fill(m, out);
    vectors::row(rt, b"argon2-h", b"fill", m.len(), refusals::number(o), out)
}
