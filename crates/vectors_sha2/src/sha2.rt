// The rows that SHA-256 and SHA-512 have alike.
use std::io;
use vectors::digest::{Digest, in_parts};
use vectors::first;

// A hash in parts and whole.
pub trait Sha2: Digest + Drop {
    // The state before any feed.
    fn start() -> Self;

    // The row of a message in one call.
    fn whole(rt: &impl Print, form: &[u8], m: &[u8]) -> io::Result<()>;
}

// NIST's examples that repeat one byte, within the limit of a message; `zeros` are the lengths of the first.
pub fn repeats<H: Sha2>(rt: &impl Print, zeros: [usize; 4]) -> io::Result<()> {
    for n in zeros {
        repeated::<H>(rt, b"zeros", 0, n)?;
    }
    repeated::<H>(rt, b"zeros", 0, 1_000)?;
    repeated::<H>(rt, b"A", b'A', 1_000)?;
    repeated::<H>(rt, b"U", b'U', 1_005)?;
    repeated::<H>(rt, b"zeros", 0, 1_000_000)?;
    repeated::<H>(rt, b"a", b'a', 1_000_000)
}

// One byte `n` times.
fn repeated<H: Sha2>(rt: &impl Print, form: &[u8], b: u8, n: usize) -> io::Result<()> {
    let m = vectors::million(b);
    H::whole(rt, form, first(&m, n))
}

// A message in three forms.
pub fn forms<H: Sha2>(rt: &impl Print, m: &[u8]) -> io::Result<()> {
    H::whole(rt, b"whole", m)?;
    in_parts(rt, &mut H::start(), b"bytes", m, 1, 1)?;
    in_parts(rt, &mut H::start(), b"parts", m, m.len() % 7 + 1, 255)
}
