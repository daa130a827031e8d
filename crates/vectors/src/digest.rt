// A hash or a tag of a message that is fed in parts: the rows that the programs of these share.
use crate::first;
use crate::parts::Parts;
use std::io;

// The state behind what was fed, and what the start or the last feed answered.
pub trait Digest {
    // Feeds `part`.
    fn feed(&mut self, part: &[u8]);

    // A row of the answer's number and the digest of what was fed.
    fn row(&self, rt: &impl Print, form: &[u8], length: usize) -> io::Result<()>;
}

// The row of a message in parts (Parts), with an empty feed before each. The number is the last feed's, or the start's.
pub fn in_parts<D: Digest>(
    rt: &impl Print,
    state: &mut D,
    form: &[u8],
    m: &[u8],
    first: usize,
    longest: u8,
) -> io::Result<()> {
    for part in Parts::of(m, first, longest) {
        state.feed(b"");
        state.feed(part);
    }
    state.row(rt, form, m.len())
}

// The rows at the limit of a message, 512 parts of 65,536 bytes: behind 511 of them one byte more than the last, the
// last, one byte, and none.
pub fn at_limit<D: Digest>(rt: &impl Print, state: &mut D, m: &[u8]) -> io::Result<()> {
    let part = first(m, 65_536);
    for _ in 0..511 {
        state.feed(part);
    }
    fed(rt, state, b"over", 511 * 65_536, first(m, 65_537))?;
    fed(rt, state, b"limit", 512 * 65_536, part)?;
    fed(rt, state, b"past", 512 * 65_536, first(m, 1))?;
    fed(rt, state, b"empty", 512 * 65_536, b"")
}

// The number that a feed of `part` answers, and the digest that the state then has, which is of `length` bytes.
fn fed<D: Digest>(
    rt: &impl Print,
    state: &mut D,
    form: &[u8],
    length: usize,
    part: &[u8],
) -> io::Result<()> {
    state.feed(part);
    state.row(rt, form, length)
}
