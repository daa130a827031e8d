// The rows of BLAKE2b.
use blake2b::{Blake2b, Fed};
use std::io;
use std::ops::Range;
use vectors::digest::{Digest, at_limit, in_parts};
use vectors::first;

// The state of BLAKE2b, with a digest of 64 bytes.
#[derive(Drop)]
struct Blake2bRows(Fed);

impl Blake2bRows {
    fn start() -> Self {
        Blake2bRows(Fed {
            outcome: Ok(()),
            next: Blake2b::start(64),
        })
    }
}

impl Digest for Blake2bRows {
    fn feed(&mut self, part: &[u8]) {
        self.0 = self.0.next.feed(part);
    }

    fn row(&self, rt: &impl Print, form: &[u8], length: usize) -> io::Result<()> {
        let number = refusals::number(self.0.outcome);
        vectors::row(rt, b"blake2b", form, length, number, &self.0.next.finish())
    }
}

// All of them; the messages by rule are the first bytes of `m`.
pub fn rows(rt: &impl Print, m: &[u8]) -> io::Result<()> {
    example(rt)?;
    lengths(rt, m, 0..301)?;
    lengths(rt, m, 4_090..4_103)?;
    digests(rt, first(m, 3))?;
    digests(rt, first(m, 128))?;
    digests(rt, first(m, 200))?;
    at_limit(rt, &mut Blake2bRows::start(), m)
}

// RFC 7693, appendix A.
fn example(rt: &impl Print) -> io::Result<()> {
    whole(rt, b"abc", b"abc", 64)
}

// The messages of these lengths, each in three forms.
fn lengths(rt: &impl Print, m: &[u8], lengths: Range<usize>) -> io::Result<()> {
    for n in lengths {
        forms(rt, first(m, n))?;
    }
    Ok(())
}

// A message in three forms.
fn forms(rt: &impl Print, m: &[u8]) -> io::Result<()> {
    whole(rt, b"whole", m, 64)?;
    in_parts(rt, &mut Blake2bRows::start(), b"bytes", m, 1, 1)?;
    in_parts(
        rt,
        &mut Blake2bRows::start(),
        b"parts",
        m,
        m.len() % 7 + 1,
        255,
    )
}

// A digest of each length.
fn digests(rt: &impl Print, m: &[u8]) -> io::Result<()> {
    for nn in 1..=64 {
        whole(rt, b"digest", m, nn)?;
    }
    Ok(())
}

// A message in one feed.
fn whole(rt: &impl Print, form: &[u8], m: &[u8], nn: u8) -> io::Result<()> {
    let fed = Blake2b::start(nn).feed(m);
    vectors::row(
        rt,
        b"blake2b",
        form,
        m.len(),
        refusals::number(fed.outcome),
        first(&fed.next.finish(), usize::from(nn)),
    )
}
