// The rows of SHA-512.
use crate::sha2::Sha2;
use sha512::{Fed, Sha512};
use std::io;
use vectors::digest::Digest;

// The state of SHA-512.
#[derive(Drop)]
pub struct Sha512Rows(Fed);

impl Digest for Sha512Rows {
    fn feed(&mut self, part: &[u8]) {
        self.0 = self.0.next.feed(part);
    }

    fn row(&self, rt: &impl Print, form: &[u8], length: usize) -> io::Result<()> {
        let number = refusals::number(self.0.outcome);
        vectors::row(rt, b"sha512", form, length, number, &self.0.next.finish())
    }
}

impl Sha2 for Sha512Rows {
    fn start() -> Self {
        Sha512Rows(Fed {
            outcome: Ok(()),
            next: Sha512::start(),
        })
    }

    fn whole(rt: &impl Print, form: &[u8], m: &[u8]) -> io::Result<()> {
        let h = sha512::hash(m);
        vectors::row(
            rt,
            b"sha512",
            form,
            m.len(),
            refusals::number(h.outcome),
            &h.digest,
        )
    }
}

// FIPS 180-4's examples as NIST publishes them.
pub fn examples(rt: &impl Print) -> io::Result<()> {
    Sha512Rows::whole(rt, b"nothing", b"")?;
    Sha512Rows::whole(rt, b"abc", b"abc")?;
    Sha512Rows::whole(
        rt,
        b"896-bit",
        b"abcdefghbcdefghicdefghijdefghijkefghijklfghijklmghijklmnhijklmnoijklmnopjklmnopqklmnopqrlmnopqrsmnopqrstnopqrstu",
    )
}
