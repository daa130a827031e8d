// The rows of SHA-256.
use crate::sha2::Sha2;
use sha256::{Fed, Sha256};
use std::io;
use vectors::digest::Digest;

// The state of SHA-256.
#[derive(Drop)]
pub struct Sha256Rows(Fed);

impl Digest for Sha256Rows {
    fn feed(&mut self, part: &[u8]) {
        self.0 = self.0.next.feed(part);
    }

    fn row(&self, rt: &impl Print, form: &[u8], length: usize) -> io::Result<()> {
        let number = refusals::number(self.0.outcome);
        vectors::row(rt, b"sha256", form, length, number, &self.0.next.finish())
    }
}

impl Sha2 for Sha256Rows {
    fn start() -> Self {
        Sha256Rows(Fed {
            outcome: Ok(()),
            next: Sha256::start(),
        })
    }

    fn whole(rt: &impl Print, form: &[u8], m: &[u8]) -> io::Result<()> {
        let h = sha256::hash(m);
        vectors::row(
            rt,
            b"sha256",
            form,
            m.len(),
            refusals::number(h.outcome),
            &h.digest,
        )
    }
}

// FIPS 180-4's examples as NIST publishes them, and those of NIST's additional vectors that are short.
pub fn examples(rt: &impl Print) -> io::Result<()> {
    Sha256Rows::whole(rt, b"nothing", b"")?;
    Sha256Rows::whole(rt, b"abc", b"abc")?;
    Sha256Rows::whole(
        rt,
        b"448-bit",
        b"abcdbcdecdefdefgefghfghighijhijkijkljklmklmnlmnomnopnopq",
    )?;
    Sha256Rows::whole(rt, b"0xbd", b"\xbd")?;
    Sha256Rows::whole(rt, b"0xc98c8e55", b"\xc9\x8c\x8e\x55")
}
