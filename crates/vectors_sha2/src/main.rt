// SHA-256 and SHA-512 on published examples and on messages by rule, whole and in parts, and at the limit of a message.
//
// A row is `name form length number digest` (the crate `vectors`). The forms: an example's own name; `whole`, in one
// call; `bytes`, fed byte by byte; `parts`, fed in parts whose lengths change, in both with an empty feed before each;
// `over`, a feed that would pass the limit; `limit`, up to the limit; `past` and `empty`, one byte more there and none.
// tools/vectors_sha2.py writes the stored stdout with Python's hashlib, that is with OpenSSL.
#![tactic(auto)]

use crate::on_sha256::Sha256Rows;
use crate::on_sha512::Sha512Rows;
use crate::sha2::Sha2;
use std::io;
use std::ops::Range;
use vectors::first;

mod on_sha256;
mod on_sha512;
mod sha2;

fn main(rt: HostRuntime) -> io::Result<()> {
    on_sha256::examples(&rt)?;
    sha2::repeats::<Sha256Rows>(&rt, [55, 56, 57, 64])?;
    on_sha512::examples(&rt)?;
    sha2::repeats::<Sha512Rows>(&rt, [111, 112, 113, 122])?;
    let mut m = vectors::million(0);
    vectors::pattern(&mut m);
    lengths(&rt, &m, 0..301)?;
    lengths(&rt, &m, 4_090..4_103)?;
    lengths(&rt, &m, 999_998..1_000_001)?;
    vectors::digest::at_limit(&rt, &mut Sha256Rows::start(), &m)?;
    vectors::digest::at_limit(&rt, &mut Sha512Rows::start(), &m)
}

// The messages of these lengths, by both hashes.
fn lengths(rt: &impl Print, m: &[u8], lengths: Range<usize>) -> io::Result<()> {
    for n in lengths {
        sha2::forms::<Sha256Rows>(rt, first(m, n))?;
        sha2::forms::<Sha512Rows>(rt, first(m, n))?;
    }
    Ok(())
}
