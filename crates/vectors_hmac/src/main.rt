// HMAC-SHA-256 on RFC 4231's test cases, on keys and messages by rule, and at the limit of a message.
//
// A row is `name form length number tag` (the crate `vectors`). The forms: `case1` to `case7` of RFC 4231, of which
// case 5 is cut to 16 bytes, as there; `keyN`, a key of N bytes and the message in one call; `keyN-parts`, the message
// in parts with an empty feed before each; `over`, a feed that would pass the limit; `limit`, up to the limit; `past`
// and `empty`, one byte more there and none. tools/vectors_hmac.py writes the stored stdout with Python's hmac, that is
// with OpenSSL.
#![tactic(auto)]

use hmac::{Hmac, Keyed};
use std::io;
use vectors::digest::{Digest, at_limit, in_parts};
use vectors::{after, first};

// The state of HMAC-SHA-256 under a key, behind an answer.
#[derive(Drop)]
struct HmacRows(Keyed);

impl HmacRows {
    fn start(key: &[u8]) -> Self {
        HmacRows(Hmac::start(key))
    }
}

impl Digest for HmacRows {
    fn feed(&mut self, part: &[u8]) {
        self.0 = self.0.next.feed(part);
    }

    fn row(&self, rt: &impl Print, form: &[u8], length: usize) -> io::Result<()> {
        let number = refusals::number(self.0.outcome);
        vectors::row(
            rt,
            b"hmac-sha256",
            form,
            length,
            number,
            &self.0.next.finish(),
        )
    }
}

fn main(rt: HostRuntime) -> io::Result<()> {
    short_keys(&rt)?;
    long_keys(&rt)?;
    let mut space = vectors::million(0);
    vectors::pattern(&mut space);
    keys(&rt, &space)?;
    let key = first(after(&space, 1_000), 64);
    at_limit(&rt, &mut HmacRows::start(key), &space)
}

// RFC 4231, cases 1 to 5.
fn short_keys(rt: &impl Print) -> io::Result<()> {
    let once = [0x0bu8; 20];
    let twenty = [0xaau8; 20];
    let fifty = [0xddu8; 50];
    let other_fifty = [0xcdu8; 50];
    let cut = [0x0cu8; 20];
    let counted =
        b"\x01\x02\x03\x04\x05\x06\x07\x08\x09\x0a\x0b\x0c\x0d\x0e\x0f\x10\x11\x12\x13\x14\x15\x16\x17\x18\x19";
    whole(rt, b"case1", &once, b"Hi There", 32)?;
    whole(rt, b"case2", b"Jefe", b"what do ya want for nothing?", 32)?;
    whole(rt, b"case3", &twenty, &fifty, 32)?;
    whole(rt, b"case4", counted, &other_fifty, 32)?;
    whole(rt, b"case5", &cut, b"Test With Truncation", 16)
}

// RFC 4231, cases 6 and 7: a key that is hashed first.
fn long_keys(rt: &impl Print) -> io::Result<()> {
    let key = [0xaau8; 131];
    whole(
        rt,
        b"case6",
        &key,
        b"Test Using Larger Than Block-Size Key - Hash Key First",
        32,
    )?;
    whole(
        rt,
        b"case7",
        &key,
        b"This is a test using a larger than block-size key and a larger than block-size data. The key needs to be hashed before being used by the HMAC algorithm.",
        32,
    )
}

// Keys around a block's length: the bytes of the pattern from 1,000 on.
fn keys(rt: &impl Print, m: &[u8]) -> io::Result<()> {
    for (form, form_parts, n) in [
        ("key0", "key0-parts", 0),
        ("key1", "key1-parts", 1),
        ("key63", "key63-parts", 63),
        ("key64", "key64-parts", 64),
        ("key65", "key65-parts", 65),
        ("key131", "key131-parts", 131),
    ] {
        lengths(rt, form, form_parts, first(after(m, 1_000), n), m)?;
    }
    Ok(())
}

// The messages of up to 130 bytes, and three longer ones.
fn lengths(rt: &impl Print, form: &str, form_parts: &str, key: &[u8], m: &[u8]) -> io::Result<()> {
    for n in (0..131).chain([4_095, 65_537, m.len()]) {
        both(rt, form, form_parts, key, first(m, n))?;
    }
    Ok(())
}

// A message in one call and in parts.
fn both(rt: &impl Print, form: &str, form_parts: &str, key: &[u8], m: &[u8]) -> io::Result<()> {
    let first = m.len() % 7 + 1;
    whole(rt, form.as_bytes(), key, m, 32)?;
    in_parts(
        rt,
        &mut HmacRows::start(key),
        form_parts.as_bytes(),
        m,
        first,
        255,
    )
}

// A message in one call: the first `size` bytes of its tag.
fn whole(rt: &impl Print, form: &[u8], key: &[u8], m: &[u8], size: usize) -> io::Result<()> {
    let t = hmac::tag(key, m);
    vectors::row(
        rt,
        b"hmac-sha256",
        form,
        m.len(),
        refusals::number(t.outcome),
        first(&t.tag, size),
    )
}
