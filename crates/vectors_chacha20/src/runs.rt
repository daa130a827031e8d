// Messages by rule, under a key and a nonce by rule: the first 32 bytes of the pattern and the 12 behind them.
use chacha20::ChaCha20;
use std::io;
use vectors::parts::PartsMut;
use vectors::{first_mut, pattern};

// Every length to that of `space`, in four forms.
pub fn lengths(rt: &impl Print, space: &mut [u8]) -> io::Result<()> {
    for n in 0..=space.len() {
        forms(rt, first_mut(space, n))?;
    }
    Ok(())
}

// A message of the length of `out` in four forms.
fn forms(rt: &impl Print, out: &mut [u8]) -> io::Result<()> {
    let odd = 61 * (out.len() as u64 % 512) + 1;
    whole(rt, b"whole", 0, out)?;
    parts(rt, b"parts", 0, out)?;
    parts(rt, b"odd", odd, out)?;
    twice(rt, b"twice", odd, out)
}

// A message at positions around a block's border, and deep in the stream, the last two before the end of the counter.
pub fn positions(rt: &impl Print, out: &mut [u8]) -> io::Result<()> {
    for (form, form_parts, at) in [
        ("at1", "at1-parts", 1),
        ("at63", "at63-parts", 63),
        ("at64", "at64-parts", 64),
        ("at65", "at65-parts", 65),
        ("at16383", "at16383-parts", 16_383),
        ("at4194303", "at4194303-parts", 4_194_303),
        ("at274877906844", "at274877906844-parts", 274_877_906_844),
        (
            "at18446744073709551516",
            "at18446744073709551516-parts",
            18_446_744_073_709_551_516,
        ),
    ] {
        whole(rt, form.as_bytes(), at, out)?;
        parts(rt, form_parts.as_bytes(), at, out)?;
    }
    Ok(())
}

// A message in one call.
fn whole(rt: &impl Print, form: &[u8], at: u64, out: &mut [u8]) -> io::Result<()> {
    pattern(out);
    apply(at, out);
    vectors::row(rt, b"chacha20", form, out.len(), 0, out)
}

// A message in parts.
fn parts(rt: &impl Print, form: &[u8], at: u64, out: &mut [u8]) -> io::Result<()> {
    pattern(out);
    apply_parts(at, out);
    vectors::row(rt, b"chacha20", form, out.len(), 0, out)
}

// A message in one call, and what that gives in parts.
fn twice(rt: &impl Print, form: &[u8], at: u64, out: &mut [u8]) -> io::Result<()> {
    pattern(out);
    apply(at, out);
    apply_parts(at, out);
    vectors::row(rt, b"chacha20", form, out.len(), 0, out)
}

// The stream under the key and the nonce by rule.
fn apply(at: u64, out: &mut [u8]) {
    let mut key = [0u8; 32];
    pattern(&mut key);
    let mut p = [0u8; 44];
    pattern(&mut p);
    let mut nonce = [0u8; 12];
    nonce.copy_from_slice(&p[32..]);
    ChaCha20::apply(key, nonce, at, out);
}

// The same in parts, the first of 1 to 7 bytes.
fn apply_parts(at: u64, out: &mut [u8]) {
    let first = out.len() % 7 + 1;
    let mut at = at;
    for part in PartsMut::of(out, first, 100) {
        apply(at, part);
        at = at.wrapping_add(part.len() as u64);
    }
}
