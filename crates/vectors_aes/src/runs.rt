// CBC mode on messages by rule, under a key and an IV by rule: the first 32 bytes of the pattern and the 16 behind.
ghost use Rattle.std.specs.Prelude.{◌<◌, ◌≤◌, length};
ghost use Rattle.std.specs.Iterator.{at_most};

use aes::RoundKeys;
use std::io;
use vectors::{first_mut, pattern};

// Every length to that of `space`.
pub fn lengths(rt: &impl Print, space: &mut [u8]) -> io::Result<()> {
    for n in 0..=space.len() {
        forms(rt, first_mut(space, n))?;
    }
    Ok(())
}

// A message of the length of `out` in three forms.
fn forms(rt: &impl Print, out: &mut [u8]) -> io::Result<()> {
    encrypted(rt, out)?;
    decrypted(rt, out)?;
    back(rt, out)
}

// A message encrypted whole.
fn encrypted(rt: &impl Print, out: &mut [u8]) -> io::Result<()> {
    pattern(out);
    let next = aes_cbc::encrypt_cbc(keys(), iv(), out);
    vectors::row(rt, b"aes256-cbc", b"encrypt", out.len(), 0, out)?;
    vectors::row(rt, b"aes256-cbc", b"encrypt-next", out.len(), 0, &next)
}

// A message decrypted in parts.
fn decrypted(rt: &impl Print, out: &mut [u8]) -> io::Result<()> {
    pattern(out);
    let next = Parts::of(out).fold(iv(), |prev, part| {
        behind_short(aes_cbc::decrypt_cbc, prev, part)
    });
    vectors::row(rt, b"aes256-cbc", b"decrypt", out.len(), 0, out)?;
    vectors::row(rt, b"aes256-cbc", b"decrypt-next", out.len(), 0, &next)
}

// A message encrypted in parts and decrypted whole.
fn back(rt: &impl Print, out: &mut [u8]) -> io::Result<()> {
    pattern(out);
    Parts::of(out).fold(iv(), |prev, part| {
        behind_short(aes_cbc::encrypt_cbc, prev, part)
    });
    aes_cbc::decrypt_cbc(keys(), iv(), out);
    vectors::row(rt, b"aes256-cbc", b"back", out.len(), 0, out)
}

// The round keys by rule.
fn keys() -> RoundKeys {
    let mut key = [0u8; 32];
    pattern(&mut key);
    RoundKeys::expand(key)
}

// The IV by rule.
fn iv() -> [u8; 16] {
    let mut p = [0u8; 48];
    pattern(&mut p);
    let mut iv = [0u8; 16];
    iv.copy_from_slice(&p[32..]);
    iv
}

// The parts that are left of a message of `whole` bytes: of one to five blocks each, but for the last.
#[derive(Drop)]
struct Parts<'a> {
    whole: usize,
    rest: &'a mut [u8],
    ghost is_within: { length rest.now ≤ whole },
}

impl<'a> Parts<'a> {
    fn of(message: &'a mut [u8]) -> Parts<'a> {
        Parts {
            whole: message.len(),
            rest: message,
        }
    }

    // How many bytes the next part has, where it is not the last.
    fn size(&self) -> usize
        ensures { 0 < result }
    {
        let at = self.whole - self.rest.len();
        16 * ((at / 16 + self.whole % 5) % 5 + 1)
    }
}

impl<'a> Iterator for Parts<'a> {
    type Item = &'a mut [u8];

    ghost remaining = { λ parts. at_most (length parts.rest.now) };

    fn next(&mut self) -> Option<&'a mut [u8]> {
        if self.rest.is_empty() {
            return None;
        }
        let size = self.size().min(self.rest.len());
        self.rest.split_off_mut(..size)
    }
}

// A run that is too short for a block, and a part behind it, through a mode's function.
fn behind_short<C>(cbc: C, prev: [u8; 16], part: &mut [u8]) -> [u8; 16]
where
    C: Fn(RoundKeys, [u8; 16], &mut [u8]) -> [u8; 16],
    requires { C.IsAlwaysCallable cbc }
{
    let mut short = [0u8; 15];
    let same = cbc(keys(), prev, &mut short);
    cbc(keys(), same, part)
}
