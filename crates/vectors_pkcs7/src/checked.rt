// The rows of the check.
ghost use Rattle.std.specs.Prelude.{◌<◌};

use std::io;

// A piece with padding of each length, right and then changed.
pub fn paddings(rt: &impl Print) -> io::Result<()> {
    for n in 0..16 {
        tried(rt, b"right", padded(n))?;
        changed(rt, n)?;
    }
    Ok(())
}

// Every byte 16 times, and every byte behind 15 that are no padding.
pub fn bytes(rt: &impl Print) -> io::Result<()> {
    for b in 0..=u8::MAX {
        tried(rt, b"same", [b; 16])?;
        tried(rt, b"last", ending(b))?;
    }
    Ok(())
}

// The padding of a payload of n bytes with each of its bytes changed in turn.
fn changed(rt: &impl Print, n: usize) -> io::Result<()> {
    for i in n..16 {
        for bits in [0x01, 0x80] {
            tried(rt, b"changed", flipped(padded(n), i, bits))?;
        }
    }
    Ok(())
}

// A payload of n bytes with its padding.
fn padded(n: usize) -> [u8; 16] {
    let mut piece = [0u8; 16];
    vectors::pattern(&mut piece);
    pkcs7::pad(&mut piece, n);
    piece
}

// The pattern, but for its last byte.
fn ending(last: u8) -> [u8; 16] {
    let mut piece = [0u8; 16];
    vectors::pattern(&mut piece);
    piece[15] = last;
    piece
}

// A piece with bits of one byte changed.
fn flipped(mut piece: [u8; 16], at: usize, bits: u8) -> [u8; 16]
    requires { at < 16 }
{
    piece[at] ^= bits;
    piece
}

// The check's answer on a piece.
fn tried(rt: &impl Print, form: &[u8], piece: [u8; 16]) -> io::Result<()> {
    let found = pkcs7::check(piece);
    vectors::row(
        rt,
        b"pkcs7",
        form,
        pkcs7::padding_value(found) as usize,
        pkcs7::padding_number(found),
        &piece,
    )
}
