// The rows of padding that is written.
use std::io;

// Every payload of up to 48 bytes, in front of a slice that has room for its padding.
pub fn payloads(rt: &impl Print, space: &mut [u8]) -> io::Result<()> {
    for n in 0..49 {
        adds(rt, space, n)?;
        padded(rt, b"pad", space, n)?;
    }
    Ok(())
}

// A payload of 20 bytes in slices of every length to that of `space`.
pub fn rooms(rt: &impl Print, space: &mut [u8]) -> io::Result<()> {
    for n in 0..=space.len() {
        padded(rt, b"room", &mut space[..n], 20)?;
    }
    Ok(())
}

// How many bytes pad the first n bytes of `out`.
fn adds(rt: &impl Print, out: &mut [u8], n: usize) -> io::Result<()> {
    vectors::pattern(out);
    vectors::row(
        rt,
        b"pkcs7",
        b"adds",
        pkcs7::padding_length(n),
        0,
        vectors::first(out, n),
    )
}

// What stands in `out` after the padding of its first n bytes was written behind them.
fn padded(rt: &impl Print, form: &[u8], out: &mut [u8], n: usize) -> io::Result<()> {
    vectors::pattern(out);
    pkcs7::pad(out, n);
    vectors::row(rt, b"pkcs7", form, n, 0, out)
}
