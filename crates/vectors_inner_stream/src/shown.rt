// What both kinds of calls share: the pattern, and the row of an answer.
use crate::algorithm::Algorithm;
use refusals::Refusal;
use std::io;

// The pattern's first bytes.
pub fn patterned<const N: usize>() -> [u8; N] {
    let mut p = [0; N];
    vectors::pattern(&mut p);
    p
}

// The row of a call on so many bytes: how many it wrote, or its refusal; and all of the lent output.
pub fn show(
    rt: &impl Print,
    a: Algorithm,
    form: &[u8],
    length: usize,
    w: Result<usize, Refusal>,
    out: &[u8],
) -> io::Result<()> {
    match w {
        Ok(n) => vectors::row(rt, a.name(), form, n, 0, out),
        Err(r) => vectors::row(rt, a.name(), form, length, r.number(), out),
    }
}
