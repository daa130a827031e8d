// The rows of a vault that is opened whole.
use refusals::Refusal;
use std::io;

// Room for any payload of a line.
pub const ROOM: usize = 65_536;

// Opened with ample room, with just as much as is needed, and with one byte less.
pub fn rows(rt: &impl Print, name: &[u8], f: &[u8], t: [u8; 32]) -> io::Result<()> {
    let n = opened(rt, b"whole", name, f, t, ROOM)?;
    opened(rt, b"just", name, f, t, n)?;
    opened(rt, b"less", name, f, t, n.saturating_sub(1))?;
    Ok(())
}

// The rows of an opening with so much room; its count.
fn opened(
    rt: &impl Print,
    kind: &[u8],
    name: &[u8],
    f: &[u8],
    t: [u8; 32],
    room: usize,
) -> io::Result<usize> {
    let mut out = [0xEE; ROOM];
    let n = open_in(rt, kind, name, f, t, room, &mut out)?;
    vectors::row(rt, b"output", name, room, 0, &sha256::hash(&out).digest)?;
    Ok(n)
}

// The row of an opening with so much of an output lent; its count.
pub fn open_in(
    rt: &impl Print,
    kind: &[u8],
    name: &[u8],
    f: &[u8],
    t: [u8; 32],
    room: usize,
    out: &mut [u8],
) -> io::Result<usize> {
    let lent = room.min(out.len());
    let w = vault::open(f, t, &mut out[..lent]);
    show(rt, kind, name, w, out)?;
    Ok(refusals::count(w))
}

// The row of an answer: its count, with the bytes at the front of `out` that it counts, or its refusal's place.
pub fn show(
    rt: &impl Print,
    kind: &[u8],
    name: &[u8],
    w: Result<usize, Refusal>,
    out: &[u8],
) -> io::Result<()> {
    let figure = match w {
        Ok(n) => n,
        Err(r) => r.place(),
    };
    let handed = sha256::hash(vectors::first(out, refusals::count(w))).digest;
    vectors::row(rt, kind, name, figure, refusals::number(w), &handed)
}
