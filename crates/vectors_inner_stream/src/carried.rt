// Stretches of the pattern by a state, under a key by rule: the pattern's first 64 bytes.
use crate::algorithm::Algorithm;
use crate::shown::{patterned, show};
use inner_stream::InnerStream;
use std::io;

// One after the other, some of them refused; then at the stream's end, and past it.
pub fn stretches(rt: &impl Print, a: Algorithm) -> io::Result<()> {
    let mut s = start(rt, a)?;
    for (form, n, room) in [
        ("carry", 23, 42),
        ("carry", 19, 42),
        ("short", 42, 41),
        ("carry", 0, 0),
        ("carry", 150, 150),
        ("carry", 1, 2),
    ] {
        s = stretch(rt, a, form.as_bytes(), s, n, room)?;
    }
    s.position = 4_194_262;
    for (n, room) in [(42, 42), (1, 1), (0, 1)] {
        s = stretch(rt, a, b"moved", s, n, room)?;
    }
    s.position = 4_194_305;
    for n in 0..2 {
        s = stretch(rt, a, b"past", s, n, 1)?;
    }
    Ok(())
}

// Other algorithms: the start is refused, and so is what comes behind it.
pub fn others(rt: &impl Print) -> io::Result<()> {
    for (a, n, room) in [
        (Algorithm::None, 42, 42),
        (Algorithm::Arcfour, 42, 41),
        (Algorithm::Four, 0, 0),
    ] {
        stretch(rt, a, b"closed", start(rt, a)?, n, room)?;
    }
    Ok(())
}

// A key that is too long, with any algorithm.
pub fn over(rt: &impl Print, key: &[u8]) -> io::Result<()> {
    for a in [Algorithm::Salsa20, Algorithm::Four] {
        stretch(rt, a, b"closed", start_of(rt, a, key)?, 42, 42)?;
    }
    Ok(())
}

// A start, and its row.
fn start(rt: &impl Print, a: Algorithm) -> io::Result<InnerStream> {
    start_of(rt, a, &patterned::<64>())
}

// A start with a key, and its row.
fn start_of(rt: &impl Print, a: Algorithm, key: &[u8]) -> io::Result<InnerStream> {
    let started = InnerStream::start(a.number(), key);
    vectors::row(
        rt,
        a.name(),
        b"start",
        key.len(),
        refusals::number(started.outcome),
        b"",
    )?;
    Ok(started.next)
}

// A stretch of n bytes of the pattern, with room for so many, its row, and the state behind it.
fn stretch(
    rt: &impl Print,
    a: Algorithm,
    form: &[u8],
    s: InnerStream,
    n: usize,
    room: usize,
) -> io::Result<InnerStream> {
    let mut out = [0xaa; 200];
    let lent = &mut out[..room.min(200)];
    let applied = s.apply(vectors::first(&patterned::<200>(), n), lent);
    show(rt, a, form, n, applied.written, lent)?;
    Ok(applied.next)
}
