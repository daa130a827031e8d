// Stretches of the pattern straight from a key by rule: the pattern's first 64 bytes.
use crate::algorithm::Algorithm;
use crate::shown::{patterned, show};
use std::io;

// Every length to 150.
pub fn lengths(rt: &impl Print, a: Algorithm) -> io::Result<()> {
    for n in 0..=150 {
        stretch(rt, a, b"odd", 64, 61 * (n as u64) + 1, n, n + 2)?;
    }
    Ok(())
}

// The other forms of an algorithm.
pub fn forms(rt: &impl Print, a: Algorithm) -> io::Result<()> {
    stretch(rt, a, b"first", 64, 0, 23, 42)?;
    stretch(rt, a, b"next", 64, 23, 19, 42)?;
    twice(rt, a)?;
    for (form, key_len, position, n, room) in [
        ("key0", 0, 0, 42, 42),
        ("key200", 200, 0, 42, 42),
        ("last", 64, 4_194_262, 42, 42),
        ("end", 64, 4_194_263, 42, 42),
        ("end", 64, 4_194_305, 0, 42),
        ("wrap", 64, 18_446_744_073_709_551_600, 42, 42),
        ("room", 64, 0, 42, 41),
        ("both", 64, 4_194_263, 42, 41),
    ] {
        stretch(rt, a, form.as_bytes(), key_len, position, n, room)?;
    }
    Ok(())
}

// Other algorithms, with nothing else wrong and with everything.
pub fn others(rt: &impl Print) -> io::Result<()> {
    stretch(rt, Algorithm::None, b"other", 64, 0, 42, 42)?;
    stretch(rt, Algorithm::Arcfour, b"other", 64, 0, 42, 42)?;
    stretch(rt, Algorithm::Four, b"other", 64, 4_194_263, 42, 41)
}

// A key of a byte repeated, as long as it may be, and one byte longer, which is judged before the room is.
pub fn limits(rt: &(impl Print + Alloc)) -> io::Result<()> {
    let over = vec![in rt.alloc(); b'k'; 4_194_305]?;
    for a in [Algorithm::Salsa20, Algorithm::Chacha20] {
        apply(
            rt,
            a,
            b"longest",
            vectors::first(&over, 4_194_304),
            0,
            b"password",
            &mut [0xaa; 8],
        )?;
    }
    let mut kept = [0xaa; 7];
    for a in [Algorithm::Salsa20, Algorithm::Chacha20] {
        apply(rt, a, b"over", &over, 0, b"password", &mut kept)?;
    }
    crate::carried::over(rt, &over)
}

// A stretch of n bytes of the pattern, with room for so many, under a key of so many.
fn stretch(
    rt: &impl Print,
    a: Algorithm,
    form: &[u8],
    key_len: usize,
    position: u64,
    n: usize,
    room: usize,
) -> io::Result<()> {
    let p = patterned::<200>();
    let mut out = [0xaa; 200];
    apply(
        rt,
        a,
        form,
        vectors::first(&p, key_len),
        position,
        vectors::first(&p, n),
        &mut out[..room.min(200)],
    )
}

// A stretch covered, and what that gives covered again.
fn twice(rt: &impl Print, a: Algorithm) -> io::Result<()> {
    let p = patterned::<100>();
    let mut out = [0xaa; 100];
    apply(rt, a, b"twice", &p[..64], 7, &p, &mut out)?;
    let mut again = [0xaa; 100];
    apply(rt, a, b"twice", &p[..64], 7, &out, &mut again)
}

// One call, and its row.
fn apply(
    rt: &impl Print,
    a: Algorithm,
    form: &[u8],
    key: &[u8],
    position: u64,
    bytes: &[u8],
    out: &mut [u8],
) -> io::Result<()> {
    let w = inner_stream::apply(a.number(), key, position, bytes, out);
    show(rt, a, form, bytes.len(), w, out)
}
