// The rows of one transformation.
use aes_kdf::Transformation;
use std::io;

// The answer of a start, and the state.
pub fn start(
    rt: &impl Print,
    form: &[u8],
    composite: [u8; 32],
    seed: [u8; 32],
    rounds: u64,
) -> io::Result<Transformation> {
    let s = Transformation::start(composite, seed, rounds);
    let halves = joined(s.next);
    vectors::row(
        rt,
        b"start",
        form,
        rounds as usize,
        refusals::number(s.outcome),
        &halves,
    )?;
    Ok(s.next)
}

// Up to n steps of `step` rounds, and T.
pub fn whole(
    rt: &impl Print,
    form: &[u8],
    composite: [u8; 32],
    seed: [u8; 32],
    rounds: u64,
    n: u64,
    step: u64,
) -> io::Result<()> {
    let t = start(rt, form, composite, seed, rounds)?;
    finish(rt, form, advance(t, n, step))
}

// T, after the rounds that are done.
pub fn finish(rt: &impl Print, form: &[u8], t: Transformation) -> io::Result<()> {
    let f = t.finish();
    vectors::row(
        rt,
        b"transformed",
        form,
        t.done as usize,
        refusals::number(f.outcome),
        &f.key,
    )
}

// How the halves stand after each of so many steps, and T.
pub fn shown(rt: &impl Print, form: &[u8], t: Transformation, n: u64, step: u64) -> io::Result<()> {
    let mut x = t;
    for _ in 0..n {
        x = x.advance(step);
        vectors::row(rt, b"halves", form, x.done as usize, 0, &joined(x))?;
    }
    finish(rt, form, x)
}

// So many steps.
pub fn advance(t: Transformation, n: u64, step: u64) -> Transformation {
    (0..n).fold(t, |x, _| x.advance(step))
}

// Both halves, one behind the other.
fn joined(t: Transformation) -> [u8; 32] {
    let mut out = [0; 32];
    out[..16].copy_from_slice(&t.left);
    out[16..].copy_from_slice(&t.right);
    out
}
