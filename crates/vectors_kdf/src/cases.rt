// What is transformed.
use crate::transformed::{advance, finish, shown, start, whole};
use aes_kdf::Transformation;
use std::io;
use vectors::table::{array, field};

// The vault of a line, of up to 100,000 rounds, in steps of 1,000.
pub fn vault(rt: &impl Print, line: &[u8]) -> io::Result<()> {
    let rounds = vectors::table::number(field(line, 3));
    whole(
        rt,
        field(line, 0),
        array(field(line, 1)),
        array(field(line, 2)),
        rounds,
        100,
        1_000,
    )
}

// The composite key by rule.
fn composite() -> [u8; 32] {
    let mut a = [0u8; 32];
    vectors::pattern(&mut a);
    a
}

// The seed by rule.
fn seed() -> [u8; 32] {
    let mut a = [0u8; 32];
    vectors::random(0, &mut a);
    a
}

// Up to n steps of `step` rounds, under the composite key and the seed by rule, and T.
fn by_rule(rt: &impl Print, form: &[u8], rounds: u64, n: u64, step: u64) -> io::Result<()> {
    whole(rt, form, composite(), seed(), rounds, n, step)
}

// A start under the composite key and the seed by rule, and the state.
fn start_by_rule(rt: &impl Print, form: &[u8], rounds: u64) -> io::Result<Transformation> {
    start(rt, form, composite(), seed(), rounds)
}

// 100,000 rounds in steps of several sizes, and how the halves stand after each of some large ones.
pub fn steps(rt: &impl Print) -> io::Result<()> {
    for (form, n, step) in [
        ("by-1", 100_000, 1),
        ("by-7", 14_286, 7),
        ("by-999", 101, 999),
        ("by-65536", 2, 65_536),
        ("by-100000", 1, 100_000),
        ("by-18446744073709551615", 1, u64::MAX),
    ] {
        by_rule(rt, form.as_bytes(), 100_000, n, step)?;
    }
    let t = start_by_rule(rt, b"by-30000", 100_000)?;
    shown(rt, b"by-30000", t, 5, 30_000)
}

// Two hundred pseudo-random composite keys, seeds and rounds.
pub fn random_figures(rt: &impl Print) -> io::Result<()> {
    let mut state = 2;
    for _ in 0..200 {
        state = random(rt, state)?;
    }
    Ok(())
}

// A pseudo-random composite key, seed and rounds, in three steps, and the generator's state behind them.
fn random(rt: &impl Print, state: u64) -> io::Result<u64> {
    let mut composite = [0u8; 32];
    let mut seed = [0u8; 32];
    let mut four = [0u8; 4];
    let x = vectors::random(state, &mut composite);
    let y = vectors::random(x, &mut seed);
    let z = vectors::random(y, &mut four);
    let rounds = u64::from(u32::from_be_bytes(four)) % 2_001;
    whole(rt, b"random", composite, seed, rounds, 3, rounds / 3 + 1)?;
    Ok(z)
}

// No round, one, two, two thousand, and ten that are looked at on the way.
pub fn few_rounds(rt: &impl Print) -> io::Result<()> {
    finish(rt, b"rounds", start_by_rule(rt, b"rounds", 0)?)?;
    for (rounds, n, step) in [(1, 1, 1), (2, 2, 1), (2_000, 2, 1_999)] {
        by_rule(rt, b"rounds", rounds, n, step)?;
    }
    early(rt, start_by_rule(rt, b"rounds", 10)?)
}

// T of ten rounds, asked for before the first, before the last, after a step of no rounds, and at the end.
fn early(rt: &impl Print, t: Transformation) -> io::Result<()> {
    finish(rt, b"rounds", t)?;
    let nine = advance(t, 3, 3);
    finish(rt, b"rounds", nine)?;
    let same = advance(nine, 1, 0);
    finish(rt, b"rounds", same)?;
    finish(rt, b"rounds", advance(same, 2, 1))
}

// The most rounds; one more, so many that their low 32 bits are 0 and 1, and the most that 64 bits hold.
pub fn refusals(rt: &impl Print) -> io::Result<()> {
    start_by_rule(rt, b"rounds", 4_000_000)?;
    for rounds in [4_000_001, 0x1_0000_0000, 0x1_0000_0001, u64::MAX] {
        by_rule(rt, b"rounds", rounds, 1, 1_000)?;
    }
    Ok(())
}
