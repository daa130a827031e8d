// A key transformation of 4,000,000 rounds, the most that there are, as the terminal's screen shows it: the share that
// is done after each step, and at the end the transformed key T, of figures by rule.
//
// tools/transform_demo.py writes the stored stdout, with T by OpenSSL.
#![tactic(auto)]

use aes_kdf::Transformation;
use refusals::limits::ROUNDS_LIMIT;
use std::io;

fn main(rt: HostRuntime) -> io::Result<()> {
    let mut composite = [0u8; 32];
    vectors::pattern(&mut composite);
    let mut seed = [0u8; 32];
    vectors::random(0, &mut seed);
    let t = advance(
        &rt,
        Transformation::start(composite, seed, ROUNDS_LIMIT).next,
    )?;
    let f = t.finish();
    vectors::row(
        &rt,
        b"transformed",
        b"demo",
        t.done as usize,
        refusals::number(f.outcome),
        &f.key,
    )
}

// A hundred steps of 40,000 rounds, with what is done after each.
fn advance(rt: &impl Print, t: Transformation) -> io::Result<Transformation> {
    let mut t = t;
    for _ in 0..100 {
        t = t.advance(40_000);
        show(rt, t.done, t.rounds)?;
    }
    Ok(t)
}

// A line of the screen.
fn show(rt: &impl Print, done: u32, rounds: u32) -> io::Result<()> {
    let share = percent(done, rounds);
    println!(rt; "{done} of {rounds} rounds, {share} %")
}

// The share that is done, in whole percent: all of no rounds.
fn percent(done: u32, rounds: u32) -> u64 {
    (u64::from(done) * 100)
        .checked_div(u64::from(rounds))
        .unwrap_or(100)
}
