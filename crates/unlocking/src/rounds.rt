// The rounds of AES-KDF, with the share that is done on standard error: `12 %` over what stood in the line before.
//
// The contracts cite aes_kdf's specs.
ghost use Rattle.std.specs.Prelude.{◌≡◌, ◌≤◌, replicate};
ghost use Rattle.refusals.specs.Limits.{rounds_limit};
ghost use Rattle.aes_kdf.specs.AesKdf as kdf;
ghost use Rattle.aes_kdf.specs.State as state;

use aes_kdf::Transformation;

// The share that is done, in whole percent: all of no rounds.
fn percent(done: u32, rounds: u32) -> u64 {
    if rounds == 0 {
        return 100;
    }
    (done as u64) * 100 / (rounds as u64)
}

// The share that is done, over the one before.
fn show(rt: &impl Eprint, done: u32, rounds: u32) {
    let share = percent(done, rounds);
    let _ = eprint!(rt; "\r{share} %");
}

// Fifty steps of n rounds, with the share that is done after each.
fn advance(rt: &impl Eprint, t: Transformation, n: u64) -> Transformation
    ensures { result ≡ state.advances (replicate 50 n) t }
{
    let mut x = t;
    for _ in 0..50u32 {
        let next = x.advance(n);
        x = next;
        show(rt, x.done, x.rounds);
    }
    x
}

// T of a composite key, a seed and so many rounds.
pub(crate) fn transform(
    rt: &impl Eprint,
    composite: [u8; 32],
    seed: [u8; 32],
    rounds: u64,
) -> [u8; 32]
    requires { rounds ≤ rounds_limit }
    ensures { result ≡ kdf.transformed_key composite seed rounds }
{
    let t = advance(
        rt,
        Transformation::start(composite, seed, rounds).next,
        rounds / 50 + 1,
    );
    let _ = eprint!(rt; "\n");
    t.finish().key
}
