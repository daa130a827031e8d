// The rows of a vault that is opened block by block.
use crate::whole::ROOM;
use opening::{Opener, Phase};
use refusals::Refusal;
use sha256::Sha256;
use std::io;

// The steps so far: how many, the last one's number, how many bytes were handed over, those bytes, what was answered,
// and the state.
#[derive(Clone, Copy)]
struct Run {
    calls: usize,
    number: u8,
    total: usize,
    handed: Sha256,
    told: Sha256,
    next: Opener,
}

// A start with a file, and steps that are given another, or the same: until the opening is closed or ended, 4,000 at
// most.
pub fn rows(rt: &impl Print, name: &[u8], f: &[u8], t: [u8; 32], given: &[u8]) -> io::Result<()> {
    let mut run = Run {
        calls: 0,
        number: 0,
        total: 0,
        handed: Sha256::start(),
        told: Sha256::start(),
        next: started(rt, name, f, t)?,
    };
    for _ in 0..4_000 {
        if !is_open(run.next) {
            break;
        }
        run = turn(run, given);
    }
    show(rt, name, run, given)
}

// The state of a start, and its row.
pub fn started(rt: &impl Print, name: &[u8], f: &[u8], t: [u8; 32]) -> io::Result<Opener> {
    let s = vault::start(f, t);
    let figure = match s.outcome {
        Ok(()) => s.next.at,
        Err(r) => r.place(),
    };
    let base = s.next.keys.base;
    vectors::row(
        rt,
        b"start",
        name,
        figure,
        refusals::number(s.outcome),
        &base,
    )?;
    Ok(s.next)
}

// Whether an opening takes steps.
pub fn is_open(o: Opener) -> bool {
    matches!(o.phase, Phase::Open)
}

// One step.
fn turn(r: Run, f: &[u8]) -> Run {
    let o = r.next;
    let mut out = [0xEE; ROOM];
    let size = words::le::u32_at(f, o.at.saturating_add(32)) as usize;
    let room = room_of(r.calls % 8, size % 60_000);
    let s = opener::step(o, f, &mut out[..room.min(ROOM)]);
    let n = refusals::count(s.answer);
    Run {
        calls: r.calls.saturating_add(1),
        number: refusals::number(s.answer),
        total: r.total.saturating_add(n),
        handed: fed(r.handed, vectors::first(&out, n)),
        told: tell(
            r.told,
            s.answer,
            vectors::first(&out, room.saturating_add(16)),
        ),
        next: s.next,
    }
}

// A hash with more bytes.
fn fed(h: Sha256, m: &[u8]) -> Sha256 {
    h.feed(m).next
}

// A step's answer, fed: the number, the count as 8 bytes, and the lent bytes with the 16 behind them.
fn tell(told: Sha256, a: Result<usize, Refusal>, lent: &[u8]) -> Sha256 {
    let number = fed(told, &[refusals::number(a)]);
    let count = fed(number, &(refusals::count(a) as u64).to_le_bytes());
    fed(count, lent)
}

// The length lent at turn k of eight, for a block of so many bytes.
fn room_of(k: usize, size: usize) -> usize {
    match k {
        0 | 1 => k,
        2 => size.saturating_sub(17),
        3 => size.saturating_sub(2),
        4 => size.saturating_sub(1),
        5 => size,
        6 => size.saturating_add(15),
        _ => size.saturating_add(1_000),
    }
}

// The rows of all steps, and of one more.
fn show(rt: &impl Print, name: &[u8], r: Run, f: &[u8]) -> io::Result<()> {
    let told = r.told.finish();
    vectors::row(rt, b"steps", name, r.calls, r.number, &told)?;
    let handed = r.handed.finish();
    vectors::row(rt, b"handed", name, r.total, mark(r.next), &handed)?;
    after(rt, name, r.next, f)
}

// The row of a step with 65,536 bytes lent.
fn after(rt: &impl Print, name: &[u8], o: Opener, f: &[u8]) -> io::Result<()> {
    let mut out = [0xEE; ROOM];
    let s = opener::step(o, f, &mut out);
    let digest = state_digest(s.next, &out);
    vectors::row(
        rt,
        b"after",
        name,
        refusals::count(s.answer),
        refusals::number(s.answer),
        &digest,
    )
}

// A state's phase as a number.
fn mark(o: Opener) -> u8 {
    match o.phase {
        Phase::Open => 0,
        Phase::Closed => 1,
        Phase::Ended => 2,
    }
}

// SHA-256 of a state and an output: the phase, three figures of 8 bytes, both pieces, key, nonce, tag base, the 60
// words of the round keys, the output.
fn state_digest(o: Opener, out: &[u8]) -> [u8; 32] {
    let k = o.keys;
    let mut h = Sha256::start();
    for part in [
        &[mark(o)][..],
        &o.number.to_le_bytes(),
        &(o.at as u64).to_le_bytes(),
        &(o.taken as u64).to_le_bytes(),
        &o.prev,
        &o.held,
        &k.key,
        &k.nonce,
        &k.base,
    ] {
        h = fed(h, part);
    }
    for word in k.round_keys.words {
        h = fed(h, &word.to_le_bytes());
    }
    fed(h, out).finish()
}
