// Argon2's filling of the memory (RFC 9106, 3.2 steps 5 and 6, and 3.4): every block but the first two of each lane, lane
// after lane, for Argon2d and Argon2id, version 0x13.
//
// The contracts cite specs/Rfc9106, whose filling is defined once over the way reference blocks are chosen. Nothing is refused:
// figures outside (1 to 16 lanes, 2 to 16,384 blocks a segment), or too little memory, leave the memory as it was (specs/State,
// filled). Words behind the blocks stay. Argon2d, and Argon2id behind its first half pass, look at places that depend on the
// password.
#![tactic(auto)]

ghost use Rattle.std.specs.Prelude.{◌≡◌};
ghost use Rattle.argon2_fill.specs.Rfc9106 as rfc9106;
ghost use Rattle.argon2_fill.specs.State as state;

mod block;
mod places;
mod reference;
mod segment;

use segment::Filling;

// The lanes, the blocks of a segment, the passes, and the type's number: 0 for Argon2d, 2 for Argon2id.
// (The number is no enum, since callers may pass any: all but 2 choose as Argon2d does.)
#[derive(Clone, Copy)]
pub struct Figures {
    pub lanes: usize,
    pub segment: usize,
    pub passes: usize,
    pub kind: usize,
}

// A pass, a slice, a lane, and a block's index in its segment.
#[derive(Clone, Copy)]
pub struct Position {
    pub pass: usize,
    pub slice: usize,
    pub lane: usize,
    pub index: usize,
}

// Whether a filling takes the figures, with so many words of memory.
fn fits(f: Figures, words: usize) -> bool
    ensures { result ≡ state.accepts (state.figures f) words }
{
    0 < f.lanes
        && f.lanes <= 16
        && 2 <= f.segment
        && f.segment <= 16_384
        && places::times(f.lanes, 4 * f.segment) * 128 <= words
}

// Fills the blocks of a memory whose first two blocks of each lane are given.
pub fn fill(memory: &mut [u64], f: Figures)
    ensures { memory.new ≡ state.filled (state.figures f) memory.old }
{
    if fits(f, memory.len()) {
        let filling = Filling { f };
        filling.fill_passes(memory);
    }
}
