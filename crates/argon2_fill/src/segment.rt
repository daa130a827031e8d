// Segments, slices and passes, one after the other (RFC 9106, 3.4).
ghost use Rattle.std.specs.Prelude.{◌≡◌, ◌+◌, ◌*◌, ◌/◌, ◌≤◌, ◌<◌, ◌-◌};
ghost use Rattle.argon2_fill.specs.Rfc9106 as rfc9106;
ghost use Rattle.argon2_fill.specs.State.{figures, position, Fits, Room, Addressed};

use crate::block::{addresses, looks_at};
use crate::places::Place;
use crate::{Figures, Position};

// The given blocks.
fn given(pass: usize, slice: usize) -> usize
    ensures { result ≡ rfc9106.given pass slice }
{
    if pass == 0 && slice == 0 {
        return 2;
    }
    0
}

// Figures that a filling takes.
#[derive(Clone, Copy)]
pub(crate) struct Filling {
    pub f: Figures,
    ghost fits: { Fits (figures f) },
}

impl Filling {
    // The addresses of a position, zeros where they are not looked at.
    fn addresses_of(self, p: Position) -> [u64; 128]
        ensures { Addressed (figures self.f) (position p) result }
    {
        if looks_at(self.f, p) {
            return addresses(self.f, p);
        }
        [0u64; 128]
    }

    // Fills a segment. A block of addresses holds the words of 128 blocks.
    fn fill_segment(self, memory: &mut [u64], pass: usize, slice: usize, lane: usize)
        requires slice_bound { slice < 4 }
        requires lane_bound { lane < self.f.lanes }
        requires room { Room (figures self.f) memory.old }
        ensures { memory.new
            ≡ rfc9106.segment (rfc9106.chooser (figures self.f)) (figures self.f) pass slice lane memory.old }
    {
        let first = given(pass, slice);
        // Where all its blocks are given, no block of addresses is made.
        if self.f.segment <= first {
            return;
        }
        for n in 0..self.f.segment.div_ceil(128) {
            let start = n * 128;
            let p = Position {
                pass,
                slice,
                lane,
                index: start,
            };
            let words = self.addresses_of(p);
            for index in first.max(start)..self.f.segment.min(start + 128) {
                let place = Place {
                    f: self.f,
                    p: Position { index, ..p },
                };
                place.fill(memory, &words);
            }
        }
    }

    // Fills the segments of a slice, lane after lane.
    fn fill_slice(self, memory: &mut [u64], pass: usize, slice: usize)
        requires slice_bound { slice < 4 }
        requires room { Room (figures self.f) memory.old }
        ensures { memory.new
            ≡ rfc9106.segments (rfc9106.chooser (figures self.f)) (figures self.f) pass slice self.f.lanes memory.old }
    {
        for lane in 0..self.f.lanes {
            self.fill_segment(memory, pass, slice, lane);
        }
    }

    // Fills the slices of a pass.
    fn fill_pass(self, memory: &mut [u64], pass: usize)
        requires room { Room (figures self.f) memory.old }
        ensures { memory.new
            ≡ rfc9106.slices (rfc9106.chooser (figures self.f)) (figures self.f) pass 4 memory.old }
    {
        for slice in 0..4 {
            self.fill_slice(memory, pass, slice);
        }
    }

    // All passes.
    pub(crate) fn fill_passes(self, memory: &mut [u64])
        requires room { Room (figures self.f) memory.old }
        ensures { memory.new ≡ rfc9106.fill (rfc9106.chooser (figures self.f)) (figures self.f) memory.old }
    {
        for pass in 0..self.f.passes {
            self.fill_pass(memory, pass);
        }
    }
}
