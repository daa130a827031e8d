// The reference block of a place, from the word that is chosen (RFC 9106, 3.4.2).
ghost use Rattle.std.specs.Prelude.{◌≡◌, ◌+◌, ◌*◌, ◌/◌, ◌%◌, ◌^◌, ◌≤◌, ◌<◌};
ghost use Rattle.argon2_fill.specs.Rfc9106 as rfc9106;
ghost use Rattle.argon2_fill.specs.State.{figures, position};

use crate::places::{Place, times};

// The block's number among those to choose from.
fn relative(w: usize, j: usize) -> usize
    requires { (1 ≤ w) × ((w < 2 ^ 32) × (j < 2 ^ 32)) }
    ensures { result ≡ rfc9106.relative w j }
{
    let x = j * j / 0x1_0000_0000;
    w - 1 - w * x / 0x1_0000_0000
}

impl Place {
    // The lane of the reference block: J_2 modulo the lanes, but in the first slice of the first pass.
    fn reference_lane(self, word: u64) -> usize
        ensures { result ≡ rfc9106.reference_lane (figures self.f) (position self.p) word }
    {
        if self.p.pass == 0 && self.p.slice == 0 {
            return self.p.lane;
        }
        ((word / 0x1_0000_0000) as usize) % self.f.lanes
    }

    // The blocks of finished segments.
    fn finished(self) -> usize
        ensures { result ≡ rfc9106.finished (figures self.f) (position self.p) }
    {
        if self.p.pass == 0 {
            return times(self.p.slice, self.f.segment);
        }
        3 * self.f.segment
    }

    // How many blocks are to choose from.
    fn area(self, word: u64) -> usize
        ensures { result ≡ rfc9106.area (figures self.f) (position self.p) (rfc9106.reference_lane (figures self.f) (position self.p) word) }
    {
        let n = self.finished();
        if self.reference_lane(word) == self.p.lane {
            return n + self.p.index - 1;
        }
        if self.p.index == 0 {
            return n - 1;
        }
        n
    }

    // The column of the first of them.
    fn first(self) -> usize
        ensures { result ≡ rfc9106.first (figures self.f) (position self.p) }
    {
        if self.p.pass == 0 {
            return 0;
        }
        times((self.p.slice + 1) % 4, self.f.segment)
    }

    // The number of the reference block.
    pub(crate) fn reference(self, word: u64) -> usize
        ensures { result ≡ rfc9106.reference (figures self.f) (position self.p) word }
    {
        let lane = self.reference_lane(word);
        let w = self.area(word);
        let z = relative(w, (word % 0x1_0000_0000) as usize);
        self.block_at(lane, (self.first() + z) % (4 * self.f.segment))
    }
}
