// Where a block stands (RFC 9106, 3.4).
ghost use Rattle.std.specs.Prelude.{◌≡◌, ◌+◌, ◌*◌, ◌≤◌, ◌<◌};
ghost use Rattle.argon2_fill.specs.Rfc9106 as rfc9106;
ghost use Rattle.argon2_fill.specs.State.{figures, position, Open};

use crate::{Figures, Position};

// A product of a few by not too many.
pub(crate) fn times(a: usize, b: usize) -> usize
    requires { (a ≤ 16) × (b ≤ 65536) }
    ensures { (result ≡ a * b) × (result ≤ 1048576) }
{
    a * b
}

// A block that is to be filled: figures that a filling takes, and a position whose block is not a given one.
#[derive(Clone, Copy)]
pub(crate) struct Place {
    pub f: Figures,
    pub p: Position,
    ghost is_open: { Open (figures f) (position p) },
}

impl Place {
    // The number of a lane's block.
    pub(crate) fn block_at(self, lane: usize, column: usize) -> usize
        requires lane_bound { lane < self.f.lanes }
        requires column_bound { column < 4 * self.f.segment }
        ensures { result ≡ rfc9106.block_at (figures self.f) lane column }
    {
        times(lane, 4 * self.f.segment) + column
    }

    // The column of the position.
    pub(crate) fn column(self) -> usize
        ensures { result ≡ rfc9106.column (figures self.f) (position self.p) }
    {
        times(self.p.slice, self.f.segment) + self.p.index
    }

    // The number of the block before, round the lane.
    pub(crate) fn previous(self) -> usize
        ensures { result ≡ rfc9106.previous (figures self.f) (position self.p) }
    {
        let j = self.column();
        if j == 0 {
            return self.block_at(self.p.lane, 4 * self.f.segment - 1);
        }
        self.block_at(self.p.lane, j - 1)
    }

    // The number of the block.
    pub(crate) fn current(self) -> usize
        ensures { result ≡ rfc9106.current (figures self.f) (position self.p) }
    {
        self.block_at(self.p.lane, self.column())
    }
}
