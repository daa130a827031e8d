// The last column, and its bytes (RFC 9106, 3.2, steps 7 and 8).
ghost use Rattle.std.specs.Prelude.{◌≡◌, ◌+◌, ◌-◌, ◌*◌, ◌≤◌, ◌<◌, length, take};
ghost use Rattle.words.specs.Xor.{xors};
ghost use Rattle.blake2b.specs.Rfc7693.{serialize};
ghost use Rattle.argon2_fill.specs.Rfc9106 as filling;
ghost use Rattle.argon2_fill.specs.State.{figures, Fits};
ghost use Rattle.argon2.specs.Rfc9106 as rfc9106;

use argon2_fill::Figures;

// Adds the first 128 words of a slice to a block by exclusive or.
fn xor_block(c: &mut [u64; 128], s: &[u64])
    requires block_len { length c.old ≡ 128 }
    requires in_bounds { 128 ≤ length s.now }
    ensures { c.new ≡ xors c.old (take 128 s.now) }
{
    for (i, word) in c.iter_mut().enumerate() {
        *word ^= s[i];
    }
}

// Where the last block of a lane begins.
fn last_start(f: Figures, i: usize, words: usize) -> usize
    requires { Fits (figures f) × ((i < f.lanes) × (filling.blocks (figures f) * 128 ≤ words)) }
    ensures { (result ≡ filling.block_at (figures f) i (filling.lane_length (figures f) - 1) * 128)
        × (result + 128 ≤ words) }
{
    (i * (4 * f.segment) + (4 * f.segment - 1)) * 128
}

// 3.2, step 7: C.
pub(crate) fn last_column(memory: &[u64], f: Figures) -> [u64; 128]
    requires fits { Fits (figures f) }
    requires f_in_bounds { filling.blocks (figures f) * 128 ≤ length memory.now }
    ensures { result ≡ rfc9106.last_column (figures f) memory.now f.lanes }
{
    let mut c = [0u64; 128];
    for i in 0..f.lanes {
        let at = last_start(f, i, memory.len());
        xor_block(&mut c, &memory[at..]);
    }
    c
}

// The bytes of a block.
pub(crate) fn bytes_of(c: [u64; 128]) -> [u8; 1024]
    ensures { result ≡ serialize c }
{
    let mut out = [0u8; 1024];
    for (i, word) in c.iter().enumerate() {
        slices::put(&mut out, i * 8, &words::le::bytes64(*word));
    }
    out
}
