// The first two blocks of each lane (RFC 9106, 3.2, steps 3 and 4).
ghost use Rattle.std.specs.Prelude.{◌≡◌, ◌++◌, ◌*◌, ◌≤◌, ◌<◌, length};
ghost use Rattle.words.specs.Endian.{le_bytes};
ghost use Rattle.slices.specs.Over.{over, put_at};
ghost use Rattle.blake2b.specs.Rfc7693.{block_words};
ghost use Rattle.argon2_hash.specs.LongHash.{long_hash};
ghost use Rattle.argon2_fill.specs.Rfc9106 as filling;
ghost use Rattle.argon2_fill.specs.State.{figures, Fits};
ghost use Rattle.argon2.specs.Rfc9106 as rfc9106;

use argon2_fill::Figures;
use words::le::bytes32;

// H_0 || LE32(j) || LE32(i).
fn seed_of(h: [u8; 64], i: u32, j: u32) -> [u8; 72]
    ensures { result ≡ h ++ (le_bytes 4 j ++ le_bytes 4 i) }
{
    let mut seed = [0u8; 72];
    slices::put(&mut seed, 0, &h);
    slices::put(&mut seed, 64, &bytes32(j));
    slices::put(&mut seed, 68, &bytes32(i));
    seed
}

// H'^(1024) of these.
fn first_bytes(h: [u8; 64], i: u32, j: u32) -> [u8; 1024]
    ensures { result ≡ long_hash 1024 (h ++ (le_bytes 4 j ++ le_bytes 4 i)) }
{
    let mut out = [0u8; 1024];
    let _ = argon2_hash::fill(&seed_of(h, i, j), &mut out);
    out
}

// Puts the words of a block's bytes over the front.
fn put_words(out: &mut [u64], bytes: [u8; 1024])
    requires { 128 ≤ length out.old }
    ensures { out.new ≡ over (block_words 128 bytes) out.old }
{
    for i in 0..128 {
        out[i] = words::le::u64_at(&bytes, i * 8);
    }
}

// Puts the block B[i][j], j 0 or 1, in its place.
fn put_first(memory: &mut [u64], f: Figures, h: [u8; 64], i: usize, j: usize)
    requires fits { Fits (figures f) }
    requires i_lt_lanes { i < f.lanes }
    requires j_bound { j < 2 }
    requires f_in_bounds { filling.blocks (figures f) * 128 ≤ length memory.old }
    ensures { memory.new ≡ put_at (filling.block_at (figures f) i j * 128) (rfc9106.first_block_of h i j) memory.old }
{
    let at = (i * (4 * f.segment) + j) * 128;
    put_words(&mut memory[at..], first_bytes(h, i as u32, j as u32));
}

// Puts the first two blocks of each lane in their places.
pub(crate) fn put_first_blocks(memory: &mut [u64], f: Figures, h: [u8; 64])
    requires fits { Fits (figures f) }
    requires f_in_bounds { filling.blocks (figures f) * 128 ≤ length memory.old }
    ensures { memory.new ≡ rfc9106.first_blocks (figures f) h f.lanes memory.old }
{
    for i in 0..f.lanes {
        put_first(memory, f, h, i, 0);
        put_first(memory, f, h, i, 1);
    }
}
