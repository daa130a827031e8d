// The ciphertext of a file's blocks, copied out by their sizes alone.
ghost use Rattle.std.specs.Prelude.{◌≡◌, length, take, drop};
ghost use Rattle.slices.specs.Over.{over};
ghost use Rattle.open_whole.specs.Ciphertext as ciphertext;

// The size of the block at a place, 0 where it is not all there.
fn block_size(f: &[u8], at: usize) -> usize
    ensures { result ≡ ciphertext.block_size f.now at }
{
    if f.len() < 36 {
        return 0;
    }
    if at <= f.len() - 36 {
        let n = words::le::u32_at(f, at + 32) as usize;
        if n <= f.len() - (at + 36) {
            return n;
        }
        return 0;
    }
    0
}

// Copies the ciphertext of the blocks from a place on, without its first `skip` bytes, over `out`, as far as there is
// room.
pub fn copy_text(f: &[u8], p: usize, skip: usize, out: &mut [u8])
    ensures { out.new ≡ over (take (length out.old) (drop skip (ciphertext.text f.now p))) out.old }
{
    let mut at = p;
    let mut left = skip;
    let mut done: usize = 0;
    // A `while`: only their sizes tell how many blocks there are, so a `for` of turns would be no plainer.
    while done < out.len() {
        let n = block_size(f, at);
        if n == 0 {
            return;
        }
        let s = left.min(n);
        let m = (out.len() - done).min(n - s);
        let start = at + 36 + s;
        let end = at + 36 + n;
        slices::copy(&mut out[done..], &f[start..end]);
        done += m;
        left -= s;
        at = end;
    }
}
