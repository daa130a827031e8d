// One block of the memory (RFC 9106, 3.2 steps 5 and 6): two blocks compressed, and put in place.
ghost use Rattle.std.specs.Prelude.{◌≡◌, ◌+◌, ◌*◌, ◌≤◌, ◌<◌, length, take, replicate};
ghost use Rattle.words.specs.Xor.{xors};
ghost use Rattle.slices.specs.Over.{over};
ghost use Rattle.argon2_block.specs.Rfc9106.{compress};
ghost use Rattle.argon2_fill.specs.Rfc9106 as rfc9106;
ghost use Rattle.argon2_fill.specs.State.{figures, position, Fits, Room, Addressed, looks};

use crate::places::{Place, times};
use crate::{Figures, Position};

// R: the exclusive or of the first 128 words of two slices.
fn mixed(r: &mut [u64; 128], x: &[u64], y: &[u64])
    requires { (length r.old ≡ 128) × ((128 ≤ length x.now) × (128 ≤ length y.now)) }
    ensures { r.new ≡ xors (take 128 x.now) (take 128 y.now) }
{
    for (i, word) in r.iter_mut().enumerate() {
        *word = x[i] ^ y[i];
    }
}

// Puts the exclusive or of Z and R over the front.
fn put_fresh(out: &mut [u64], z: &[u64; 128], r: &[u64; 128])
    requires { (128 ≤ length out.old) × ((length z.now ≡ 128) × (length r.now ≡ 128)) }
    ensures { out.new ≡ over (xors z.now r.now) out.old }
{
    for i in 0..128 {
        out[i] = z[i] ^ r[i];
    }
}

// Adds the exclusive or of Z and R to the front.
fn put_over(out: &mut [u64], z: &[u64; 128], r: &[u64; 128])
    requires { (128 ≤ length out.old) × ((length z.now ≡ 128) × (length r.now ≡ 128)) }
    ensures { out.new
        ≡ over (xors (xors z.now r.now) (take 128 out.old)) out.old }
{
    for i in 0..128 {
        out[i] = (z[i] ^ r[i]) ^ out[i];
    }
}

// Adds Z to a block by exclusive or.
fn add(r: &mut [u64; 128], z: &[u64; 128])
    requires { (length r.old ≡ 128) × (length z.now ≡ 128) }
    ensures { r.new ≡ xors z.now r.old }
{
    for (i, word) in r.iter_mut().enumerate() {
        *word = z[i] ^ *word;
    }
}

// G of a block of zeros and a block, in place of the block.
fn compress_zeros(r: &mut [u64; 128])
    requires { length r.old ≡ 128 }
    ensures { r.new ≡ compress (replicate 128 0) r.old }
{
    let mut z = *r;
    argon2_block::permute(&mut z);
    add(r, &z);
}

// Whether the word of a position is an address.
pub(crate) fn looks_at(f: Figures, p: Position) -> bool
    ensures { result ≡ looks (figures f) (position p) }
{
    f.kind == 2 && p.pass == 0 && p.slice < 2
}

// The block of addresses that holds a position's word.
pub(crate) fn addresses(f: Figures, p: Position) -> [u64; 128]
    requires { Fits (figures f) }
    ensures { result ≡ rfc9106.addresses (figures f) (position p) (rfc9106.counter_of (position p)) }
{
    let mut input = [0u64; 128];
    input[0] = p.pass as u64;
    input[1] = p.lane as u64;
    input[2] = p.slice as u64;
    input[3] = times(f.lanes, 4 * f.segment) as u64;
    input[4] = f.passes as u64;
    input[5] = f.kind as u64;
    input[6] = (p.index / 128 + 1) as u64;
    compress_zeros(&mut input);
    compress_zeros(&mut input);
    input
}

// Where a block of the memory begins.
fn start_of(f: Figures, n: usize, words: usize) -> usize
    requires { (n < rfc9106.blocks (figures f)) × (rfc9106.blocks (figures f) * 128 ≤ words) }
    ensures { (result ≡ n * 128) × (result + 128 ≤ words) }
{
    n * 128
}

impl Place {
    // The word of the position.
    fn word(self, memory: &[u64], addresses: &[u64; 128]) -> u64
        requires room { Room (figures self.f) memory.now }
        requires addressed { Addressed (figures self.f) (position self.p) addresses.now }
        ensures { result ≡ rfc9106.chooser (figures self.f) memory.now (position self.p) }
    {
        if looks_at(self.f, self.p) {
            let i = self.p.index % 128;
            return addresses[i];
        }
        let at = self.previous() * 128;
        memory[at]
    }

    // R of the position.
    fn source(self, r: &mut [u64; 128], memory: &[u64], addresses: &[u64; 128])
        requires block_len { length r.old ≡ 128 }
        requires room { Room (figures self.f) memory.now }
        requires addressed { Addressed (figures self.f) (position self.p) addresses.now }
        ensures { r.new ≡ rfc9106.source (figures self.f) (position self.p)
            (rfc9106.chooser (figures self.f) memory.now (position self.p)) memory.now }
    {
        let w = self.word(memory, addresses);
        let x = start_of(self.f, self.previous(), memory.len());
        let y = start_of(self.f, self.reference(w), memory.len());
        mixed(r, &memory[x..], &memory[y..]);
    }

    // Fills the block of the position.
    pub(crate) fn fill(self, memory: &mut [u64], addresses: &[u64; 128])
        requires room { Room (figures self.f) memory.old }
        requires addressed { Addressed (figures self.f) (position self.p) addresses.now }
        ensures { memory.new
            ≡ rfc9106.fill_block (rfc9106.chooser (figures self.f)) (figures self.f) (position self.p) memory.old }
    {
        let mut r = [0u64; 128];
        self.source(&mut r, memory, addresses);
        let mut z = r;
        argon2_block::permute(&mut z);
        let at = start_of(self.f, self.current(), memory.len());
        if self.p.pass == 0 {
            put_fresh(&mut memory[at..], &z, &r);
            return;
        }
        put_over(&mut memory[at..], &z, &r);
    }
}
