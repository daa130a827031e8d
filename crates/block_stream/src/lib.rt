// The blocks behind a file's header (document 01, "File after the header").
//
//   tag (32 bytes) | size (Int32) | data
//
// `judge` makes a block's checks; `seal` writes the tag and the size before data that stands in a lent slice. The
// contracts cite specs/Blocks, and specs/Answers for what an answer says. Refusals: 1, 2, 5, 2 and 14, in this order.
#![tactic(auto)]

ghost use Rattle.std.specs.Prelude.{◌≡◌, [], ◌∷◌, ◌+◌, ◌≤◌, length};
ghost use Rattle.words.specs.Endian.{le};
ghost use Rattle.words.specs.Size.{int32};
ghost use Rattle.refusals.specs.Limits.{file_limit};
ghost use Rattle.block_stream.specs.Blocks as blocks;
ghost use Rattle.block_stream.specs.Answers as answers;

use hmac::Hmac;
use refusals::Refusal;

// What a block is found to be: a data block with its size, the closing block, or refused.
#[derive(Clone, Copy)]
pub enum Block {
    Data(usize),
    Closing,
    Refused(Refusal),
}

impl Block {
    // The number of the answer: 0 is success.
    pub fn number(self) -> u8
        ensures { result ≡ (answers.said self).number }
    {
        match self {
            Block::Data(_) => 0,
            Block::Closing => 0,
            Block::Refused(r) => r.number(),
        }
    }

    // The place of a refusal: 0 on success.
    pub fn place(self) -> usize
        ensures { result ≡ (answers.said self).place }
    {
        match self {
            Block::Data(_) => 0,
            Block::Closing => 0,
            Block::Refused(r) => r.place(),
        }
    }

    // The size of the data: 0 of the closing block, and on a refusal.
    pub fn value(self) -> usize
        ensures { result ∷ [] ≡ (answers.said self).values }
    {
        match self {
            Block::Data(n) => n,
            Block::Closing => 0,
            Block::Refused(_) => 0,
        }
    }
}

// The tag of a block, whose size and data are `m`.
fn tag_of(base: [u8; 64], number: u64, m: &[u8]) -> [u8; 32]
    requires { length m.now ≤ file_limit + 4 }
    ensures { result ≡ blocks.block_tag base number m.now }
{
    let key = keys::tag_key(number, base);
    let n = words::le::bytes64(number);
    Hmac::start(&key).next.feed(&n).next.feed(m).next.finish()
}

// Whether the tag of the block at a place holds, its data having `n` bytes.
fn tag_holds(f: &[u8], base: [u8; 64], number: u64, at: usize, n: usize) -> bool
    requires f_len_bound { length f.now ≤ file_limit }
    requires n_in_bounds { at + 36 + n ≤ length f.now }
    ensures { result ≡ blocks.holds base f.now number at n }
{
    let t = tag_of(base, number, &f[at + 32..at + 36 + n]);
    slices::same(&f[at..at + 32], &t)
}

// A block's size, data and tag, its 36 bytes being there.
fn judge_size(f: &[u8], base: [u8; 64], number: u64, at: usize) -> Block
    requires f_len_bound { length f.now ≤ file_limit }
    requires at_in_bounds { at + 36 ≤ length f.now }
    ensures { result ≡ blocks.judge_size base f.now number at (int32 (le 4 f.now (at + 32))) }
{
    match words::le::size_at(f, at + 32) {
        None => return Block::Refused(Refusal::WrongSize(0)),
        Some(size) => {
            let n = size as usize;
            if f.len() - (at + 36) < n {
                return Block::Refused(Refusal::CutShort(0));
            }
            if tag_holds(f, base, number, at, n) {
                if n == 0 {
                    return Block::Closing;
                }
                return Block::Data(n);
            }
            return Block::Refused(Refusal::BlockTag);
        }
    }
}

// The block at a place of a file, judged as the block of a number.
pub fn judge(f: &[u8], base: [u8; 64], number: u64, at: usize) -> Block
    ensures value { result ≡ blocks.judge base f.now number at }
    ensures result_value { answers.said result ≡ answers.said (blocks.judge base f.now number at) }
{
    if refusals::limits::file_fits(f.len()) {
        if f.len() < 36 {
            return Block::Refused(Refusal::CutShort(0));
        }
        if at <= f.len() - 36 {
            return judge_size(f, base, number, at);
        }
        return Block::Refused(Refusal::CutShort(0));
    }
    Block::Refused(Refusal::TooLong)
}

// Writes a block's tag and size before its data, the `n` bytes at 36 of `out`. Where there are not so many, or they are
// over the file's limit, nothing changes.
pub fn seal(out: &mut [u8], base: [u8; 64], number: u64, n: usize)
    ensures { out.new ≡ blocks.sealed base number n out.old }
{
    if out.len() < 36 {
        return;
    }
    if n <= out.len() - 36 {
        if refusals::limits::file_fits(n) {
            let size = words::le::bytes32(n as u32);
            slices::copy(&mut out[32..], &size);
            let t = tag_of(base, number, &out[32..36 + n]);
            slices::copy(out, &t);
            return;
        }
        return;
    }
}
