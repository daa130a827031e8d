// The checks of all blocks of a file, before anything is written.
ghost use Rattle.std.specs.Prelude.{◌≡◌, suc, length};
ghost use Rattle.open_whole.specs.Checks as checks;

use block_stream::Block;
use refusals::Refusal;

// How many bytes of ciphertext the blocks of a file have in all, whose first one stands at `p`: to the closing one,
// behind which nothing stands.
pub fn survey(f: &[u8], base: [u8; 64], p: usize) -> Result<usize, Refusal>
    ensures { result ≡ checks.survey (suc (length f.now)) base f.now 0 p 0 }
{
    let mut number: u64 = 0;
    let mut at = p;
    let mut taken: usize = 0;
    loop {
        match block_stream::judge(f, base, number, at) {
            Block::Refused(r) => return Err(r),
            Block::Closing => {
                if at + 36 < f.len() {
                    return Err(Refusal::TrailingBytes);
                }
                return Ok(taken);
            }
            Block::Data(n) => {
                number += 1;
                at += 36 + n;
                taken += n;
            }
        }
    }
}
