// Opening a vault block by block (document 01, "File after the header"): a state by value, and a step that takes the
// next block.
//
// A step takes the whole file again; the place is in the state. It judges the block (crate block_stream), tells whether
// there is room for what is due, and only then writes: the due bytes over the front of the lent slice, nothing behind
// them. The contracts cite crate opening's specs/Steps. Refusals: 19, 1, 2, 5, 2 and 14, at the closing block also 15
// and 16, then 17. A refusal with 17 or 19 leaves the state as it was; any other gives one that is zero but for its
// mark.
#![tactic(auto)]

ghost use Rattle.std.specs.Prelude.{◌≡◌, ◌+◌, ◌*◌, ◌≤◌, length};
ghost use Rattle.refusals.specs.Limits.{file_limit};
ghost use Rattle.slices.specs.Over.{over};
ghost use Rattle.ciphers.specs.declared.Cipher.TheVariants.{Aes256};
ghost use Rattle.block_stream.specs.declared.Block.TheVariants.{Data, Closing};
ghost use Rattle.aes_cbc.specs.Aes256Cbc as aes256_cbc;
ghost use Rattle.opening.specs.declared.Phase.TheVariants.{Open};
ghost use Rattle.opening.specs.Runs as runs;
ghost use Rattle.opening.specs.Steps as steps;
ghost use Rattle.opener.specs.Counts as counts;
ghost use Rattle.opener.specs.Replies.{stepped, Does};

use crate::held::Carried;
use aes::RoundKeys;
use block_stream::Block;
use ciphers::Cipher;
use opening::{Keys, Opener, Phase, Stepped};
use refusals::Refusal;

mod held;
mod keystream;

// A state that is zero but for its mark.
pub fn blank(phase: Phase) -> Opener
    ensures { result ≡ steps.blank phase }
{
    Opener {
        phase,
        number: 0,
        at: 0,
        taken: 0,
        prev: [0u8; 16],
        held: [0u8; 16],
        keys: Keys {
            cipher: Cipher::Aes256,
            key: [0u8; 32],
            round_keys: RoundKeys { words: [0u32; 60] },
            nonce: [0u8; 16],
            base: [0u8; 64],
        },
    }
}

// A refusal, and the state after it.
fn refuse(next: Opener, why: Refusal) -> Stepped
    ensures { result ≡ stepped (runs.refuse why next) }
{
    Stepped {
        answer: Err(why),
        next,
    }
}

// The ciphertext piece before the first: AES-256's nonce.
fn first_prev(cipher: Cipher, nonce: [u8; 16]) -> [u8; 16]
    ensures { result ≡ steps.first_prev cipher nonce }
{
    match cipher {
        Cipher::Aes256 => nonce,
        Cipher::ChaCha20 => [0u8; 16],
    }
}

// The state of an accepted start, the first block standing at p.
pub fn begin(k: Keys, p: usize) -> Opener
    ensures { result ≡ steps.open_start k p }
{
    let cipher = k.cipher;
    let nonce = k.nonce;
    let prev = first_prev(cipher, nonce);
    Opener {
        phase: Phase::Open,
        number: 0,
        at: p,
        taken: 0,
        prev,
        held: [0u8; 16],
        keys: k,
    }
}

// Whether a place is within the file's limit and has room for the blocks taken, each of which had a byte at least; with
// none there is no ciphertext.
fn is_sound(number: u64, at: usize, taken: usize) -> bool
    ensures { result ≡ steps.sound number at taken }
{
    if refusals::limits::file_fits(at) {
        if at < taken {
            return false;
        }
        if number == 0 {
            return taken == 0;
        }
        if (taken as u64) < number {
            return false;
        }
        return number <= ((at - taken) / 36) as u64;
    }
    false
}

// How many bytes a block of n makes due behind c bytes of ciphertext.
fn due(cipher: Cipher, c: usize, n: usize) -> usize
    requires { n ≤ file_limit }
    ensures { result ≡ counts.due_by cipher c n }
{
    match cipher {
        Cipher::Aes256 => held::due_count(held::held_count(c) + n),
        Cipher::ChaCha20 => n,
    }
}

// A data block decrypted and kept: what the state carries on.
fn carry(keys: Keys, c: usize, prev: [u8; 16], held: [u8; 16], d: &[u8], out: &mut [u8]) -> Carried
    requires { counts.due_by keys.cipher c (length d.now) ≤ length out.old }
    ensures prev_value { result.prev ≡ steps.prev_by keys.cipher c prev held d.now }
    ensures held_value { result.held ≡ steps.held_by keys.cipher c held d.now }
    ensures out_after { out.new ≡ over (steps.bytes_by keys.cipher keys c prev held d.now) out.old }
{
    let cipher = keys.cipher;
    match cipher {
        Cipher::Aes256 => return held::take_aes(keys, c, prev, held, d, out),
        Cipher::ChaCha20 => {
            keystream::take_chacha(keys, c, d, out);
            return Carried {
                prev: [0u8; 16],
                held: [0u8; 16],
            };
        }
    }
}

// A data block taken, there being room for what it makes due.
fn take_block(o: Opener, d: &[u8], out: &mut [u8]) -> Opener
    requires d_in_bounds { counts.due_by o.keys.cipher o.taken (length d.now) ≤ length out.old }
    requires taken_bound { 36 * o.number + o.taken ≤ o.at }
    requires d_bound { o.at + 36 + length d.now ≤ file_limit }
    ensures value { result ≡ steps.taking o d.now }
    ensures out_after { out.new ≡ over (steps.bytes_by o.keys.cipher o.keys o.taken o.prev o.held d.now) out.old }
{
    let number = o.number + 1;
    let at = o.at + 36 + d.len();
    let taken = o.taken + d.len();
    let keys = o.keys;
    let old_prev = o.prev;
    let old_held = o.held;
    let c = carry(keys, o.taken, old_prev, old_held, d, out);
    let prev = c.prev;
    let held = c.held;
    Opener {
        phase: Phase::Open,
        number,
        at,
        taken,
        prev,
        held,
        keys,
    }
}

// A step on a data block of n bytes.
fn step_data(o: Opener, f: &[u8], n: usize, out: &mut [u8]) -> Stepped
    requires f_len_bound { length f.now ≤ file_limit }
    requires n_in_bounds { o.at + 36 + n ≤ length f.now }
    requires taken_bound { 36 * o.number + o.taken ≤ o.at }
    ensures { Does (steps.step_on (Data n) f.now o (length out.old)) result out.old out.new }
{
    let keys = o.keys;
    let cipher = keys.cipher;
    let need = due(cipher, o.taken, n);
    if out.len() < need {
        return refuse(o, Refusal::NoRoom);
    }
    let start = o.at + 36;
    let next = take_block(o, &f[start..start + n], out);
    Stepped {
        answer: Ok(need),
        next,
    }
}

// The last piece of AES-256's ciphertext, decrypted.
fn last_piece(keys: RoundKeys, prev: [u8; 16], held: [u8; 16]) -> [u8; 16]
    ensures { result ≡ aes256_cbc.decrypt keys.words prev held }
{
    let mut a = held;
    aes_cbc::decrypt_cbc(keys, prev, &mut a);
    a
}

// What the closing block adds for AES-256: the last piece without its padding.
fn close_aes(o: Opener, out: &mut [u8]) -> Stepped
    ensures { Does (steps.close_by (steps.last_by Aes256 o.keys o.taken o.prev o.held) o (length out.old)) result out.old out.new }
{
    let closed = blank(Phase::Closed);
    if o.taken == 0 {
        return refuse(closed, Refusal::WrongPadding);
    }
    if o.taken % 16 != 0 {
        return refuse(closed, Refusal::WrongPadding);
    }
    let keys = o.keys;
    let words = keys.round_keys;
    let prev = o.prev;
    let held = o.held;
    let piece = last_piece(words, prev, held);
    match pkcs7::check(piece) {
        None => return refuse(closed, Refusal::WrongPadding),
        Some(p) => {
            let n = 16 - (p as usize);
            if out.len() < n {
                return refuse(o, Refusal::NoRoom);
            }
            slices::copy(out, &piece[..n]);
            let ended = blank(Phase::Ended);
            return Stepped {
                answer: Ok(n),
                next: ended,
            };
        }
    }
}

// A step on the closing block.
fn step_closing(o: Opener, f: &[u8], out: &mut [u8]) -> Stepped
    requires { o.at + 36 ≤ length f.now }
    ensures { Does (steps.step_on Closing f.now o (length out.old)) result out.old out.new }
{
    if o.at + 36 < f.len() {
        return refuse(blank(Phase::Closed), Refusal::TrailingBytes);
    }
    let keys = o.keys;
    let cipher = keys.cipher;
    match cipher {
        Cipher::Aes256 => return close_aes(o, out),
        Cipher::ChaCha20 => {
            return Stepped {
                answer: Ok(0),
                next: blank(Phase::Ended),
            };
        }
    }
}

// A step of an open state, on the next block of the file.
fn step_open(o: Opener, f: &[u8], out: &mut [u8]) -> Stepped
    requires { 36 * o.number + o.taken ≤ o.at }
    ensures { Does (steps.step_in Open f.now o (length out.old)) result out.old out.new }
{
    let keys = o.keys;
    let base = keys.base;
    match block_stream::judge(f, base, o.number, o.at) {
        Block::Refused(why) => return refuse(blank(Phase::Closed), why),
        Block::Data(n) => return step_data(o, f, n, out),
        Block::Closing => return step_closing(o, f, out),
    }
}

// One step: the next block of the file, and what it makes due in `out`.
pub fn step(o: Opener, f: &[u8], out: &mut [u8]) -> Stepped
    ensures answer_value { result.answer ≡ (steps.step_of f.now o (length out.old)).answer.written }
    ensures next_value { result.next ≡ (steps.step_of f.now o (length out.old)).next }
    ensures out_after { out.new ≡ over (steps.step_of f.now o (length out.old)).answer.bytes out.old }
{
    let phase = o.phase;
    match phase {
        Phase::Open => {
            if is_sound(o.number, o.at, o.taken) {
                return step_open(o, f, out);
            }
            return refuse(o, Refusal::OutOfSequence);
        }
        Phase::Closed => return refuse(o, Refusal::OutOfSequence),
        Phase::Ended => return refuse(o, Refusal::OutOfSequence),
    }
}
