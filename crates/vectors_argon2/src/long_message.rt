// The rows of a message of H_0 whose inputs are too long for a table: one slice is lent as password, secret and
// associated data, beside a salt of eight bytes. The message has 8,388,609 bytes.
//
// No row stands at the limit of a message, 33,554,432 bytes: such inputs do not fit the usual stack. tests/differential
// has none either, because the static library takes no other password than the 32 bytes of a composite key, and neither
// secret nor associated data. What is answered there stands in the contract (argon2, specs/Run, `outcome`).
use argon2::Kind;
use std::io;
use vectors::first;

// Both of them, of a byte repeated, in the first 1,024 words of `memory`.
pub fn rows(rt: &impl Print, b: u8, memory: &mut [u64]) -> io::Result<()> {
    let long = [b; 2_796_187];
    match memory.get_mut(..1_024) {
        Some(lent) => within(rt, &long, lent),
        None => Ok(()),
    }
}

// Both rows, in a memory that is filled by rule before.
fn within(rt: &impl Print, long: &[u8], memory: &mut [u64]) -> io::Result<()> {
    let mut out = [0x5au8; 32];
    crate::lent::fill(memory);
    let o = argon2::hash(
        Kind::Argon2id,
        long,
        first(long, 8),
        long,
        long,
        1,
        8_192,
        1,
        memory,
        &mut out,
    );
    vectors::row(rt, b"hash", b"long-message", 32, refusals::number(o), &out)?;
    crate::lent::row(rt, b"long-message", memory)
}
