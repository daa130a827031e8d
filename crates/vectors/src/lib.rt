// What the vector programs share: messages by rule, and one row of text for each result.
//
// A row is `name form length number digits`: which operation, in which form, the length of the message that the result
// is of, the number that was answered (0 is success), and the result in hexadecimal. A program's stored stdout is made
// by tools/PROGRAM.py, which has the same rules and computes each result with an independent implementation. A program
// whose cases are data has them in its stored stdin, which the same script writes; `table` reads them. `parts` cuts a
// message, and `digest` has the rows of what is fed in parts. Of what is filled and printed nothing is promised but
// that each function is safe and ends: the output is compared.
#![tactic(auto)]

ghost use Rattle.std.specs.Prelude.{◌≡◌, ◌<◌, length, take, drop};

use std::io;

pub mod digest;
pub mod parts;
pub mod table;

// Fills `out` by rule: byte i is (37 i + 11) mod 251. 251 is prime, so no two blocks near each other are the same.
pub fn pattern(out: &mut [u8]) {
    let mut x: u8 = 11;
    for byte in out {
        *byte = x;
        x = next(x);
    }
}

// 37 more, mod 251.
fn next(x: u8) -> u8 {
    if x < 214 { x + 37 } else { x - 214 }
}

// Fills `out` with pseudo-random bytes and answers the generator's state, for the next call: x becomes
// 1664525 x + 1013904223 mod 2^32 for each byte, which is the upper eight bits of x.
pub fn random(state: u64, out: &mut [u8]) -> u64 {
    let mut x = state;
    for byte in out {
        x = random_next(x);
        *byte = (x >> 24) as u8;
    }
    x
}

// One step of the generator.
fn random_next(x: u64) -> u64
    ensures { result < 4294967296 }
{
    (x % 0x1_0000_0000 * 1_664_525 + 1_013_904_223) % 0x1_0000_0000
}

// One byte a million times, the longest message that is hashed whole. The `ensures` gives what lending the array needs.
pub fn million(b: u8) -> [u8; 1_000_000]
    ensures { 1000000 ≡ length result }
{
    [b; 1_000_000]
}

// The first `n` bytes of `m`, or all of it where it has fewer.
pub fn first(m: &[u8], n: usize) -> &[u8]
    ensures { result.now ≡ take n m.now }
{
    m.get(..n).unwrap_or(m)
}

// The same, to be written.
pub fn first_mut(m: &mut [u8], n: usize) -> &mut [u8] {
    let end = n.min(m.len());
    &mut m[..end]
}

// The bytes of `m` from `at` on.
pub fn after(m: &[u8], at: usize) -> &[u8]
    ensures { result.now ≡ drop at m.now }
{
    m.get(at..).unwrap_or(&[])
}

// A row of the output.
pub fn row(
    rt: &impl Print,
    name: &[u8],
    form: &[u8],
    length: usize,
    number: u8,
    res: &[u8],
) -> io::Result<()> {
    rt.write_all(name)?;
    rt.write_all(b" ")?;
    rt.write_all(form)?;
    print!(rt; " {length} {number} ")?;
    digits(rt, res)?;
    rt.write_all(b"\n")
}

// Bytes in lower-case hexadecimal.
fn digits(rt: &impl Print, bytes: &[u8]) -> io::Result<()> {
    for b in bytes {
        print!(rt; "{b:02x}")?;
    }
    Ok(())
}
