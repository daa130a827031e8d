// Salsa20 on published vectors, ECRYPT's for keys of 256 bits among them, and on stretches to and over position 2^64.
//
// A row is `name form length number result` (the crate `vectors`); the number is 0, for nothing is refused, and the
// result is the stream, that is zeros covered. Standard input has a line for each stretch: its form, key, nonce,
// position and number of bytes, at most 1,024. The forms: `S-V`, vector V of ECRYPT's set S, with `-atP` where the
// stretch starts at position P; `ironclad-…` and `cryptopp-…`, vectors of those libraries, the latter over the end of
// the counter's first word; `rule-atP`, a key and a nonce by rule. tools/vectors_salsa20.py writes stdin and stdout
// from the published files, of which libsodium and nettle computed every byte alike.
#![tactic(auto)]

use salsa20::Salsa20;
use std::io;
use vectors::table::{self, Lines, array, bytes, field, number};

fn main(rt: HostRuntime) -> io::Result<()> {
    let cases = table::read(&rt, 65_536)?;
    for line in Lines::of(&cases) {
        stretch(&rt, line)?;
    }
    Ok(())
}

// The stream of a line's stretch, over zeros, and its row.
fn stretch(rt: &impl Print, line: &[u8]) -> io::Result<()> {
    let mut nonce = [0; 8];
    bytes(field(line, 2), &mut nonce);
    let mut zeros = [0; 1_024];
    let n = (number(field(line, 4)) as usize).min(1_024);
    let lent = &mut zeros[..n];
    Salsa20::apply(array(field(line, 1)), nonce, position(field(line, 3)), lent);
    vectors::row(rt, b"salsa20", field(line, 0), n, 0, lent)
}

// A field's number below 2^64, of at most 20 digits: its last two apart, for `number` takes 18.
fn position(field: &[u8]) -> u64 {
    let (hundreds, rest) = field.split_at(field.len().saturating_sub(2));
    (number(hundreds) % 184_467_440_737_095_517 * 100).wrapping_add(number(rest))
}
