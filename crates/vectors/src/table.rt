// A table of text: a line for each case, its fields set apart by one space.
//
// A field is text as it stands, a number in decimal, or bytes: `=` and their lower-case hexadecimal digits, or `-`
// where they are absent, so that no bytes and absent bytes differ.
ghost use Rattle.std.specs.Prelude.{◌<◌, length};
ghost use Rattle.std.specs.Iterator.{at_most};

use crate::after;
use std::alloc::{AllocError, Global};
use std::io;

// The table on standard input, up to so many bytes, or to where a read fails.
pub fn read(rt: &(impl Input + AllocGlobal), most: usize) -> io::Result<Vec<u8>> {
    let mut table = vec![in rt.alloc(); 0; most]?;
    let n = console::read_input(rt, &mut table);
    table.truncate(n);
    Ok(table)
}

// The lines of a table from the first on, each without its end, which the last need not have.
#[derive(Drop)]
pub struct Lines<'a> {
    rest: &'a [u8],
}

impl<'a> Lines<'a> {
    pub fn of(table: &'a [u8]) -> Lines<'a> {
        Lines { rest: table }
    }
}

impl<'a> Iterator for Lines<'a> {
    type Item = &'a [u8];

    ghost remaining = { λ lines. at_most (length lines.rest.now) };

    fn next(&mut self) -> Option<&'a [u8]> {
        if self.rest.is_empty() {
            return None;
        }
        let line = self.rest.split(|b| *b == b'\n').next()?;
        self.rest = after(self.rest, line.len() + 1);
        Some(line)
    }
}

// Field k of a line, empty where the line has fewer.
pub fn field(line: &[u8], k: usize) -> &[u8] {
    line.split(|b| *b == b' ').nth(k).unwrap_or(&[])
}

// Whether a field's bytes are not absent.
pub fn is_given(field: &[u8]) -> bool {
    field.starts_with(b"=")
}

// A field's bytes, as many as `out` has room for, and how many they are.
pub fn bytes(field: &[u8], out: &mut [u8]) -> usize {
    let digits = after(field, 1).chunks_exact(2);
    let n = out.len().min(digits.len());
    for (byte, pair) in out.iter_mut().zip(digits) {
        *byte = 16 * digit(pair[0]) + digit(pair[1]);
    }
    n
}

// A field's bytes, so many at most.
pub fn decoded(alloc: Global, field: &[u8], most: usize) -> Result<Vec<u8>, AllocError> {
    after(field, 1)
        .chunks_exact(2)
        .map(|pair| 16 * digit(pair[0]) + digit(pair[1]))
        .take(most)
        .collect(alloc)
}

// The first 32 bytes of a field, zeros where it has fewer.
pub fn array(field: &[u8]) -> [u8; 32] {
    let mut a = [0u8; 32];
    bytes(field, &mut a);
    a
}

// A field's number, of at most 18 digits.
pub fn number(field: &[u8]) -> u64 {
    field.iter().fold(0, |x, b| {
        x % 100_000_000_000_000_000 * 10 + u64::from(digit(*b))
    })
}

// The value of a digit, 0 for any other byte.
fn digit(b: u8) -> u8
    ensures { result < 16 }
{
    match b {
        b'0'..=b'9' => b - b'0',
        b'a'..=b'f' => b - b'a' + 10,
        _ => 0,
    }
}
