// How much stack the process may use, by the text that Linux gives of its limits.
//
// The contracts cite specs/Stack. A text that does not tell counts as no stack.
ghost use Rattle.std.specs.Prelude.{◌≡◌, leb, drop};
ghost use Rattle.unlocking.specs.Stack as limits;

use crate::input;
use std::rt::Files;

// What stands behind the first place of a word: nothing where there is none.
fn behind<'a>(s: &'a [u8], w: &[u8]) -> &'a [u8]
    ensures { result.now ≡ limits.behind w.now s.now }
{
    for at in 0..s.len() {
        if let Some(rest) = s[at..].strip_prefix(w) {
            return rest;
        }
    }
    &[]
}

// A text from its first byte on that is no space.
fn unspaced(s: &[u8]) -> &[u8]
    ensures { result.now ≡ limits.unspaced s.now }
{
    for (at, x) in s.iter().enumerate() {
        if *x != b' ' {
            return &s[at..];
        }
    }
    &[]
}

// Whether a byte is a decimal digit.
fn is_digit(x: u8) -> bool
    ensures { result ≡ limits.is_digit x }
{
    matches!(x, b'0'..=b'9')
}

// Whether the number that a text begins with is at least `least`.
fn reaches(s: &[u8], least: u32) -> bool
    ensures { result ≡ leb least (limits.decimal 0 s.now) }
{
    let least = u64::from(least);
    let mut n: u64 = 0;
    for x in s {
        if least <= n {
            return true;
        }
        if !is_digit(*x) {
            return false;
        }
        n = n * 10 + u64::from(*x - b'0');
    }
    least <= n
}

// Whether a text tells that the stack may have so many bytes.
pub fn allows(text: &[u8], bytes: u32) -> bool
    ensures { result ≡ limits.allows bytes text.now }
{
    let limit = unspaced(behind(text, b"Max stack size"));
    limit.starts_with(b"unlimited") || reaches(limit, bytes)
}

// Whether the process may use so many bytes of stack.
pub fn has_room(rt: &impl Files, bytes: u32) -> bool {
    let mut text = console::buffer();
    match input::read_file(rt, b"/proc/self/limits", &mut text) {
        Ok(n) => allows(slices::part(&text, 0, n), bytes),
        Err(_) => false,
    }
}
