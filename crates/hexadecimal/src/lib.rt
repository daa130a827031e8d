// Hexadecimal digits (RFC 4648, section 8): bytes written as digits, and digits read as bytes.
//
//   00 1F A5    is written    001FA5      in upper case, the upper four bits of a byte first
//   001fA5      is read       00 1F A5    in either case
//
// The contracts cite specs/Rfc4648. Every function answers every input: bytes are written and read as far as there is
// room, and a character that is no digit counts as 0. `all_digits` tells whether all are digits; it looks at every
// character, wherever the first one is that is no digit.
#![tactic(auto)]

ghost use Rattle.std.specs.Prelude.{◌≡◌, ◌/◌, ◌<◌, length, take};
ghost use Rattle.slices.specs.Over.{over, laid};
ghost use Rattle.hexadecimal.specs.Rfc4648 as rfc4648;

// The digit of a number below sixteen, in upper case.
#[tactic(auto, using(std::proofs::lemmas::Bool::Decides::nat_tests), unfolding(crate::specs::Rfc4648::digit))]
fn digit(n: u8) -> u8
    requires { n < 16 }
    ensures { result ≡ rfc4648.digit n }
{
    match n {
        0..=9 => b'0' + n,
        _ => b'A' + (n - 10),
    }
}

// Whether a character is a digit, in either case.
#[tactic(auto, using(std::proofs::lemmas::Bool::Decides::nat_tests), unfolding(crate::specs::Rfc4648::is_digit))]
pub fn is_digit(c: u8) -> bool
    ensures { result ≡ rfc4648.is_digit c }
{
    c.is_ascii_hexdigit()
}

// The value of a digit, in either case; 0 of any other character.
#[tactic(auto, using(std::proofs::lemmas::Bool::Decides::nat_tests), unfolding(crate::specs::Rfc4648::value))]
pub fn value(c: u8) -> u8
    ensures { result ≡ rfc4648.value c }
{
    match c {
        b'0'..=b'9' => c - b'0',
        b'A'..=b'F' => c - b'A' + 10,
        b'a'..=b'f' => c - b'a' + 10,
        _ => 0,
    }
}

// Whether every character is a digit.
pub fn all_digits(s: &[u8]) -> bool
    ensures { result ≡ rfc4648.all_digits s.now }
{
    let mut all = true;
    for c in s {
        all &= is_digit(*c);
    }
    all
}

// Writes the digits of the bytes of `s` over the front of `out`, of as many bytes as there is room for.
pub fn encode(out: &mut [u8], s: &[u8])
    ensures { out.new ≡ over (rfc4648.encode (take (length out.old / 2) s.now)) out.old }
{
    for i in 0..s.len().min(out.len() / 2) {
        let b = s[i];
        out[2 * i] = digit(b / 16);
        out[2 * i + 1] = digit(b % 16);
    }
}

// Writes the bytes that the digits of `s` stand for over the front of `out`, as many as there is room for.
pub fn decode(out: &mut [u8], s: &[u8])
    ensures { out.new ≡ laid (rfc4648.decode s.now) out.old }
{
    for i in 0..out.len().min(s.len() / 2) {
        let high = s[2 * i];
        let low = s[2 * i + 1];
        out[i] = 16 * value(high) + value(low);
    }
}
