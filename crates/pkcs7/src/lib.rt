// PKCS #7 padding (RFC 5652, 6.3) to whole pieces of 16 bytes.
//
// A payload gets 1 to 16 bytes behind it, each holding their number, and a whole piece where it fills its last one.
// The contracts cite specs/Pkcs7. The check looks at every byte of the last piece, whichever of them are wrong; what it
// says in document 01's numbers is in specs/Answers. Refusal: 16.
#![tactic(auto)]

ghost use Rattle.std.specs.Prelude.{◌≡◌, [], ◌∷◌, ◌<◌};
ghost use Rattle.pkcs7.specs.Pkcs7 as pkcs7;
ghost use Rattle.pkcs7.specs.Answer.{answer, padded, wrong_bits};
ghost use Rattle.pkcs7.specs.Answers as answers;

use refusals::Refusal;

// The number of what the check of a last piece finds: 0, or 16.
pub fn padding_number(padding: Option<u8>) -> u8
    ensures { result ≡ (answers.said padding).number }
{
    match padding {
        Some(_) => 0,
        None => Refusal::WrongPadding.number(),
    }
}

// How many bytes pad the piece: 0 where the padding is wrong.
pub fn padding_value(padding: Option<u8>) -> u8
    ensures { result ∷ [] ≡ (answers.said padding).values }
{
    match padding {
        Some(p) => p,
        None => 0,
    }
}

// How many bytes pad a payload of n bytes.
pub fn padding_length(n: usize) -> usize
    ensures { result ≡ pkcs7.padding_length n }
{
    16 - n % 16
}

// Writes the padding of a payload, which is the first n bytes of `out`, behind it, as far as there is room.
pub fn pad(out: &mut [u8], n: usize)
    ensures { out.new ≡ padded n out.old }
{
    if out.len() < n {
        return;
    }
    let p = padding_length(n);
    let bytes = [p as u8; 16];
    slices::copy(&mut out[n..], &bytes[..p]);
}

// The bits in which the byte x at place i of a piece is wrong, where the last p bytes are to be p.
fn wrong_bits(i: usize, p: u8, x: u8) -> u8
    requires { i < 16 }
    ensures { result ≡ wrong_bits i p x }
{
    if i + (p as usize) < 16 {
        return 0;
    }
    x ^ p
}

// How many bytes pad the last piece: none where its padding is wrong.
pub fn check(piece: [u8; 16]) -> Option<u8>
    ensures value { result ≡ answer (pkcs7.padding piece) }
    ensures result_value { answers.said result ≡ answers.said (answer (pkcs7.padding piece)) }
{
    let p = piece[15];
    let mut d: u8 = 0;
    for i in (0..16).rev() {
        d |= wrong_bits(i, p, piece[i]);
    }
    if p == 0 {
        return None;
    }
    if 16 < p {
        return None;
    }
    if d == 0 {
        return Some(p);
    }
    None
}
