// PKCS #7 padding written behind every payload of up to 48 bytes, and the check's answer on right and wrong pieces.
//
// A row is `name form length number result` (the crate `vectors`). Of what is written: `adds`, the length of the
// padding of the payload shown; `pad`, a slice of 72 bytes of which the first `length` are the payload, and `room`, one
// that may have too little room for it, each after the padding was written into it. Of the check: the length of the
// padding that is found in the piece shown, or 0 and refusal 16. The forms: `right`, a piece with padding of each
// length; `changed`, one with a bit of a byte of its padding changed, the lowest or the highest; `same`, every byte 16
// times; `last`, a piece of other bytes with every byte at its end. tools/vectors_pkcs7.py writes the stored stdout
// with the Python package cryptography.
#![tactic(auto)]

use std::io;

mod checked;
mod written;

fn main(rt: HostRuntime) -> io::Result<()> {
    let mut space = [0u8; 72];
    written::payloads(&rt, &mut space)?;
    written::rooms(&rt, &mut space)?;
    checked::paddings(&rt)?;
    checked::bytes(&rt)
}
