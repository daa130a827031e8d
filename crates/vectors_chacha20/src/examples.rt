// RFC 8439's examples. Block b of the stream stands at position 64 b, so a counter of the RFC's is a position here.
use chacha20::ChaCha20;
use std::io;

// 2.3.2 and appendix A.1: blocks, that is the stream over zeros.
pub fn blocks(rt: &impl Print) -> io::Result<()> {
    block(
        rt,
        b"2.3.2",
        counted_key(),
        *b"\0\0\0\x09\0\0\0\x4a\0\0\0\0",
        1,
    )?;
    block(rt, b"A.1-1", key_with(0, 0), [0; 12], 0)?;
    block(rt, b"A.1-2", key_with(0, 0), [0; 12], 1)?;
    block(rt, b"A.1-3", key_with(0, 1), [0; 12], 1)?;
    block(rt, b"A.1-4", key_with(0xff, 0), [0; 12], 2)?;
    block(
        rt,
        b"A.1-5",
        key_with(0, 0),
        *b"\0\0\0\0\0\0\0\0\0\0\0\x02",
        0,
    )
}

// 2.4.2 and appendix A.2: encryptions.
pub fn encryptions(rt: &impl Print) -> io::Result<()> {
    let mut sunscreen =
        *b"Ladies and Gentlemen of the class of '99: If I could offer you only one tip for the future, sunscreen would be it.";
    example(
        rt,
        b"2.4.2",
        counted_key(),
        *b"\0\0\0\0\0\0\0\x4a\0\0\0\0",
        1,
        &mut sunscreen,
    )?;
    block(rt, b"A.2-1", key_with(0, 0), [0; 12], 0)?;
    let mut ietf =
        *b"Any submission to the IETF intended by the Contributor for publication as all or part of an IETF Internet-Draft or RFC and any statement made within the context of an IETF activity is considered an \"IETF Contribution\". Such statements include oral statements in IETF sessions, as well as written and electronic communications made at any time or place, which are addressed to";
    example(
        rt,
        b"A.2-2",
        key_with(0, 1),
        *b"\0\0\0\0\0\0\0\0\0\0\0\x02",
        1,
        &mut ietf,
    )?;
    let mut jabberwocky =
        *b"'Twas brillig, and the slithy toves\nDid gyre and gimble in the wabe:\nAll mimsy were the borogoves,\nAnd the mome raths outgrabe.";
    example(
        rt,
        b"A.2-3",
        *b"\x1c\x92\x40\xa5\xeb\x55\xd3\x8a\xf3\x33\x88\x86\x04\xf6\xb5\xf0\x47\x39\x17\xc1\x40\x2b\x80\x09\x9d\xca\x5c\xbc\x20\x70\x75\xc0",
        *b"\0\0\0\0\0\0\0\0\0\0\0\x02",
        42,
        &mut jabberwocky,
    )
}

// The key 00 01 02 .. 1f.
fn counted_key() -> [u8; 32] {
    std::array::from_fn(|i| i as u8)
}

// The key of zeros but for its second and its last byte.
fn key_with(second: u8, last: u8) -> [u8; 32] {
    let mut k = [0u8; 32];
    k[1] = second;
    k[31] = last;
    k
}

// The block of a counter.
fn block(
    rt: &impl Print,
    form: &[u8],
    key: [u8; 32],
    nonce: [u8; 12],
    counter: u8,
) -> io::Result<()> {
    let mut zeros = [0u8; 64];
    example(rt, form, key, nonce, counter, &mut zeros)
}

// A text under a key and a nonce, from the block of a counter on.
fn example(
    rt: &impl Print,
    form: &[u8],
    key: [u8; 32],
    nonce: [u8; 12],
    counter: u8,
    text: &mut [u8],
) -> io::Result<()> {
    ChaCha20::apply(key, nonce, 64 * u64::from(counter), text);
    vectors::row(rt, b"chacha20", form, text.len(), 0, text)
}
