// The rows of a vault that is written.
use kdf_dictionary::writer::Figures;
use refusals::Refusal;
use std::io;
use vectors::table::{array, decoded, field, is_given, number};

// The rows of a line, whose payload is given or by rule.
pub fn line(rt: &(impl Print + AllocGlobal), line: &[u8], pattern: &[u8]) -> io::Result<()> {
    let text = field(line, 12);
    if is_given(text) {
        return write(rt, line, &decoded(rt.alloc(), text, 65_536)?);
    }
    write(rt, line, vectors::first(pattern, number(text) as usize))
}

// The rows of a line and its payload: written to an output of which the line's room is lent.
fn write(rt: &(impl Print + AllocGlobal), line: &[u8], payload: &[u8]) -> io::Result<()> {
    let alloc = rt.alloc();
    let cipher = decoded(alloc, field(line, 2), 64)?;
    let seed = decoded(alloc, field(line, 3), 64)?;
    let nonce = decoded(alloc, field(line, 4), 64)?;
    let salt = decoded(alloc, field(line, 6), 128)?;
    let custom = decoded(alloc, field(line, 10), 256)?;
    let room = number(field(line, 13)) as usize;
    let mut out = vec![in alloc; 0xEE; output_size(room)]?;
    let lent = room.min(out.len());
    let w = writer::write(
        (number(field(line, 1)) % 0x1_0000) as u16,
        &cipher,
        &seed,
        &nonce,
        figures(line),
        &salt,
        &custom,
        array(field(line, 11)),
        payload,
        &mut out[..lent],
    );
    show(rt, field(line, 0), w, &out)
}

// The figures of a line's KDF.
fn figures(line: &[u8]) -> Figures {
    let first = number(field(line, 7));
    let memory = number(field(line, 8));
    let lanes = (number(field(line, 9)) % 0x1_0000_0000) as u32;
    match number(field(line, 5)) {
        0 => Figures::AesKdf { rounds: first },
        1 => Figures::Argon2d {
            passes: first,
            memory,
            lanes,
        },
        _ => Figures::Argon2id {
            passes: first,
            memory,
            lanes,
        },
    }
}

// The length of the output of which so much is lent.
fn output_size(room: usize) -> usize {
    if room <= 65_536 { 65_536 } else { 2_162_688 }
}

// The rows of an answer and the whole output.
fn show(rt: &impl Print, name: &[u8], w: Result<usize, Refusal>, out: &[u8]) -> io::Result<()> {
    match w {
        Err(r) => {
            vectors::row(rt, b"written", name, 0, r.number(), b"")?;
            hashed(rt, b"behind", name, out)
        }
        Ok(n) => {
            let file = vectors::first(out, n);
            hashed(rt, b"written", name, file)?;
            hashed(rt, b"behind", name, vectors::after(out, n))?;
            if slices::same(vectors::first(name, 5), b"file-") {
                vectors::row(rt, b"file", name, n, 0, file)?;
            }
            Ok(())
        }
    }
}

// The length and hash of bytes.
fn hashed(rt: &impl Print, name: &[u8], form: &[u8], s: &[u8]) -> io::Result<()> {
    vectors::row(rt, name, form, s.len(), 0, &sha256::hash(s).digest)
}
