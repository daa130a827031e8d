// The rows of a payload that is read.
use inner_header::Inner;
use refusals::Refusal;
use std::io;
use vectors::table::field;

// The rows of a line's payload.
pub fn line(rt: &impl Print, line: &[u8]) -> io::Result<()> {
    let mut space = console::large_buffer();
    let n = vectors::table::bytes(field(line, 2), &mut space);
    rows(rt, field(line, 1), vectors::first(&space, n))
}

// The rows of a payload.
pub fn rows(rt: &impl Print, name: &[u8], payload: &[u8]) -> io::Result<()> {
    match inner_header::read_header(payload) {
        Err(r) => {
            vectors::row(rt, b"inner", name, r.place(), r.number(), b"")?;
            attachment(rt, name, payload, 0)
        }
        Ok(h) => accepted(rt, name, payload, h),
    }
}

// The rows of a payload whose header is accepted: of each attachment too, and of the index behind the last.
fn accepted(rt: &impl Print, name: &[u8], payload: &[u8], h: Inner) -> io::Result<()> {
    let k = h.key;
    let key = slices::part(payload, k.start, k.length);
    vectors::row(rt, b"inner", name, h.algorithm as usize, 0, key)?;
    let document = vectors::after(payload, h.document);
    hashed(rt, b"document", name, h.document, document)?;
    for i in 0..=h.attachments {
        attachment(rt, name, payload, i)?;
    }
    let behind = vectors::after(vectors::after(payload, k.start), k.length);
    let length = behind
        .len()
        .saturating_sub(document.len())
        .saturating_sub(5);
    let run = vectors::first(behind, length);
    again(rt, name, h.algorithm, key, run, document)
}

// The rows of an attachment.
fn attachment(rt: &impl Print, name: &[u8], payload: &[u8], index: usize) -> io::Result<()> {
    match inner_header::find_attachment(payload, index) {
        Err(r) => vectors::row(rt, b"attachment", name, r.place(), r.number(), b""),
        Ok((flags, p)) => {
            vectors::row(rt, b"flags", name, index, 0, &[flags])?;
            let content = slices::part(payload, p.start, p.length);
            hashed(rt, b"attachment", name, p.start, content)
        }
    }
}

// The row of what is written of a payload's parts.
fn again(
    rt: &impl Print,
    name: &[u8],
    algorithm: u32,
    key: &[u8],
    run: &[u8],
    document: &[u8],
) -> io::Result<()> {
    let mut out = console::large_buffer();
    match inner_header::writer::write(algorithm, key, run, document, &mut out) {
        Err(r) => vectors::row(rt, b"written", name, r.place(), r.number(), b""),
        Ok(n) => hashed(rt, b"written", name, n, vectors::first(&out, n)),
    }
}

// The row of the SHA-256 of bytes.
fn hashed(rt: &impl Print, what: &[u8], name: &[u8], figure: usize, s: &[u8]) -> io::Result<()> {
    vectors::row(rt, what, name, figure, 0, &sha256::hash(s).digest)
}
